// Defines what the engine's two C functions answer and leave, with the claims about their calls. It has no code.
