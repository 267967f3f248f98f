// Runs of the engine that satisfy the premises of its claims, so that these are not empty. It has no code.
