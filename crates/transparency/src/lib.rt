// Request 14: claims that the sandbox does not alter a routine that behaves well. It has no code.
#![tactic(auto)]
