// Request 13: defines the routines that always finish and their two checks, with the claims about them. It has no code.
#![tactic(auto)]
