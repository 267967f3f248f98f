// Defines the rules of the sandbox in specs/ and proves claims about them in proofs/. It has no code.
#![tactic(auto)]
