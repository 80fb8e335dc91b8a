// Specifications alone: which bytes may stand where in a file, and what reading them gives.
#![tactic(auto)]
