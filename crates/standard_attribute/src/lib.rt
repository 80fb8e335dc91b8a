// Specifications alone: the attribute message that is read, beside the standard's.
#![tactic(auto)]
