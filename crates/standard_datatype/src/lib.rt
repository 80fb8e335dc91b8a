// Specifications alone: the datatype message that is read, beside the standard's.
#![tactic(auto)]
