// Specifications alone: the superblock that is read, and the root's header that it leads to, beside
// the standard's.
#![tactic(auto)]
