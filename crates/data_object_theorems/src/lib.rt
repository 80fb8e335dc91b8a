// Specifications alone: what holds of every reading of a header, and the marked cases, computed.
#![tactic(auto)]
