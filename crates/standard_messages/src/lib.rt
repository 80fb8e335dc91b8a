// Specifications alone: the messages as they are read are those of the HDF5 File Format Specification.
#![tactic(auto)]
