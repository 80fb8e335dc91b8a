// Specifications alone: a header as it is read is that of the HDF5 File Format Specification.
#![tactic(auto)]
