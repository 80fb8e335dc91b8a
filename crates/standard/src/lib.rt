// Specifications alone: the layout tables of the HDF5 File Format Specification, and what it is for a format to be one of them.
#![tactic(auto)]
