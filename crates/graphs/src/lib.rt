// The graph of document 01 in arrays: its edges, the labels of joined terms, and the paths between them.

#![tactic(auto)]

pub mod graph;
pub mod labels;
pub mod paths;
pub mod rooting;
