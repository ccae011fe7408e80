// The clause layer of document 01 as code, its first half: the graph's edges and terms on plain arrays, and marks for what the clauses and premises
// of a summary are read from.

#![tactic(auto)]

pub mod drawing;
pub mod edges;
pub mod marks;
pub mod settling;
