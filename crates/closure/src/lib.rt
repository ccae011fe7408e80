// The closure layer of document 01: what its definitions and theorems (specs/ and proofs/) say of an edge.

#![tactic(auto)]

use tables::Side;

// A graph has at most so many vertices: 256 given terms and 255 added ones, for a run has fewer steps than there are given terms, and a step adds one.
pub const VERTICES: usize = 511;

// And so many edges, for no edge closes a cycle.
pub const EDGES: usize = VERTICES - 1;

// Where an edge comes from.
#[derive(Clone, Copy, Debug, PartialEq, Eq)]
pub enum EdgeKind {
    Basic,
    Derived,
}

// "A graph edge is one record holding ends, colour and kind."
#[derive(Clone, Copy, Debug, PartialEq, Eq)]
pub struct Edge {
    pub left: u16,
    pub right: u16,
    pub colour: Side,
    pub kind: EdgeKind,
}
