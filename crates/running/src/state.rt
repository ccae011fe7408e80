// What a run has made so far: the table of given and added terms, the graph, and the label of each term.

ghost use Rattle.std.specs.Prelude.{List, ◌<◌};
ghost use Rattle.tables.specs.Terms.{Term};
ghost use Rattle.tables.specs.declared.Literal.{Literal};
ghost use Rattle.closure.specs.Steps.{State as Reached, with_edge};
ghost use Rattle.running.specs.Shown.{Shows};

use closure::{Edge, EdgeKind, VERTICES};
use graphs::graph::Graph;
use graphs::labels;
use tables::Side;

// The table has the given terms first and the added ones after them. A given term not in use is no vertex. What is said of the terms stands in an array
// for each thing said, and not in one of terms: labels change and keys are compared along one array alone, which the machine does for many places at a
// time, and `Shows` says of each array what it holds.
#[derive(Clone, Copy)]
pub struct State {
    pub terms: usize,
    pub symbols: [u16; VERTICES],
    pub arities: [u8; VERTICES],
    pub rows: [[u16; 4]; VERTICES],
    pub colours: [u8; VERTICES],
    pub vertices: [bool; VERTICES],
    pub graph: Graph,
    pub labels: [u16; VERTICES],
}

// Row 8: "a middle term is needed and a parent path has no shared term".
#[derive(Clone, Copy, Debug, PartialEq, Eq)]
pub struct Stuck;

impl State {
    // One edge more, in the graph and in the labels.
    pub(crate) fn join(&mut self, left: usize, right: usize, colour: Side, kind: EdgeKind)
        requires { (left < 511) × (right < 511) × (self.old.graph.count < 510) }
        ensures { (ts : List Term) (ls : List Literal) (st : Reached) → Shows ts ls st self.old → Shows ts ls (with_edge st left right colour kind) self.new }
    {
        let from = self.labels[right];
        let to = self.labels[left];
        labels::relabel(&mut self.labels, from, to);
        self.graph = self.graph.with_edge(Edge {
            left: left as u16,
            right: right as u16,
            colour,
            kind,
        });
    }
}
