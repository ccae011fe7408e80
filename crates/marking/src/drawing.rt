// The last graph as the clause layer reads it.

use closure::EDGES;
use graphs::rooting::Rooting;

// Each edge has eight places for the ends of its parent paths.
pub const PARENTS: usize = 8 * EDGES;

// The forest gives each vertex the way to its root. Under an edge's number stand whether its colour is B, how many parent paths it has, and their ends:
// four places for those at the left end's arguments and four for those at the right end's. They stay arrays of their own: stretches are walked along the
// colours alone, and memory is fixed, so the count stands beside them.
#[derive(Clone, Copy)]
pub struct Drawing {
    pub forest: Rooting,
    pub inb: [bool; EDGES],
    pub places: [u8; EDGES],
    pub parents: [u16; PARENTS],
    pub count: usize,
}
