// One derived step of the library's own run.

ghost use Rattle.std.specs.Prelude.{IsTrue, ◌↔◌, List, ◌≡◌, ◌%◌, ◌<◌, T, eqb, leb, get_or, option_map, None, []};
ghost use Rattle.std.specs.List.{All, find};
ghost use Rattle.tables.specs.Words.{pair};
ghost use Rattle.tables.specs.Terms.{Term};
ghost use Rattle.tables.specs.declared.Literal.{Literal};
ghost use Rattle.closure.specs.Steps.{State as Reached, vertex_equal, placed, tied};
ghost use Rattle.closure.specs.OwnRun.{first_shared, middle_from, derivable, derived_on};
ghost use Rattle.running.specs.Shown.{padded, Shows};
ghost use Rattle.running.specs.Stepping.{Choosing, Placing, Alike, OnRun, Apart, colouring, Outcome};

use super::state::{State, Stuck};
use closure::{EdgeKind, VERTICES};
use graphs::paths::Trail;
use graphs::rooting::{self, Rooting};
use tables::Side;

// A term's colours are one number, as the tables have them: 1 A-colourable, 2 B-colourable, 3 shared, which is both, 0 neither.
const SHARED: u8 = 3;

// Whether a term of these colours is A-colourable.
fn in_a(colour: u8) -> bool
    ensures { result ≡ eqb (colour % 2) 1 }
{
    colour % 2 == 1
}

// Whether it is B-colourable.
fn in_b(colour: u8) -> bool
    ensures { result ≡ leb 2 colour }
{
    2 <= colour
}

// "A derived edge is B where both ends are B-colourable, else A": by the numbers of the ends' colours. Where it would be neither, it takes a middle term.
#[tactic(auto, unfolding(crate::specs::Stepping::colouring))]
pub(crate) fn edge_colour(of_s: u8, of_t: u8) -> Option<Side>
    ensures { result ≡ colouring of_s of_t }
{
    if in_b(of_s) & in_b(of_t) {
        Some(Side::B)
    } else if in_a(of_s) & in_a(of_t) {
        Some(Side::A)
    } else {
        None
    }
}

impl State {
    // "the first met on the parent path from the argument of the end that is A-colourable only": the first shared stop.
    fn first_shared(&self, stops: &[u16]) -> Option<u16>
        requires { All (λ v. v < 511) stops.now }
        ensures { result ≡ find (λ v. eqb (get_or self.now.colours v 0) 3) stops.now }
    {
        stops
            .iter()
            .copied()
            .find(|&m| self.colours[m as usize] == SHARED)
    }

    // Argument by argument, the first shared term on its parent path, or nothing where such a path has none.
    fn chosen(&self, forest: &Rooting, s: usize, t: usize) -> Option<[u16; 4]>
        requires { (s < 511) × (t < 511) × Choosing self.now forest.now s t }
        ensures { (w : Choosing self.now forest.now s t) → result ≡ option_map padded (first_shared w.ts w.ls w.table w.graph w.left w.right) }
    {
        let mut trail = Trail {
            stops: [0; VERTICES],
            edges: [0; VERTICES],
            hops: 0,
        };
        let mut row = [0; 4];
        for j in 0..self.arities[s] as usize {
            forest.lay_path(self.rows[s][j], self.rows[t][j], &mut trail);
            row[j] = self.first_shared(&trail.stops[..=trail.hops])?;
        }
        Some(row)
    }

    // Whether v is a vertex with a row, and with the symbol and the arity of s. Past the arity a row holds 0, which may be term 0, so the arity is compared
    // too.
    fn alike(&self, v: usize, s: usize, row: [u16; 4]) -> bool
        requires { (v < 511) × (s < 511) }
        ensures { IsTrue result ↔ Alike self.now s row v }
    {
        (self.symbols[v] == self.symbols[s])
            & (self.arities[v] == self.arities[s])
            & self.vertices[v]
            && self.rows[v] == row
    }

    // The vertex that equals the middle term of a row, which has the symbol and the arity of s.
    fn vertex_equal(&self, s: usize, row: [u16; 4]) -> Option<usize>
        requires { (s < 511) × Placing self.now s row }
        ensures { (p : Placing self.now s row) → result ≡ vertex_equal p.ts p.ls p.reached p.middle }
    {
        (0..self.terms).find(|&v| self.alike(v, s, row))
    }

    // The middle term's number. "If it is not a vertex it becomes one": a shared term more.
    fn place(&mut self, s: usize, row: [u16; 4]) -> usize
        requires { (s < 511) × Placing self.old s row }
        ensures { (p : Placing self.old s row) → Shows p.ts p.ls (placed p.ts p.ls p.reached p.middle).state self.new × (result ≡ (placed p.ts p.ls p.reached p.middle).number) }
    {
        if let Some(v) = self.vertex_equal(s, row) {
            return v;
        }
        let m = self.terms;
        self.symbols[m] = self.symbols[s];
        self.arities[m] = self.arities[s];
        self.rows[m] = row;
        self.colours[m] = SHARED;
        self.vertices[m] = true;
        self.terms = m + 1;
        m
    }

    // "each of s and t not yet joined to it gets a derived edge to it": one end's part.
    fn tie(&mut self, s: usize, m: usize, colour: Side)
        requires { (s < 511) × (m < 511) × ((get_or self.old.labels s 0 ≡ get_or self.old.labels m 0 → ⊥) → self.old.graph.count < 510) }
        ensures { (ts : List Term) (ls : List Literal) (reached : Reached) → Shows ts ls reached self.old → Shows ts ls (tied reached s m colour) self.new }
    {
        if self.labels[s] != self.labels[m] {
            self.join(s, m, colour, EdgeKind::Derived);
        }
    }

    // The step by a middle term, from s, which is A-colourable only, to t.
    fn middle_step(&mut self, s: usize, t: usize) -> Result<(), Stuck>
        requires { (run : OnRun self.old) × Apart run.ts run.ls run.reached s t }
        ensures { (run : OnRun self.old) → Apart run.ts run.ls run.reached s t → Outcome run.ts run.ls (middle_from run.ts run.ls run.reached s t) result self.new }
    {
        let forest = rooting::rooted(&self.graph, &self.labels);
        let row = self.chosen(&forest, s, t).ok_or(Stuck)?;
        let m = self.place(s, row);
        self.tie(s, m, Side::A);
        self.tie(t, m, Side::B);
        Ok(())
    }

    // The step by a middle term, from the end that is A-colourable.
    pub(crate) fn by_middle(&mut self, s: usize, t: usize) -> Result<(), Stuck>
        requires { (run : OnRun self.old) × T (derivable run.ts run.ls run.reached (pair s t)) × (colouring (get_or self.old.colours s 0) (get_or self.old.colours t 0) ≡ None) }
        ensures { (run : OnRun self.old) → T (derivable run.ts run.ls run.reached (pair s t)) → Outcome run.ts run.ls (derived_on run.ts run.ls run.reached (pair s t)) result self.new }
    {
        if in_a(self.colours[s]) {
            self.middle_step(s, t)
        } else {
            self.middle_step(t, s)
        }
    }
}
