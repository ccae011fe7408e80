// "The library's own run".

ghost use Rattle.std.specs.Prelude.{not, ◌&&◌, get_or, List, ◌++◌, ◌≡◌, ◌<◌, ◌≤◌, ℕ, eqb, length, drop};
ghost use Rattle.tables.specs.Checks.{Sound, checked};
ghost use Rattle.tables.specs.TermTable.{terms_of};
ghost use Rattle.tables.specs.LiteralTable.{is_equal, literals_of};
ghost use Rattle.closure.specs.Steps.{begin as before_steps};
ghost use Rattle.closure.specs.OwnRun.{basic_steps, first_pair, derived_on, turns_at};
ghost use Rattle.running.specs.Shown.{Shows};
ghost use Rattle.running.specs.Opening.{ReadFrom, Blank, Opens};
ghost use Rattle.running.specs.Stepping.{OnRun, Outcome, Ends};

use super::state::{State, Stuck};
use super::step::edge_colour;
use closure::{EdgeKind, VERTICES};
use graphs::graph::Graph;
use graphs::labels;
use reading::literal;
use tables::{Kind, LITERAL_BYTES, Literal, Tables};

// What is given stands in front of an array. What stands behind it stays.
fn lay_front<T: Copy>(all: &mut [T], given: &[T])
    requires { length given.now ≤ length all.old }
    ensures { all.new ≡ given.now ++ drop (length given.now) all.old }
{
    all[..given.len()].copy_from_slice(given);
}

impl State {
    // The state of the given terms and no edge.
    fn lay(&mut self, tables: &Tables)
        requires { Blank self.old }
        ensures { (from : ReadFrom tables.now) → Opens from self.new }
    {
        self.terms = tables.terms;
        lay_front(&mut self.symbols, &tables.symbols);
        lay_front(&mut self.arities, &tables.arities);
        lay_front(&mut self.rows, &tables.rows);
        lay_front(&mut self.colours, &tables.colours);
        lay_front(&mut self.vertices, &tables.used);
    }

    // Whether a literal makes a basic step: it is an equality, and its sides are not joined.
    fn opens(&self, l: Literal) -> bool
        requires { (l.left < 511) × (l.right < 511) }
        ensures { result ≡ (is_equal l.kind && not (eqb (get_or self.now.labels l.left 0) (get_or self.now.labels l.right 0))) }
    {
        l.kind == Kind::Equal && self.labels[l.left as usize] != self.labels[l.right as usize]
    }

    // "all basic steps by record number, skipping joined sides": the records are lent as their bytes.
    fn basic_steps(&mut self, literals: &[u8])
        requires { (bs : List ℕ) × (checked bs literals.now ≡ Sound) × Shows (terms_of bs) (literals_of literals.now) before_steps self.old }
        ensures { (bs : List ℕ) → checked bs literals.now ≡ Sound → Shows (terms_of bs) (literals_of literals.now) before_steps self.old → Shows (terms_of bs) (literals_of literals.now) (basic_steps (literals_of literals.now) before_steps) self.new }
    {
        for i in 0..literals.len() / LITERAL_BYTES {
            let l = literal::literal_at(literals, i);
            if self.opens(l) {
                self.join(l.left as usize, l.right as usize, l.side, EdgeKind::Basic);
            }
        }
    }

    // "then, repeatedly, the derived step on the first pair .. until none is left": a run has fewer steps than there
    // are given terms, of which there are n.
    fn derived_steps(&mut self, n: usize) -> Result<(), Stuck>
        requires { (run : OnRun self.old) × (n ≡ length run.ts) }
        ensures { (run : OnRun self.old) → n ≡ length run.ts → Outcome run.ts run.ls (turns_at (first_pair run.ts run.ls) (derived_on run.ts run.ls) n run.reached) result self.new }
    {
        for _turn in 0..n {
            let Some((s, t)) = self.first_pair(n) else {
                return Ok(());
            };
            match edge_colour(self.colours[s], self.colours[t]) {
                Some(side) => self.join(s, t, side, EdgeKind::Derived),
                None => self.by_middle(s, t)?,
            }
        }
        Ok(())
    }
}

// The run from its first step, in the state of the given terms and no edge, to its last.
pub fn own_run(tables: &Tables, literals: &[u8]) -> Result<State, Stuck>
    requires { (from : ReadFrom tables.now) × (from.literals ≡ literals.now) }
    ensures { (from : ReadFrom tables.now) → from.literals ≡ literals.now → Ends (terms_of from.terms) (literals_of from.literals) result }
{
    let mut st = State {
        terms: 0,
        symbols: [0; VERTICES],
        arities: [0; VERTICES],
        rows: [[0; 4]; VERTICES],
        colours: [0; VERTICES],
        vertices: [false; VERTICES],
        graph: Graph::empty(),
        labels: labels::own_labels(),
    };
    st.lay(tables);
    st.basic_steps(literals);
    st.derived_steps(tables.terms)?;
    Ok(st)
}
