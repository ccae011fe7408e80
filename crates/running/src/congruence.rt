// "s and t have one symbol, and their arguments are joined pair by pair."

ghost use Rattle.std.specs.Prelude.{false, cond, ◌≡◌, ◌+◌, ◌<◌, ◌≤◌, get_or, take, []};
ghost use Rattle.closure.specs.Graph.{Graph, joined_pairwise};
ghost use Rattle.graphs.specs.Layout.{labels_of};
ghost use Rattle.running.specs.Keys.{field_label, RowsWithin, key_of, keys_of};

use super::state::State;
use closure::VERTICES;
use tables::TERMS;

// The digits of a key: a symbol is below the first number, and a label below the second.
const SYMBOLS: u64 = 65536;

const LABELS: u64 = 512;

// The arguments of a pair of terms of one symbol: the array of rows is passed by value, as document 01 names the form.
pub fn congruent(
    rows: [[u16; 4]; VERTICES],
    labels: &[u16; VERTICES],
    arity: usize,
    s: usize,
    t: usize,
) -> bool
    requires { (s < 511) × (t < 511) × (arity ≤ 4) × RowsWithin rows }
    ensures { (G : Graph) → labels.now ≡ labels_of G → result ≡ joined_pairwise G (take arity (get_or rows s [])) (take arity (get_or rows t [])) }
{
    (0..arity).all(|j| labels[rows[s][j] as usize] == labels[rows[t][j] as usize])
}

impl State {
    // The label of the argument in field j of a term's row.
    fn field_label(&self, v: usize, j: usize) -> u16
        requires { (v < 511) × (j < 4) × RowsWithin self.now.rows }
        ensures { result ≡ field_label self.now.labels (get_or self.now.rows v []) j }
    {
        self.labels[self.rows[v][j] as usize]
    }

    // A number that congruent terms have in common, so that most pairs are settled by one comparison; 0, which is no key, for a term that is no vertex.
    #[tactic(auto, unfolding(crate::specs::Keys::key_of))]
    fn key(&self, t: usize) -> u64
        requires { (t < 511) × RowsWithin self.now.rows }
        ensures { result ≡ cond (get_or self.now.vertices t false) (key_of self.now.labels (get_or self.now.symbols t 0) (get_or self.now.rows t []) + 1) 0 }
    {
        if !self.vertices[t] {
            return 0;
        }
        let first = self.field_label(t, 0) as u64;
        let second = self.field_label(t, 1) as u64;
        let third = self.field_label(t, 2) as u64;
        let fourth = self.field_label(t, 3) as u64;
        let arguments = first + LABELS * (second + LABELS * (third + LABELS * fourth));
        self.symbols[t] as u64 + SYMBOLS * arguments + 1
    }

    // The keys of the given terms.
    pub(crate) fn keys(&self, given: usize) -> [u64; TERMS]
        requires { (given ≤ 256) × RowsWithin self.now.rows }
        ensures { result ≡ keys_of given self.now }
    {
        let mut keys = [0; TERMS];
        for t in 0..given {
            keys[t] = self.key(t);
        }
        keys
    }
}
