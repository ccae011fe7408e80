// "the first pair (s below t, smallest s, then smallest t) among the given terms in use"

ghost use Rattle.std.specs.Prelude.{List, ◌≡◌, ◌+◌, ◌<◌, ◌≤◌, length, option_map};
ghost use Rattle.tables.specs.Words.{pair};
ghost use Rattle.tables.specs.Terms.{Term};
ghost use Rattle.tables.specs.declared.Literal.{Literal};
ghost use Rattle.closure.specs.Graph.{Graph};
ghost use Rattle.closure.specs.Steps.{State as Reached};
ghost use Rattle.closure.specs.OwnRun.{first_pair};
ghost use Rattle.graphs.specs.Layout.{labels_of};
ghost use Rattle.running.specs.Shown.{Shows};
ghost use Rattle.running.specs.Keys.{EndsOf, tested, NextFrom, Orderly, OneArity};

use super::congruence::congruent;
use super::state::State;
use tables::TERMS;

// A prime, so that few keys have one residue.
const RESIDUES: usize = 1021;

// Keys that are alike have one residue, so a search among them may stop behind the last term of its residue: one more than that term's number.
fn ends(keys: &[u64; TERMS], given: usize) -> [u16; RESIDUES]
    requires { given ≤ 256 }
    ensures { EndsOf keys.now given result }
{
    let mut all = [0; RESIDUES];
    for t in 0..given {
        all[keys[t] as usize % RESIDUES] = t as u16 + 1;
    }
    all
}

impl State {
    // Whether s and t make a pair. The key is a filter, so the rows are looked at for few of them.
    #[tactic(auto, unfolding(crate::specs::Keys::candidate))]
    fn pairs(&self, keys: &[u64; TERMS], s: usize, t: usize) -> bool
        requires { (s < 256) × (t < 256) × Orderly self.now }
        ensures { (G : Graph) → self.now.labels ≡ labels_of G → result ≡ tested keys.now self.now G s t }
    {
        keys[s] != 0
            && keys[s] == keys[t]
            && (self.symbols[s] == self.symbols[t]) & (self.labels[s] != self.labels[t])
            && congruent(self.rows, &self.labels, self.arities[s] as usize, s, t)
    }

    // The first term behind s that makes a pair with it.
    fn partner(
        &self,
        keys: &[u64; TERMS],
        ends: &[u16; RESIDUES],
        given: usize,
        s: usize,
    ) -> Option<usize>
        requires { (given ≤ 256) × (s < given) × EndsOf keys.now given ends.now × Orderly self.now }
        ensures { (G : Graph) → self.now.labels ≡ labels_of G → NextFrom (tested keys.now self.now G s) (s + 1) given result }
    {
        if keys[s] == 0 {
            return None;
        }
        let end = ends[keys[s] as usize % RESIDUES] as usize;
        (s + 1..end).find(|&t| self.pairs(keys, s, t))
    }

    // The keys do not change while a pair is looked for, so they are made once.
    pub(crate) fn first_pair(&self, given: usize) -> Option<(usize, usize)>
        requires { (given ≤ 256) × Orderly self.now }
        ensures { (ts : List Term) (ls : List Literal) (reached : Reached) → Shows ts ls reached self.now → given ≡ length ts → OneArity ts → option_map (λ p. pair p.0 p.1) result ≡ first_pair ts ls reached }
    {
        let keys = self.keys(given);
        let ends = ends(&keys, given);
        for s in 0..given {
            if let Some(t) = self.partner(&keys, &ends, given, s) {
                return Some((s, t));
            }
        }
        None
    }
}
