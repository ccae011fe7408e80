// What a run's last state says: the critical disequality, or none.

ghost use Rattle.std.specs.Prelude.{◌≡◌, ◌<◌};
ghost use Rattle.tables.specs.Words.{first_below};
ghost use Rattle.tables.specs.LiteralTable.{literal_count};
ghost use Rattle.engine.specs.Ending.{SidesLabelled, met_by};

use closure::VERTICES;
use reading::literal;
use tables::{Kind, LITERAL_BYTES};

// Whether literal record i is a disequality whose sides are joined: they have one label.
fn met(literals: &[u8], labels: &[u16; VERTICES], i: usize) -> bool
    requires { (i < literal_count literals.now) × SidesLabelled literals.now }
    ensures { result ≡ met_by literals.now labels.now i }
{
    let l = literal::literal_at(literals, i);
    l.kind == Kind::Different && labels[l.left as usize] == labels[l.right as usize]
}

// "the lowest record of kind 2 whose sides are joined when no step is left".
pub fn critical(literals: &[u8], labels: &[u16; VERTICES]) -> Option<usize>
    requires { SidesLabelled literals.now }
    ensures { result ≡ first_below (met_by literals.now labels.now) (literal_count literals.now) }
{
    (0..literals.len() / LITERAL_BYTES).find(|&i| met(literals, labels, i))
}
