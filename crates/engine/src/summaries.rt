// The clause records of the critical disequality, off the run's last state.

ghost use Rattle.std.specs.Prelude.{◌≡◌};
ghost use Rattle.tables.specs.declared.Tables.{Tables as Read};
ghost use Rattle.engine.specs.Ending.{Decides, records_for, Written};

use super::forest;
use reading::literal;
use running::state::State;
use summing::summary;

// Counts the records, and writes them where all of them have room.
pub fn clause_records(end: &State, d: usize, literals: &[u8], out: &mut [u8]) -> usize
    requires { (t : Read) × (w : Decides t end.now d) × (w.ends.from.literals ≡ literals.now) }
    ensures { (t : Read) (w : Decides t end.now d) → w.ends.from.literals ≡ literals.now → Written (records_for w) out.old result out.new }
{
    let drawing = forest::drawn(end);
    let l = literal::literal_at(literals, d);
    summary::write(
        &drawing,
        end.terms as u16,
        &end.colours,
        l.side,
        l.left,
        l.right,
        out,
    )
}
