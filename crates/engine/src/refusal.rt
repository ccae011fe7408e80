// Why a call is refused: the rows of "What comes back".

ghost use Rattle.std.specs.Prelude.{◌≡◌};
ghost use Rattle.engine.specs.Refusals.{buffer_place, refused_as};
ghost use Rattle.engine.specs.declared.refusal.Refusal.TheVariants.{Table, Stuck as NoSharedTerm};

use demands::Answer;
use running::state::Stuck;

// The lent buffers, in the order of their places in row 7.
#[derive(Clone, Copy, Debug, PartialEq, Eq)]
pub enum Buffer {
    Partition,
    Added,
    Clauses,
}

impl Buffer {
    // "0 partition, 1 added terms, 2 clauses"
    fn place(self) -> usize
        ensures { result ≡ buffer_place self }
    {
        match self {
            Buffer::Partition => 0,
            Buffer::Added => 1,
            Buffer::Clauses => 2,
        }
    }
}

// A row of the checks, a buffer that is too short for the answer, or a run that is stuck.
#[derive(Clone, Copy, Debug, PartialEq, Eq)]
pub enum Refusal {
    Table(tables::Refusal),
    Short(Buffer),
    Stuck,
}

impl From<tables::Refusal> for Refusal {
    ghost from_gives = { λ row refusal. refusal ≡ Table row };

    fn from(row: tables::Refusal) -> Refusal {
        Refusal::Table(row)
    }
}

impl From<Stuck> for Refusal {
    ghost from_gives = { λ stuck refusal. refusal ≡ NoSharedTerm };

    fn from(_stuck: Stuck) -> Refusal {
        Refusal::Stuck
    }
}

// The number and the place that document 01 gives for it.
impl From<Refusal> for Answer {
    ghost from_gives = { λ refusal answer. answer ≡ refused_as refusal };

    fn from(refusal: Refusal) -> Answer {
        match refusal {
            Refusal::Table(row) => Answer::from(row),
            Refusal::Short(buffer) => Answer::Refused {
                number: 7,
                place: buffer.place(),
            },
            Refusal::Stuck => Answer::Refused {
                number: 8,
                place: 0,
            },
        }
    }
}
