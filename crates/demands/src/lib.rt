// What a call returns, and the demands on it: definitions and theorems (specs/ and proofs/) over the two types of an answer. The call itself is in the crate `engine`.

#![tactic(auto)]

ghost use Rattle.std.specs.Prelude.{◌≡◌};
ghost use Rattle.tables.specs.Checks.{number_of, place_in};
ghost use Rattle.demands.specs.Answers.{numbers_of};
ghost use Rattle.demands.specs.declared.Answer.TheVariants.{Refused};

use tables::Refusal;

// What comes back beside the lent buffers. A refusal is a number and a place here, and no enum: demand 1 speaks of every number and place, and `report`
// prints any.
#[derive(Clone, Copy, Debug, PartialEq, Eq)]
pub enum Answer {
    Consistent,
    Inconsistent {
        disequality: usize,
        added: usize,
        records: usize,
    },
    Refused {
        number: usize,
        place: usize,
    },
}

// "A refusal returns its number and place".
impl From<Refusal> for Answer {
    ghost from_gives = { λ row answer. answer ≡ Refused (number_of row) (place_in row) };

    #[tactic(auto, unfolding(tables::specs::Checks::number_of, tables::specs::Checks::place_in))]
    fn from(row: Refusal) -> Answer {
        match row {
            Refusal::Length(place) => Answer::Refused { number: 1, place },
            Refusal::Count(place) => Answer::Refused { number: 2, place },
            Refusal::Layout(place) => Answer::Refused { number: 3, place },
            Refusal::Arity(place) => Answer::Refused { number: 4, place },
            Refusal::Repeated(place) => Answer::Refused { number: 5, place },
            Refusal::Literal(place) => Answer::Refused { number: 6, place },
        }
    }
}

// The answer for C, which knows no enum: the verdict (0 consistent, 1 inconsistent, 2 refused), and the numbers of document 01; those of the
// other verdicts are 0.
#[repr(C)]
#[derive(Clone, Copy, Debug, PartialEq, Eq)]
pub struct Numbers {
    pub verdict: usize,
    pub number: usize,
    pub place: usize,
    pub disequality: usize,
    pub added: usize,
    pub records: usize,
}

// "a term not in use gets 65535" for its class, which is no term's number.
pub const IDLE: usize = 65535;

// An answer as document 01's numbers.
impl From<Answer> for Numbers {
    ghost from_gives = { λ answer numbers. numbers ≡ numbers_of answer };

    fn from(answer: Answer) -> Numbers {
        let none = Numbers {
            verdict: 0,
            number: 0,
            place: 0,
            disequality: 0,
            added: 0,
            records: 0,
        };
        match answer {
            Answer::Consistent => none,
            Answer::Inconsistent {
                disequality,
                added,
                records,
            } => Numbers {
                verdict: 1,
                disequality,
                added,
                records,
                ..none
            },
            Answer::Refused { number, place } => Numbers {
                verdict: 2,
                number,
                place,
                ..none
            },
        }
    }
}
