// The two tables of document 01, read: any bytes in; the refusals 1 to 6 with their place, or the tables as arrays.

#![tactic(auto)]

pub mod arguments;
mod arrays;
mod bytes;
pub mod checks;
mod colouring;
mod earlier;
mod filling;
pub mod literal;
mod literal_table;
mod term_table;

ghost use Rattle.std.specs.Prelude.{◌≡◌};
ghost use Rattle.tables.specs.Read.{tables_read};

use tables::{Refusal, Tables};

// Any two byte strings, read: the row that refuses them with its place, or the tables as arrays.
#[tactic(auto, using(tables::proofs::Sound::sound_read, tables::proofs::Sound::refused_read))]
pub fn read(terms: &[u8], literals: &[u8]) -> Result<Tables, Refusal>
    ensures { result ≡ tables_read terms.now literals.now }
{
    checks::check(terms, literals)?;
    Ok(arrays::sound(terms, literals))
}
