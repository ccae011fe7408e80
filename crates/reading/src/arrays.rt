// The tables as the layers above work on them.

ghost use Rattle.std.specs.Prelude.{◌≡◌};
ghost use Rattle.tables.specs.Checks.{Sound, checked};
ghost use Rattle.tables.specs.Read.{sound_tables};

use super::colouring::Arguments;
use super::{arguments, colouring, term_table};
use tables::{Side, TERM_BYTES, Tables};

// Tables that no row refuses, in arrays, with the terms in use and the colours.
#[tactic(auto, using(crate::proofs::Columns::few_terms, crate::proofs::Columns::sides_in_table))]
pub fn sound(terms: &[u8], literals: &[u8]) -> Tables
    requires { checked terms.now literals.now ≡ Sound }
    ensures { result ≡ sound_tables terms.now literals.now }
{
    let count = terms.len() / TERM_BYTES;
    let symbols = term_table::term_words(terms, 0);
    let arities = term_table::term_bytes(terms, 2);
    let rows = arguments::rows(terms);
    let arguments = Arguments {
        rows: &rows,
        arities: &arities,
    };
    let a = arguments.inside(literals, Side::A);
    let b = arguments.inside(literals, Side::B);
    let used = colouring::in_use(&a, &b, count);
    let in_a = colouring::occurring(&symbols, &a, count);
    let in_b = colouring::occurring(&symbols, &b, count);
    let colours = arguments.colours(&in_a, &in_b, count);
    Tables {
        terms: count,
        symbols,
        arities,
        rows,
        used,
        colours,
    }
}
