// Rows 1 to 6 of "What comes back": which row refuses the two tables, and where.

ghost use Rattle.std.specs.Prelude.{◌≡◌, ◌≤◌};
ghost use Rattle.tables.specs.TermTable.{term_count};
ghost use Rattle.tables.specs.Checks.{place_of, length_row, count_row, layout_row, arity_row, repeated_row, literal_row, Sound, refuse, checked};
ghost use Rattle.tables.specs.declared.Refusal.TheVariants.{Layout, Arity, Repeated, Literal};

use super::{earlier, literal_table, term_table};
use tables::{LITERAL_BYTES, LITERALS, Refusal, TERM_BYTES, TERMS};

// "the lower place first": 0 for the terms, 1 for the literals.
#[tactic(auto, unfolding(tables::specs::Checks::place_of))]
fn place(terms: bool, literals: bool) -> Option<usize>
    ensures { result ≡ place_of terms literals }
{
    if terms {
        Some(0)
    } else if literals {
        Some(1)
    } else {
        None
    }
}

// Row 1's place: "length not a multiple of 16 (terms) or 8 (literals)".
#[tactic(auto, unfolding(tables::specs::Checks::length_row))]
fn length_row(terms: &[u8], literals: &[u8]) -> Option<usize>
    ensures { result ≡ length_row terms.now literals.now }
{
    place(
        terms.len() % TERM_BYTES != 0,
        literals.len() % LITERAL_BYTES != 0,
    )
}

// Row 2's place: "over 256 terms or 1,024 literals".
#[tactic(auto, unfolding(tables::specs::Checks::count_row))]
fn count_row(terms: &[u8], literals: &[u8]) -> Option<usize>
    ensures { result ≡ count_row terms.now literals.now }
{
    place(
        terms.len() / TERM_BYTES > TERMS,
        literals.len() / LITERAL_BYTES > LITERALS,
    )
}

// Row 6, once the rows of the terms refuse nothing.
#[tactic(auto, using(tables::proofs::Rows::refuse_at, tables::proofs::Rows::refuse_next, tables::proofs::Rows::count_none), unfolding(tables::specs::Checks::literal_row))]
fn check_literals(terms: &[u8], literals: &[u8]) -> Result<(), Refusal>
    ensures { result ≡ refuse Literal (literal_row terms.now literals.now) Sound }
{
    if let Some(place) = literal_table::literal_row(terms.len() / TERM_BYTES, literals) {
        return Err(Refusal::Literal(place));
    }
    Ok(())
}

// Rows 3 to 5, and the row after them, once the sizes refuse nothing.
#[tactic(auto, using(tables::proofs::Rows::refuse_at, tables::proofs::Rows::refuse_next, tables::proofs::Rows::count_none), unfolding(tables::specs::Checks::refuse))]
fn check_terms(terms: &[u8], literals: &[u8]) -> Result<(), Refusal>
    requires { term_count terms.now ≤ 256 }
    ensures { result ≡ refuse Layout (layout_row terms.now) (refuse Arity (arity_row terms.now) (refuse Repeated (repeated_row terms.now) (refuse Literal (literal_row terms.now literals.now) Sound))) }
{
    if let Some(place) = term_table::layout_row(terms) {
        return Err(Refusal::Layout(place));
    }
    if let Some(place) = earlier::arity_row(terms) {
        return Err(Refusal::Arity(place));
    }
    if let Some(place) = earlier::repeated_row(terms) {
        return Err(Refusal::Repeated(place));
    }
    check_literals(terms, literals)
}

// Rows 1 to 6: "Checks run in the order of the rows, each over its whole table before the next".
#[tactic(auto, using(tables::proofs::Rows::refuse_at, tables::proofs::Rows::refuse_next, tables::proofs::Rows::count_none), unfolding(tables::specs::Checks::checked))]
pub fn check(terms: &[u8], literals: &[u8]) -> Result<(), Refusal>
    ensures { result ≡ checked terms.now literals.now }
{
    if let Some(place) = length_row(terms, literals) {
        return Err(Refusal::Length(place));
    }
    if let Some(place) = count_row(terms, literals) {
        return Err(Refusal::Count(place));
    }
    check_terms(terms, literals)
}
