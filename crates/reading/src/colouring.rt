// Terms in use and colours: which terms stand in the literals, and whose symbols all occur on a side.

ghost use Rattle.std.specs.Prelude.{false, cond, not, ◌||◌, List, ◌≡◌, ◌+◌, ◌≤◌, ◌<◌, length, get_or};
ghost use Rattle.tables.specs.Tests.{some_below};
ghost use Rattle.tables.specs.Terms.{Term};
ghost use Rattle.tables.specs.LiteralTable.{literal_count, same_side};
ghost use Rattle.reading.specs.Marks.{LowerRows, Markable, Describes, MarkedToo, LiteralsWithin, Inside, same_symbol_inside, marked_and_missing, parts_colour};
ghost use Rattle.tables.specs.Read.{filled};

use super::{filling, literal};
use tables::{LITERAL_BYTES, Literal, Side, TERMS};

// Whether a literal is one of a side.
fn is_of(l: Literal, side: Side) -> bool
    ensures { result ≡ same_side l.side side }
{
    l.side == side
}

// The arguments of all terms, as marking and colouring go down them. "Every argument is lower than the record's own number", so a
// descent ends.
#[derive(Clone, Copy)]
pub struct Arguments<'a> {
    pub rows: &'a [[u16; 4]; TERMS],
    pub arities: &'a [u8; TERMS],
    ghost lower: { LowerRows rows.now arities.now },
}

impl Arguments<'_> {
    // Marks the term t and, all the way down, its arguments; what is marked is not descended into again.
    fn mark(&self, marks: &mut [bool; TERMS], t: usize)
        requires { Markable self.now.rows.now self.now.arities.now marks.old t }
        ensures { MarkedToo self.now.rows.now self.now.arities.now t marks.old marks.new }
    {
        if marks[t] {
            return;
        }
        for j in 0..self.arities[t] as usize {
            self.mark(marks, self.rows[t][j] as usize);
        }
        marks[t] = true;
    }

    // Which terms stand in the literals of a side: the sides of these literals and, all the way down, their arguments.
    #[tactic(auto, using(crate::proofs::Sides::sides_small))]
    pub fn inside(&self, literals: &[u8], side: Side) -> [bool; TERMS]
        requires { LiteralsWithin literals.now }
        ensures { Inside self.now.rows.now self.now.arities.now literals.now side (literal_count literals.now) result }
    {
        let mut marks = [false; TERMS];
        for k in 0..literals.len() / LITERAL_BYTES {
            let l = literal::literal_at(literals, k);
            if is_of(l, side) {
                self.mark(&mut marks, l.left as usize);
                self.mark(&mut marks, l.right as usize);
            }
        }
        marks
    }

    // The colours of term t as one number: 1 where each of its symbols occurs in A, and 2 more where each occurs in B.
    fn colour(&self, in_a: &[bool; TERMS], in_b: &[bool; TERMS], t: usize) -> u8
        requires { t < 256 }
        ensures { (ts : List Term) → Describes self.now.rows.now self.now.arities.now ts → t < length ts → length ts ≤ 256 → result ≡ parts_colour in_a.now in_b.now ts t }
    {
        let mut parts = [false; TERMS];
        self.mark(&mut parts, t);
        parts_colour(&parts, in_a, in_b, t + 1)
    }

    // For each term, its colours.
    pub fn colours(&self, in_a: &[bool; TERMS], in_b: &[bool; TERMS], terms: usize) -> [u8; TERMS]
        requires { terms ≤ 256 }
        ensures { (ts : List Term) → Describes self.now.rows.now self.now.arities.now ts → length ts ≡ terms → result ≡ filled 256 0 terms (parts_colour in_a.now in_b.now ts) }
    {
        filling::filled(terms, 0, |t| self.colour(in_a, in_b, t))
    }
}

// Whether the symbol of term t is the symbol of a term that is inside. A loop without an early end, so that the machine compares
// many at a time.
fn occurs(symbols: &[u16; TERMS], inside: &[bool; TERMS], terms: usize, t: usize) -> bool
    requires { (terms ≤ 256) × (t < 256) }
    ensures { result ≡ some_below (same_symbol_inside symbols.now inside.now t) terms }
{
    let symbol = symbols[t];
    let mut found = false;
    for u in 0..terms {
        found |= inside[u] & (symbols[u] == symbol);
    }
    found
}

// For each term, whether its symbol occurs.
pub fn occurring(symbols: &[u16; TERMS], inside: &[bool; TERMS], terms: usize) -> [bool; TERMS]
    requires { terms ≤ 256 }
    ensures { result ≡ filled 256 false terms (λ t. some_below (same_symbol_inside symbols.now inside.now t) terms) }
{
    filling::filled(terms, false, |t| occurs(symbols, inside, terms, t))
}

// Two colours as one number.
fn colour_number(a: bool, b: bool) -> u8
    ensures { result ≡ cond a 1 0 + cond b 2 0 }
{
    u8::from(a) + 2 * u8::from(b)
}

// The colours of a term, as one number, from the marks of its parts, which are all below n: no part lacks an occurring symbol.
// A loop without an early end, as in `occurs`.
fn parts_colour(parts: &[bool; TERMS], in_a: &[bool; TERMS], in_b: &[bool; TERMS], n: usize) -> u8
    requires { n ≤ 256 }
    ensures { result ≡ cond (not (some_below (marked_and_missing parts.now in_a.now) n)) 1 0 + cond (not (some_below (marked_and_missing parts.now in_b.now) n)) 2 0 }
{
    let mut not_a = false;
    let mut not_b = false;
    for u in 0..n {
        not_a |= parts[u] & !in_a[u];
        not_b |= parts[u] & !in_b[u];
    }
    colour_number(!not_a, !not_b)
}

// For each term, whether it is in use: it stands in a literal of A or in one of B.
pub fn in_use(a: &[bool; TERMS], b: &[bool; TERMS], terms: usize) -> [bool; TERMS]
    ensures { result ≡ filled 256 false terms (λ t. get_or a.now t false || get_or b.now t false) }
{
    filling::filled(terms, false, |t| a[t] || b[t])
}
