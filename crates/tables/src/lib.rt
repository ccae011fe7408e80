// The two tables of document 01: what its definitions and theorems (specs/ and proofs/) say of their bytes, and the types that hold them.

#![tactic(auto)]

// "Term record, 16 bytes".
pub const TERM_BYTES: usize = 16;

// "Literal record, 8 bytes".
pub const LITERAL_BYTES: usize = 8;

// "over 256 terms or 1,024 literals": so many terms a table may have.
pub const TERMS: usize = 256;

// And so many literals.
pub const LITERALS: usize = 1024;

// A literal is marked A or B, and so is an edge of the graph.
#[derive(Clone, Copy, Debug, PartialEq, Eq)]
pub enum Side {
    A,
    B,
}

// "kind (1 equal, 2 different)"
#[derive(Clone, Copy, Debug, PartialEq, Eq)]
pub enum Kind {
    Equal,
    Different,
}

// A literal: its sides are term numbers.
#[derive(Clone, Copy, Debug, PartialEq, Eq)]
pub struct Literal {
    pub side: Side,
    pub kind: Kind,
    pub left: u16,
    pub right: u16,
}

// The row of the checks 1 to 6 that refuses the tables, with its place.
#[derive(Clone, Copy, Debug, PartialEq, Eq)]
pub enum Refusal {
    Length(usize),
    Count(usize),
    Layout(usize),
    Arity(usize),
    Repeated(usize),
    Literal(usize),
}

// The tables that no row refuses, as they were read. Past the count the arrays hold 0. The literals stay in their bytes, where each
// layer reads them. The columns stay columns, no records of a term: functions are lent one column alone, loops without an early end
// run over one, so that the machine compares many entries at a time, and `sound_tables` promises each. Colours are one number, as `sound_tables` has
// them (`colour_number`).
#[derive(Clone, Copy, Debug, PartialEq, Eq)]
pub struct Tables {
    pub terms: usize,
    pub symbols: [u16; TERMS],
    pub arities: [u8; TERMS],
    pub rows: [[u16; 4]; TERMS],
    pub used: [bool; TERMS],
    pub colours: [u8; TERMS],
}
