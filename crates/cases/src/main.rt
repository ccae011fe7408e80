// Runs the calls of data/cases.tab, one after the other, and prints what comes back: the answer, and the bytes written. The buffers are lent
// filled with a pattern; a buffer in which a byte should have stayed and did not is told.

#![tactic(auto)]

ghost use Rattle.std.specs.Prelude.{◌<◌, ◌≡◌, IfSome, length};

use demands::Answer;
use std::array;
use std::fmt::{self, Display, Write};
use std::fs::File;
use std::io::Stdout;

// The bytes of a case's name.
const NAME: usize = 22;

// A case is a head and then two tables. The head is the name and five numbers of two bytes: how long the tables are, and how long the buffers.
const HEAD: usize = NAME + 5 * 2;

// The bytes of a term.
const TERM: usize = 16;

// The most bytes of terms that a case has: those of one term more than a call takes, so that the engine sees a table that is too long.
const TERMS: usize = 257 * TERM;

// The most bytes of literals, likewise: a call takes 1,024 of 8 bytes.
const LITERALS: usize = 1025 * 8;

// The most that a case lends for the partition, as tests/make_cases.py has it: a class number of 2 bytes for each term.
const PARTITION: usize = 256 * 2;

// The same for added terms: a call adds 255 at most.
const ADDED: usize = 255 * TERM;

// The same for clauses: 6,144 records of 8 bytes.
const CLAUSES: usize = 6144 * 8;

// The hex digits.
const DIGITS: [u8; 16] = *b"0123456789abcdef";

// How many cases are run at most: the loop over them has to end also in a run whose data never end.
const CASES: usize = 65536;

// A buffer of a call.
#[derive(Clone, Copy)]
enum Lent {
    Partition,
    Added,
    Clauses,
}

impl Lent {
    fn name(self) -> &'static str {
        match self {
            Lent::Partition => "partition",
            Lent::Added => "added",
            Lent::Clauses => "clauses",
        }
    }

    // The bytes of one of its records.
    fn each(self) -> usize
        ensures { 0 < result }
    {
        match self {
            Lent::Partition => 2,
            Lent::Added => TERM,
            Lent::Clauses => 8,
        }
    }

    // What it is filled with before the call.
    fn pattern(self) -> u8 {
        match self {
            Lent::Partition => 0xaa,
            Lent::Added => 0xbb,
            Lent::Clauses => 0xcc,
        }
    }
}

// Standard output, and whether all that was printed there is written whole.
#[derive(Drop)]
struct Output {
    to: Stdout,
    whole: bool,
}

impl Output {
    // Writes bytes. The flag is cleared where they are not written whole, and main then says so; what follows is tried all the same.
    fn put(&mut self, bytes: &[u8]) {
        if files::put(&mut self.to, bytes) < bytes.len() {
            self.whole = false;
        }
    }

    // Prints a text.
    fn print<D: Display + Drop>(&mut self, text: D) {
        let _ = write!(self, "{text}");
    }

    // Prints a byte as two hex digits, in one piece: a format would write a leading zero apart.
    fn hex(&mut self, byte: u8) {
        let high = DIGITS[usize::from(byte >> 4)];
        let low = DIGITS[usize::from(byte & 15)];
        self.put(&[high, low]);
    }

    // Prints the bytes of as many records as a count asks for, in hex; then tells the buffer's name if a byte behind them is no longer the pattern.
    // A byte's record is found by a division, so that no product needs a bound.
    fn bytes_of(&mut self, lent: Lent, bytes: &[u8], count: usize) {
        for (i, &byte) in bytes.iter().enumerate() {
            if i / lent.each() < count {
                self.hex(byte);
            } else if byte != lent.pattern() {
                self.print(" changed ");
                self.print(lent.name());
                return;
            }
        }
    }

    // A buffer that the answer fills: a dash stands for no records.
    fn written(&mut self, lent: Lent, bytes: &[u8], count: usize) {
        if count == 0 {
            self.print("-");
        }
        self.bytes_of(lent, bytes, count);
    }

    // A buffer that should have stayed.
    fn kept(&mut self, lent: Lent, bytes: &[u8]) {
        self.bytes_of(lent, bytes, 0);
    }
}

impl Write for Output {
    // No error: the flag says where a text is not written whole.
    fn write_str(&mut self, text: &str) -> fmt::Result {
        self.put(text.as_bytes());
        Ok(())
    }
}

// Prints the answer and what was written.
fn show(
    out: &mut Output,
    answer: Answer,
    terms: usize,
    partition: &[u8],
    added: &[u8],
    clauses: &[u8],
) {
    match answer {
        Answer::Consistent => {
            out.print(" consistent partition=");
            out.written(Lent::Partition, partition, terms);
            out.kept(Lent::Added, added);
            out.kept(Lent::Clauses, clauses);
        }
        Answer::Inconsistent {
            disequality,
            added: count,
            records,
        } => {
            out.print(format_args!(" inconsistent by {disequality} added="));
            out.written(Lent::Added, added, count);
            out.print(" clauses=");
            out.written(Lent::Clauses, clauses, records);
            out.kept(Lent::Partition, partition);
        }
        Answer::Refused { number, place } => {
            out.print(format_args!(" refused {number} at {place}"));
            out.kept(Lent::Partition, partition);
            out.kept(Lent::Added, added);
            out.kept(Lent::Clauses, clauses);
        }
    }
    out.print("\n");
}

// One call, with as much of each buffer as the case lends, and what came back.
fn call(out: &mut Output, terms: &[u8], literals: &[u8], p: usize, a: usize, c: usize) {
    let mut partition = [Lent::Partition.pattern(); PARTITION];
    let mut added = [Lent::Added.pattern(); ADDED];
    let mut clauses = [Lent::Clauses.pattern(); CLAUSES];
    if p > PARTITION || a > ADDED || c > CLAUSES {
        return;
    }
    let partition = &mut partition[..p];
    let added = &mut added[..a];
    let clauses = &mut clauses[..c];
    let answer = engine::split(terms, literals, partition, added, clauses);
    show(out, answer, terms.len() / TERM, partition, added, clauses);
}

// A table's bytes, as many as its case says; nothing where they do not fit it or cannot be read.
fn load<'a>(file: &mut File, table: &'a mut [u8], count: usize) -> Option<&'a [u8]>
    ensures { IfSome result (λ bytes. length bytes.now ≡ count) }
{
    let bytes = table.get_mut(..count)?;
    if files::fill(file, bytes)? < count {
        return None;
    }
    Some(bytes)
}

// The numbers of a case's head.
fn numbers(head: &[u8; HEAD]) -> [usize; 5] {
    array::from_fn(|k| {
        let at = NAME + 2 * k;
        usize::from(u16::from_le_bytes([head[at], head[at + 1]]))
    })
}

// What the data hold at a place.
#[derive(Clone, Copy, Debug, PartialEq, Eq)]
enum Data {
    Case,
    End,
}

// One case: its tables are read behind its head, and the call is run. Nothing stands for less than a case, or bytes that could not be read.
fn run_case(out: &mut Output, file: &mut File) -> Option<Data> {
    let mut head = [0u8; HEAD];
    let count = files::fill(file, &mut head)?;
    if count == 0 {
        return Some(Data::End);
    }
    if count < HEAD {
        return None;
    }
    let name = &head[..NAME];
    let [n, m, p, a, c] = numbers(&head);
    let mut terms = [0u8; TERMS];
    let mut literals = [0u8; LITERALS];
    let terms = load(file, &mut terms, n)?;
    let literals = load(file, &mut literals, m)?;
    out.put(name);
    call(out, terms, literals, p, a, c);
    Some(Data::Case)
}

// Case after case, and whether the data's end was reached.
fn run_cases(out: &mut Output, file: &mut File) -> bool {
    for _ in 0..CASES {
        match run_case(out, file) {
            Some(Data::Case) => {}
            Some(Data::End) => return true,
            None => return false,
        }
    }
    false
}

fn main(rt: HostRuntime) {
    let mut out = Output {
        to: rt.stdout(),
        whole: true,
    };
    match File::open(&rt, "cases.tab") {
        Err(_) => out.print("no file cases.tab\n"),
        Ok(mut file) => {
            if run_cases(&mut out, &mut file) {
                out.print("end\n");
            } else {
                out.print("cases.tab was not read to its end\n");
            }
        }
    }
    if !out.whole {
        files::put(
            &mut rt.stderr(),
            b"cases: the output was not written whole\n",
        );
    }
}
