// The lines of the added terms: a line for each, with its number, its symbol and its arguments.

ghost use mathlib.Core.List.{flat_map};
ghost use Rattle.std.specs.Prelude.{◌≤◌, ◌<◌};
ghost use Rattle.tables.specs.Words.{below};
ghost use Rattle.report.specs.Writer.{Writes};
ghost use Rattle.report.specs.Text.{argument_text, added_line};

use super::fields;
use super::writer::Writer;

// The size of an added term's record.
const RECORD: usize = 16;

// A record has room for so many arguments.
const ARGUMENTS: usize = 4;

// Writes argument j of added term i, behind a blank.
fn argument(out: &mut Writer<'_>, added: &[u8], i: usize, j: usize)
    requires { (i < 255) × (j < 4) }
    ensures { Writes out.old out.new (argument_text added.now i j) }
{
    out.put(b' ');
    out.number(fields::word(added, RECORD * i + 4 + 2 * j));
}

// Writes the first arguments of added term i.
fn arguments(out: &mut Writer<'_>, added: &[u8], i: usize, count: usize)
    requires { (i < 255) × (count ≤ 4) }
    ensures { Writes out.old out.new (flat_map (argument_text added.now i) (below count)) }
{
    for j in 0..count {
        argument(out, added, i, j);
    }
}

// Writes the line of added term i, which stands behind the given terms.
fn added_line(out: &mut Writer<'_>, given: usize, added: &[u8], i: usize)
    requires { (given ≤ 256) × (i < 255) }
    ensures { Writes out.old out.new (added_line given added.now i) }
{
    let symbol = fields::word(added, RECORD * i);
    let arity = usize::from(fields::byte(added, RECORD * i + 2));
    out.text(b"add ");
    out.number(given + i);
    out.put(b' ');
    out.number(symbol);
    arguments(out, added, i, arity.min(ARGUMENTS));
    out.put(b'\n');
}

// Writes the lines of the added terms.
pub fn added_lines(out: &mut Writer<'_>, given: usize, added: &[u8], count: usize)
    requires { (given ≤ 256) × (count ≤ 255) }
    ensures { Writes out.old out.new (flat_map (added_line given added.now) (below count)) }
{
    for i in 0..count {
        added_line(out, given, added, i);
    }
}
