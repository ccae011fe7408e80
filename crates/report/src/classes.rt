// The lines of a consistent answer: a line for each given term, with its class.

ghost use mathlib.Core.List.{flat_map};
ghost use Rattle.std.specs.Prelude.{◌≤◌, ◌<◌};
ghost use Rattle.tables.specs.Words.{below};
ghost use Rattle.report.specs.Writer.{Writes};
ghost use Rattle.report.specs.Text.{class_of, term_line};

use super::fields;
use super::writer::Writer;
use demands::IDLE;

// Writes the end of a term's line: its class, or that it is in none.
fn class_of(out: &mut Writer<'_>, class: usize)
    ensures { Writes out.old out.new (class_of class) }
{
    if class == IDLE {
        out.text(b" idle\n");
    } else {
        out.text(b" class ");
        out.number(class);
        out.put(b'\n');
    }
}

// Writes the line of given term i.
fn term_line(out: &mut Writer<'_>, partition: &[u8], i: usize)
    requires { i < 256 }
    ensures { Writes out.old out.new (term_line partition.now i) }
{
    out.text(b"term ");
    out.number(i);
    class_of(out, fields::word(partition, 2 * i));
}

// Writes the lines of all given terms.
pub fn term_lines(out: &mut Writer<'_>, partition: &[u8], given: usize)
    requires { given ≤ 256 }
    ensures { Writes out.old out.new (flat_map (term_line partition.now) (below given)) }
{
    for i in 0..given {
        term_line(out, partition, i);
    }
}
