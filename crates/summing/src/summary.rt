// The summary of a disequality: all its clauses as records.

ghost use Rattle.std.specs.Prelude.{List, ℕ, ◌*◌, ◌≤◌, length};
ghost use Rattle.summing.specs.Written.{Blank, AskingSome, Concluded, ConcludedSome, Summarised};

use super::clause::Conclusions;
use super::readings::{conclude, records_out};
use super::stretches::Cut;
use super::writing::RECORD;
use closure::VERTICES;
use marking::drawing::Drawing;
use marking::marks::ROW;
use tables::Side;

// A small buffer, in which the records are counted, keeps the first 256 of them.
const SMALL: usize = 256 * RECORD;

// Up to 16 vertices, and up to 128: a small graph is lent small squares of marks, so that few marks have to be cleared.
const FEW: u16 = 16;

const MORE: u16 = 128;

// A square has a row of marks for each vertex.
const FEW_MARKS: usize = 16 * ROW;

const MORE_MARKS: usize = 128 * ROW;

const ALL_MARKS: usize = VERTICES * ROW;

// Records that were written in a small buffer are copied, where all had room there; more are written again. So most summaries are read once.
fn write_records(
    drawn: &Drawing,
    vertices: u16,
    side: Side,
    cut: &Cut<'_>,
    conclusions: &Conclusions<'_>,
    found: &mut [bool],
    out: &mut [u8],
) -> usize
    requires concluded_some { ConcludedSome drawn.now vertices side cut.now conclusions.now }
    requires vertices_bound { (vertices ≤ 511) × (511 * vertices ≤ length conclusions.now.pairs.now) × Blank vertices found.old }
    ensures { (colours : List ℕ) (s t : ℕ) → Concluded drawn.now vertices colours s t side cut.now conclusions.now → Summarised drawn.now vertices colours s t side out.old result out.new }
{
    let mut small = [0; SMALL];
    let n = records_out(drawn, vertices, side, cut, conclusions, found, &mut small);
    if out.len() / RECORD < n {
        return n;
    }
    let kept = SMALL / RECORD;
    if n <= kept {
        out[..RECORD * n].copy_from_slice(&small[..RECORD * n]);
        return n;
    }
    records_out(drawn, vertices, side, cut, conclusions, found, out)
}

// The marks are made once: what the clauses conclude, and then each clause's premises.
fn write_with<const MARKS: usize>(
    drawn: &Drawing,
    vertices: u16,
    colours: &[u8; VERTICES],
    side: Side,
    s: u16,
    t: u16,
    out: &mut [u8],
) -> usize
    requires asking_some { AskingSome drawn.now vertices colours.now s t × (vertices ≤ 511) }
    requires rows { (511 * vertices ≤ MARKS) × (MARKS ≤ 261121) }
    ensures { Summarised drawn.now vertices colours.now s t side out.old result out.new }
{
    let path = drawn.forest.path(s, t);
    let cut = Cut::of(side, colours, &path);
    let mut pairs = [false; MARKS];
    let rows = conclude(drawn, &cut, &mut pairs);
    let conclusions = Conclusions {
        pairs: &pairs,
        rows: &rows,
    };
    let mut found = [false; MARKS];
    write_records(drawn, vertices, side, &cut, &conclusions, &mut found, out)
}

// All clause records of a disequality between s and t, where all of them have room; returns how many there are.
pub fn write(
    drawn: &Drawing,
    vertices: u16,
    colours: &[u8; VERTICES],
    side: Side,
    s: u16,
    t: u16,
    out: &mut [u8],
) -> usize
    requires { AskingSome drawn.now vertices colours.now s t × (vertices ≤ 511) }
    ensures { Summarised drawn.now vertices colours.now s t side out.old result out.new }
{
    if vertices <= FEW {
        write_with::<FEW_MARKS>(drawn, vertices, colours, side, s, t, out)
    } else if vertices <= MORE {
        write_with::<MORE_MARKS>(drawn, vertices, colours, side, s, t, out)
    } else {
        write_with::<ALL_MARKS>(drawn, vertices, colours, side, s, t, out)
    }
}
