// A path cut at its middle stretch, which begins at its first and ends at its last B-colourable stop.

ghost use Rattle.std.specs.Prelude.{◌≡◌, ◌≤◌, leb};
ghost use Rattle.marking.specs.Marks.{Within};
ghost use Rattle.summing.specs.Cutting.{FirstB, LastB, Middle};

use closure::VERTICES;
use graphs::paths::Trail;
use tables::Side;

// The stretches of a path: the middle one is that from place lo to place hi, and the outer ones are what stands before and after it.
#[derive(Clone, Copy)]
pub struct Cut<'a> {
    pub path: &'a Trail,
    pub lo: usize,
    pub hi: usize,
}

// Whether B is among a vertex's colours. The tables keep them as one number: 1 is A alone, 2 B alone and 3 both.
fn has_b(colours: u8) -> bool
    ensures { result ≡ leb 2 colours }
{
    2 <= colours
}

// The first stop of a path that is B-colourable, or its end.
fn first_b(colours: &[u8; VERTICES], path: &Trail) -> usize
    requires { Within path.now 0 path.now.hops }
    ensures { FirstB colours.now path.now result }
{
    for i in 0..path.hops {
        if has_b(colours[path.stops[i] as usize]) {
            return i;
        }
    }
    path.hops
}

// The last stop from place lo on that is B-colourable, or lo itself.
fn last_b(colours: &[u8; VERTICES], path: &Trail, lo: usize) -> usize
    requires within { Within path.now 0 path.now.hops }
    requires lo_le_hops { lo ≤ path.now.hops }
    ensures { LastB colours.now path.now lo result }
{
    for i in (lo + 1..path.hops + 1).rev() {
        if has_b(colours[path.stops[i] as usize]) {
            return i;
        }
    }
    lo
}

impl<'a> Cut<'a> {
    // In A the middle stretch is the one between the B-colourable stops, in B the whole path.
    pub fn of(side: Side, colours: &[u8; VERTICES], path: &'a Trail) -> Cut<'a>
        requires { Within path.now 0 path.now.hops }
        ensures { (result.path.now ≡ path.now) × Middle colours.now side result }
    {
        match side {
            Side::A => {
                let lo = first_b(colours, path);
                let hi = last_b(colours, path, lo);
                Cut { path, lo, hi }
            }
            Side::B => Cut {
                path,
                lo: 0,
                hi: path.hops,
            },
        }
    }
}
