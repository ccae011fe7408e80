// One number for each set of joined terms, in an array: two terms are joined when their numbers are the same.

ghost use Rattle.std.specs.Prelude.{cond, [], map, ◌≡◌, eqb};
ghost use Rattle.graphs.specs.Layout.{labels_of};

use closure::VERTICES;
use std::array;

// Without edges each term has its own.
pub fn own_labels() -> [u16; VERTICES]
    ensures { result ≡ labels_of [] }
{
    array::from_fn(|v| v as u16)
}

// An edge gives those at one end the number of the other: every place is written, with no branch in the loop.
pub fn relabel(labels: &mut [u16; VERTICES], from: u16, to: u16)
    ensures { labels.new ≡ map (λ x. cond (eqb x from) to x) labels.old }
{
    for label in labels.iter_mut() {
        *label = if *label == from { to } else { *label };
    }
}
