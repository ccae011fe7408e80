// The consistent answer: a class number for each given term.

ghost use Rattle.std.specs.Prelude.{◌≡◌, ◌*◌, ◌≤◌, ◌<◌, length};
ghost use Rattle.demands.specs.Buffers.{written_over};
ghost use Rattle.engine.specs.Ending.{class_by, class_bytes};

use super::bytes;
use closure::VERTICES;
use demands::IDLE;
use tables::TERMS;

// "the lowest number of a given term in its class; a term not in use gets 65535"
fn class_number(used: &[bool; TERMS], labels: &[u16; VERTICES], n: usize, t: usize) -> u16
    requires { (n ≤ 256) × (t < n) }
    ensures { result ≡ class_by used.now labels.now n t }
{
    if !used[t] {
        return IDLE as u16;
    }
    let lowest = (0..n).find(|&u| used[u] && labels[u] == labels[t]);
    lowest.unwrap_or(IDLE) as u16
}

// "the partition buffer's first 2n bytes hold, for each of the n terms" its class number; the bytes past them stay.
pub fn write_partition(
    used: &[bool; TERMS],
    labels: &[u16; VERTICES],
    n: usize,
    partition: &mut [u8],
)
    requires { (n ≤ 256) × (2 * n ≤ length partition.old) }
    ensures { partition.new ≡ written_over (class_bytes used.now labels.now n) partition.old }
{
    for i in 0..n {
        let class = bytes::word(class_number(used, labels, n, i));
        bytes::put(&class, 2 * i, partition);
    }
}
