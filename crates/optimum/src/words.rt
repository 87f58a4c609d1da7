// Numbers of 64 bits in an array of 16-bit cells. orders/specs/Words.antt says where they stand.
ghost use Rattle.std.specs.Prelude.{◌≡◌, ◌+◌, ◌*◌, ◌<◌, length};
ghost use Rattle.orders.specs.Words.{value_at, with_value};

use orders::word::{joined, split};

// The number at a place.
#[tactic(auto, unfolding(orders::specs::Words::value_at))]
pub(crate) fn read_value(cells: &[u16], place: usize) -> u64
    requires { place * 4 + 3 < length cells.now }
    ensures { result ≡ value_at cells.now place }
{
    let k = place * 4;
    joined([cells[k], cells[k + 1], cells[k + 2], cells[k + 3]])
}

// Stores a number at a place.
#[tactic(auto, unfolding(orders::specs::Words::with_value))]
pub(crate) fn write_value(cells: &mut [u16], place: usize, x: u64)
    requires { place * 4 + 3 < length cells.old }
    ensures { cells.new ≡ with_value cells.old place x }
{
    let k = place * 4;
    let [a, b, c, d] = split(x);
    cells[k] = a;
    cells[k + 1] = b;
    cells[k + 2] = c;
    cells[k + 3] = d;
}
