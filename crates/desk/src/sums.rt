// Sums of ranks.
ghost use Rattle.std.specs.Prelude.{◌≡◌, ◌≤◌, length};
ghost use Rattle.plate_reader.specs.PlateQuestions.{inside_list};
ghost use Rattle.desk.specs.Desk.{sum_of, rank_held};

use format::byte_at;
use plate_reader::inside_positions;

// The rank of a position as a wider number.
fn rank_at(ranks: &[u8], position: u8) -> u16
    ensures { (result ≡ rank_held ranks.now position) × (result ≤ 255) }
{
    u16::from(byte_at(ranks, usize::from(position)))
}

// The sum of the ranks of these positions.
pub(crate) fn sum_of(ranks: &[u8], positions: &[u8]) -> u16
    requires { length positions.now ≤ 255 }
    ensures { result ≡ sum_of (rank_held ranks.now) positions.now }
{
    positions
        .iter()
        .map(|position| rank_at(ranks, *position))
        .sum()
}

// The sum of the ranks of a plate's inside positions.
pub(crate) fn inside_sum(ranks: &[u8], plate: &[u8]) -> u16
    ensures { result ≡ sum_of (rank_held ranks.now) (inside_list plate.now) }
{
    sum_of(ranks, inside_positions(plate))
}
