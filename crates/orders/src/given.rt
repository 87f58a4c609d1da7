// What is given of each position beside its place: its weight by its rank, and whether it may be inside.
ghost use Rattle.std.specs.Prelude.{◌≡◌, ℕ, ◌+◌, ◌<◌, ◌≤◌, option_copied};
ghost use Rattle.recurrence.specs.TieBreak.{tie_break};
ghost use Rattle.format.specs.RankList.{rank_in};
ghost use Rattle.orders.specs.Words.{with_value};
ghost use Rattle.orders.specs.Given.{weight_of};
ghost use Rattle.orders.specs.Cells.{PositionsAt};
ghost use Rattle.orders.specs.GivenCells.{GivenCells};
ghost use Rattle.orders.specs.Layout.{field_cells, weight_field};

use crate::PointArray;
use crate::height_order::position_after;
use crate::layout::{FIRST_ALLOWED, FIRST_WEIGHT};
use crate::word::split;
use format::label_on_map;
use rank_list::rank_of;

// What a position adds so that ties are broken in sheet order: the first of 32 the most, and each next one half of that.
fn tie_break(position: u8) -> u64
    requires { position < 32 }
    ensures { (result ≡ tie_break position) × (result ≤ 2147483648) }
{
    2147483648 >> position
}

// The weight of a position of this rank.
#[tactic(auto, using(crate::proofs::GivenLaws::weight_is))]
fn weight_of(rank: u8, position: u8) -> u64
    requires { position < 32 }
    ensures { result ≡ weight_of (λ _. rank) position }
{
    u64::from(rank) * 4294967296 + tie_break(position)
}

// Stores a weight in the four cells of a place. Four stores, since `copy_from_slice` takes more.
#[tactic(auto, unfolding(crate::specs::Words::with_value))]
fn write_weight(heights: &mut PointArray, place: usize, weight: u64)
    requires { place < weight_field + field_cells }
    ensures { heights.new ≡ with_value heights.old place weight }
{
    let k = place * 4;
    let [a, b, c, d] = split(weight);
    heights[k] = a;
    heights[k + 1] = b;
    heights[k + 2] = c;
    heights[k + 3] = d;
}

// The weights and permissions of the n points in height order.
pub(crate) fn write_given(sheet: &[u8], ranks: Option<&[u8]>, n: usize, heights: &mut PointArray)
    requires { PositionsAt n heights.old
        × ((p : ℕ) → p < n → rank_in (option_copied ranks) p ≤ 9) }
    ensures { GivenCells (rank_in (option_copied ranks.entry)) sheet.now n
        heights.old heights.new }
{
    for k in 0..n {
        let position = position_after(heights, k);
        let weight = weight_of(rank_of(ranks, position), position);
        let allowed = u16::from(label_on_map(sheet, position));
        write_weight(heights, FIRST_WEIGHT + k, weight);
        heights[FIRST_ALLOWED + k] = allowed;
    }
}
