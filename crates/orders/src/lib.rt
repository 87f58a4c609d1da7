// The points of a sheet in both orders, with their weights, in the array that the best choice is made from.
// An `as` here narrows a number that is proved to fit, for which there is no `From`; a `try_from` would need an `unwrap`.
#![tactic(auto)]

ghost use Rattle.std.specs.Prelude.{◌≡◌, option_copied};
ghost use Rattle.format.specs.Sheet.{sheet_no, point_count};
ghost use Rattle.format.specs.RankList.{rank_in, ranks_no};
ghost use Rattle.orders.specs.BothOrders.{BothOrders};
ghost use Rattle.orders.specs.Ordering.{Ordering};

use crate::layout::ARRAY_CELLS;
use format::Refusal;
use height_order::write_points;
use making_questions::asked_no;
use numbers::write_numbers;
use right_order::write_right_order;

mod given;
mod height_order;
pub mod layout;
mod numbers;
mod ranks;
mod right_order;
pub mod word;

// The array of the points, field after field: specs/Layout.antt says where each starts. One array for all fields ran fastest
// (docs/DECISIONS.md, 17).
pub type PointArray = [u16; ARRAY_CELLS];

// The array of an accepted sheet and a right rank list, or none. That a sheet is accepted is asked of it here and where its best is chosen and
// written, and is no type: no public call may ask for one.
#[tactic(auto, unfolding(crate::specs::Numbers::blank_of))]
fn both_orders(sheet: &[u8], ranks: Option<&[u8]>) -> PointArray
    requires { (sheet_no sheet.now ≡ 0) × (ranks_no (point_count sheet.now) (option_copied ranks) ≡ 0) }
    ensures { BothOrders (rank_in (option_copied ranks.entry)) sheet.now result }
{
    let mut heights = [0; ARRAY_CELLS];
    write_numbers(sheet, &mut heights);
    write_points(sheet, ranks, &mut heights);
    write_right_order(usize::from(format::point_count(sheet)), &mut heights);
    heights
}

// The sheet's questions, 21, which `fits` answers, 22 for a workspace of `cells` numbers, and the rank list's, if one is lent; and the
// points of the sheet in both orders, where none is answered no.
pub fn ordered_points(
    sheet: &[u8],
    ranks: Option<&[u8]>,
    fits: bool,
    cells: usize,
) -> Result<PointArray, Refusal>
    ensures { Ordering sheet.now (option_copied ranks.entry) fits cells result }
{
    asked_no(sheet, ranks, fits, cells)?;
    Ok(both_orders(sheet, ranks))
}
