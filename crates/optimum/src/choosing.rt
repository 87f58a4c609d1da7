// Choosing: the best is found on demand, and the choice that attains it is recovered and listed.
ghost use Rattle.std.specs.Prelude.{◌≡◌, ℕ, ◌≤◌, length, replicate};
ghost use Rattle.format.specs.Sheet.{sheet_no};
ghost use Rattle.format.specs.MakingQuestions.{choice_no};
ghost use Rattle.orders.specs.BothOrders.{BothOrders};
ghost use Rattle.orders.specs.Arrays.{heights_of};
ghost use Rattle.optimum.specs.Table.{Room, Blank, Solved};
ghost use Rattle.optimum.specs.Choosing.{chosen_of};
ghost use Rattle.optimum.specs.Chosen.{TwoLists};

use crate::BestChoice;
use crate::limits::write_limits;
use crate::lists::{Flags, by_position, list_inside, list_outside};
use crate::points::{PackedPoints, point_count};
use crate::recovery::slab;
use crate::table::{Slab, clear_notes};
use crate::values::value_of;
use format::Refusal;
use orders::PointArray;
use orders::layout::FIELD_CELLS;

// Every number becomes 0: `fill` promises it by five clauses on clones, this by one equation.
fn clear(workspace: &mut [u16])
    ensures { workspace.new ≡ replicate (length workspace.old) 0 }
{
    workspace.fill(0);
}

// The two lists of a choice of n points, by position.
fn two_lists(n: u8, points: &PackedPoints, choice: &[bool; 32]) -> BestChoice
    requires { n ≤ 32 }
    ensures { TwoLists n points.now.cells choice.now result }
{
    let inside = list_inside(choice, n);
    let outside = list_outside(points, choice);
    BestChoice { inside, outside }
}

// Sets the flags of the inside points of the best choice, and gives one more than its weight, or 0 where no choice is without conflicts.
// The table is in the workspace. The value is a number, as the recurrence has it.
fn solve(points: &PackedPoints, workspace: &mut [u16], flags: &mut Flags) -> u64
    requires { Room workspace.old × Blank flags.old }
    ensures { Solved (heights_of points.now.cells) flags.new result
        × (length workspace.new ≡ length workspace.old) }
{
    clear_notes(points, workspace);
    let all = Slab {
        lower: 0,
        upper: point_count(&points.cells) + 1,
        reaching: 0,
    };
    let best = value_of(points, workspace, all);
    if best == 0 {
        return 0;
    }
    slab(points, workspace, flags, all);
    best
}

// The best choice of an accepted sheet, whose points are in order, or 61 where no choice is valid. It is the best by whatever ranks the
// points have their weights from. The workspace is left zero.
pub(crate) fn chosen(
    sheet: &[u8],
    mut heights: PointArray,
    workspace: &mut [u16],
) -> Result<BestChoice, Refusal>
    requires { (sheet_no sheet.now ≡ 0) × ((rank : ℕ → ℕ) × BothOrders rank sheet.now heights) × Room workspace.old }
    ensures { ((rank : ℕ → ℕ) → BothOrders rank sheet.now heights
        → result ≡ chosen_of sheet.now rank (choice_no sheet.now))
        × (workspace.new ≡ replicate (length workspace.old) 0) }
{
    write_limits(&mut heights);
    let points = PackedPoints { cells: heights };
    let mut flags = [false; FIELD_CELLS];
    let value = solve(&points, workspace, &mut flags);
    clear(workspace);
    if value == 0 {
        return Err(Refusal::NoValidChoice);
    }
    let choice = by_position(&points, &flags);
    Ok(two_lists(format::point_count(sheet), &points, &choice))
}
