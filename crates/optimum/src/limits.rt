// Top and high of each point, numbers as Comparisons `top_of` and `high_of` are. Three functions ask InOrder of the array: as a type it would be a
// second one over these cells, only until PackedPoints is made of them.
ghost use Rattle.std.specs.Prelude.{◌≡◌, ◌<◌};
ghost use Rattle.recurrence.specs.Recurrence.{Point};
ghost use Rattle.recurrence.specs.Comparisons.{high_of, top_of};
ghost use Rattle.orders.specs.Arrays.{heights_of};
ghost use Rattle.optimum.specs.Limits.{label_below, column_within, InOrder, Limited};
ghost use Rattle.orders.specs.Layout.{field_cells};

use crate::points::{column_at, label_height, label_width, point_count, row_at};
use orders::PointArray;
use orders::layout::{FIRST_HIGH, FIRST_TOP};

// The label of i ends below the row of j.
#[tactic(auto, unfolding(crate::specs::Limits::label_below))]
pub(crate) fn label_below(heights: &PointArray, i: usize, j: usize) -> bool
    requires { (i < field_cells) × (j < field_cells) }
    ensures { result ≡ label_below (heights_of heights.now) i j }
{
    row_at(heights, i) + label_height(heights) <= row_at(heights, j)
}

// The column of j is one of those from `from` on, and below `to`.
#[tactic(auto, unfolding(crate::specs::Limits::column_within))]
fn column_within(heights: &PointArray, j: usize, from: usize, to: usize) -> bool
    requires { j < field_cells }
    ensures { result ≡ column_within (heights_of heights.now) j from to }
{
    let column = column_at(heights, j);
    from <= column && column < to
}

// The topmost point whose label reaches over i, or 0. `high` is a loop of its own: it goes the other way, compares the other label's end,
// and has another answer for none, which as parameters and closures would be longer than the loop.
fn top(heights: &PointArray, i: usize) -> usize
    requires { InOrder heights.now × Point (heights_of heights.now) i }
    ensures { (result ≡ top_of (heights_of heights.now) i) × (result < field_cells) }
{
    let column = column_at(heights, i);
    let to = column + label_width(heights);
    for j in (1..i).rev() {
        if label_below(heights, j, i) {
            return 0;
        }
        if column_within(heights, j, column + 1, to) {
            return j;
        }
    }
    0
}

// The least point above i that is right of it and overlaps it, or n + 1.
fn high(heights: &PointArray, i: usize) -> usize
    requires { InOrder heights.now × Point (heights_of heights.now) i }
    ensures { (result ≡ high_of (heights_of heights.now) i) × (result < field_cells) }
{
    let n = point_count(heights);
    let column = column_at(heights, i);
    let to = column + label_width(heights);
    for j in i + 1..n + 1 {
        if label_below(heights, i, j) {
            return n + 1;
        }
        if column_within(heights, j, column, to) {
            return j;
        }
    }
    n + 1
}

// Top and high of each point.
pub(crate) fn write_limits(heights: &mut PointArray)
    requires { InOrder heights.old }
    ensures { Limited heights.old heights.new }
{
    for k in 0..point_count(heights) {
        let topmost = top(heights, k + 1) as u16;
        let least = high(heights, k + 1) as u16;
        heights[FIRST_TOP + k] = topmost;
        heights[FIRST_HIGH + k] = least;
    }
}
