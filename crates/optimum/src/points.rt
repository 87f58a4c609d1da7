// Reading the points in height order from their array. orders/specs/Layout.antt has its layout.
#![tactic(auto, unfolding(orders::specs::Arrays::heights_of))]

ghost use Rattle.std.specs.Prelude.{◌≡◌, ◌<◌, slice_index};
ghost use Rattle.recurrence.specs.Recurrence.{Point};
ghost use Rattle.recurrence.specs.Comparisons.{high_of, top_of};
ghost use Rattle.orders.specs.Arrays.{heights_of};
ghost use Rattle.optimum.specs.Packed.{Packed};
ghost use Rattle.optimum.specs.Split.{Numbered};
ghost use Rattle.orders.specs.Sums.{tri, tet};
ghost use Rattle.orders.specs.Layout.{field_cells, sum_cells, array_cells};

use crate::words::read_value;
use orders::PointArray;
use orders::layout::{
    ALLOWED_FIELD, AT_RANK_FIELD, COUNT_CELL, HEIGHT_CELL, HIGH_FIELD, RANK_FIELD, ROW_FIELD,
    TETRAHEDRAL_FIELD, TOP_FIELD, TRIANGULAR_FIELD, WEIGHT_FIELD, WIDTH_CELL,
};

// The cell at place i. Each field has a function that reads it and says what of the points it is, with the bound that sums of such numbers ask
// for.
fn cell(heights: &PointArray, i: usize) -> usize
    requires { i < array_cells }
    ensures { (result ≡ slice_index heights.now i) × (result < 65536) }
{
    usize::from(heights[i])
}

// The number of points.
pub(crate) fn point_count(heights: &PointArray) -> usize
    ensures { (result ≡ (heights_of heights.now).n) × (result < 65536) }
{
    cell(heights, COUNT_CELL)
}

// The column of the point i.
pub(crate) fn column_at(heights: &PointArray, i: usize) -> usize
    requires { i < field_cells }
    ensures { (result ≡ (heights_of heights.now).column i) × (result < 65536) }
{
    cell(heights, i)
}

// The row of the point i.
pub(crate) fn row_at(heights: &PointArray, i: usize) -> usize
    requires { i < field_cells }
    ensures { (result ≡ (heights_of heights.now).row i) × (result < 65536) }
{
    cell(heights, ROW_FIELD + i)
}

// The width of a label.
pub(crate) fn label_width(heights: &PointArray) -> usize
    ensures { (result ≡ (heights_of heights.now).w) × (result < 65536) }
{
    cell(heights, WIDTH_CELL)
}

// The height of a label.
pub(crate) fn label_height(heights: &PointArray) -> usize
    ensures { (result ≡ (heights_of heights.now).h) × (result < 65536) }
{
    cell(heights, HEIGHT_CELL)
}

// The points in height order, ready for the table and the lists: an array that top and high are written into. What limits.rs reads before
// that takes the array, above.
#[derive(Drop)]
pub(crate) struct PackedPoints {
    pub cells: PointArray,
    ghost packed: { Packed cells },
    ghost numbered: { Numbered cells },
}

impl PackedPoints {
    // The rank of the point i in right order.
    pub(crate) fn rank(&self, i: usize) -> usize
        requires { i < field_cells }
        ensures { (result ≡ (heights_of self.now.cells).rank i) × (result < 65536) }
    {
        cell(&self.cells, RANK_FIELD + i)
    }

    // The point of rank t in right order.
    pub(crate) fn at_rank(&self, t: usize) -> usize
        requires { t < field_cells }
        ensures { (result ≡ (heights_of self.now.cells).at_rank t) × (result < 65536) }
    {
        cell(&self.cells, AT_RANK_FIELD + t)
    }

    // The weight of the point i.
    pub(crate) fn weight(&self, i: usize) -> u64
        requires { i < field_cells }
        ensures { result ≡ (heights_of self.now.cells).weight i }
    {
        read_value(&self.cells, WEIGHT_FIELD + i)
    }

    // The point i may be inside.
    pub(crate) fn allowed(&self, i: usize) -> bool
        requires { i < field_cells }
        ensures { result ≡ (heights_of self.now.cells).allowed i }
    {
        cell(&self.cells, ALLOWED_FIELD + i) == 1
    }

    // The least point above i that is right of it and overlaps it, or n + 1.
    pub(crate) fn high(&self, i: usize) -> usize
        requires { Point (heights_of self.now.cells) i }
        ensures { result ≡ high_of (heights_of self.now.cells) i }
    {
        cell(&self.cells, HIGH_FIELD + i)
    }

    // The topmost point whose label reaches over i, or 0.
    pub(crate) fn top(&self, i: usize) -> usize
        requires { Point (heights_of self.now.cells) i }
        ensures { result ≡ top_of (heights_of self.now.cells) i }
    {
        cell(&self.cells, TOP_FIELD + i)
    }

    // The sum of the numbers below k.
    pub(crate) fn triangular(&self, k: usize) -> usize
        requires { k < sum_cells }
        ensures { (result ≡ tri k) × (result < 65536) }
    {
        cell(&self.cells, TRIANGULAR_FIELD + k)
    }

    // The sum of the triangular numbers below k.
    pub(crate) fn tetrahedral(&self, k: usize) -> usize
        requires { k < sum_cells }
        ensures { (result ≡ tet k) × (result < 65536) }
    {
        cell(&self.cells, TETRAHEDRAL_FIELD + k)
    }
}
