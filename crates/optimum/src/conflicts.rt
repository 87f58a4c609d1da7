// Which labels overlap, and which points may be inside: the tests of the recurrence, as comparisons of numbers.
ghost use Rattle.std.specs.Prelude.{◌≡◌, ◌<◌, ◌≤◌};
ghost use Rattle.recurrence.specs.Recurrence.{Point, overlaps, reaches_over, reach, may_be_inside, rows_differ};
ghost use Rattle.orders.specs.Arrays.{heights_of};
ghost use Rattle.format.specs.Stretches.{stretches_overlap};
ghost use Rattle.optimum.specs.Conflicts.{ends_below, Candidate};
ghost use Rattle.orders.specs.Layout.{field_cells};

use crate::limits::label_below;
use crate::points::{PackedPoints, column_at, label_height, label_width, point_count, row_at};
use crate::table::Slab;
use orders::PointArray;

// Two stretches of length d, from x and from y on, share a place. `clash` has this of the sheet's 16-bit numbers, whose sums it widens; here the
// numbers are indices already, and narrowing them again would be longer than the line.
fn stretches_overlap(x: usize, y: usize, d: usize) -> bool
    requires { (x < 65536) × (y < 65536) × (d < 65536) }
    ensures { result ≡ stretches_overlap x y d }
{
    x < y + d && y < x + d
}

// The labels of i and j share a pixel.
#[tactic(auto, unfolding(recurrence::specs::Recurrence::overlaps))]
pub(crate) fn overlaps(heights: &PointArray, i: usize, j: usize) -> bool
    requires { (i < field_cells) × (j < field_cells) }
    ensures { result ≡ overlaps (heights_of heights.now) i j }
{
    stretches_overlap(
        column_at(heights, i),
        column_at(heights, j),
        label_width(heights),
    ) && stretches_overlap(
        row_at(heights, i),
        row_at(heights, j),
        label_height(heights),
    )
}

// The label of the point i, which isn't above p, reaches over p's row, on the right of p.
#[tactic(auto, unfolding(recurrence::specs::Recurrence::reaches_over))]
pub(crate) fn reaches_over(heights: &PointArray, p: usize, i: usize) -> bool
    requires { (1 ≤ i) × (i ≤ p) × (p < field_cells) }
    ensures { result ≡ reaches_over (heights_of heights.now) p i }
{
    row_at(heights, p) < row_at(heights, i) + label_height(heights)
        && column_at(heights, p) < column_at(heights, i)
        && column_at(heights, i) < column_at(heights, p) + label_width(heights)
}

// The label that reaches over p, in the upper part of a slab that is cut at p: its point, or 0.
pub(crate) fn reach(points: &PackedPoints, slab: Slab, p: usize) -> usize
    requires { Point (heights_of points.now.cells) p × (slab.reaching ≤ slab.lower) × (slab.lower < p) }
    ensures { result ≡ reach (heights_of points.now.cells) slab.lower p slab.reaching }
{
    let top = points.top(p);
    if top > slab.lower {
        return top;
    }
    if slab.reaching != 0 && reaches_over(&points.cells, p, slab.reaching) {
        return slab.reaching;
    }
    0
}

// The label of p ends below the leader of b, if b is a point.
#[tactic(auto, unfolding(crate::specs::Conflicts::ends_below, crate::specs::Limits::label_below))]
fn ends_below(heights: &PointArray, p: usize, b: usize) -> bool
    requires { (p < field_cells) × (b < field_cells) }
    ensures { result ≡ ends_below (heights_of heights.now) p b }
{
    point_count(heights) < b || label_below(heights, p, b)
}

// The point p isn't in the row of b, if b is a point.
#[tactic(auto, unfolding(recurrence::specs::Recurrence::rows_differ))]
pub(crate) fn rows_differ(heights: &PointArray, p: usize, b: usize) -> bool
    requires { (p < field_cells) × (b < field_cells) }
    ensures { result ≡ rows_differ (heights_of heights.now) p b }
{
    point_count(heights) < b || row_at(heights, p) != row_at(heights, b)
}

// The open point p of a slab may be inside, where the points right of it in the slab are.
pub(crate) fn may_be_inside(points: &PackedPoints, slab: Slab, p: usize) -> bool
    requires { Candidate (heights_of points.now.cells) slab.lower slab.upper slab.reaching p }
    ensures { result ≡ may_be_inside (heights_of points.now.cells) ((heights_of points.now.cells).rank p)
        slab.lower slab.upper slab.reaching }
{
    let heights = &points.cells;
    points.allowed(p)
        && points.top(p) <= slab.lower
        && slab.upper <= points.high(p)
        && ends_below(heights, p, slab.upper)
        && (slab.reaching == 0 || !overlaps(heights, p, slab.reaching))
}
