// The cells of the array that don't depend on where the points are.
ghost use Rattle.std.specs.Prelude.{◌≡◌, ◌+◌, set};
ghost use Rattle.format.specs.Sheet.{point_count, label_width, label_height};
ghost use Rattle.orders.specs.Sums.{tri, tet};
ghost use Rattle.orders.specs.Numbers.{blank_of, Numbers};
ghost use Rattle.orders.specs.Cells.{BothWritten};
ghost use Rattle.orders.specs.Layout.{sum_cells, triangular_field, tetrahedral_field, count_cell, width_cell, height_cell};

use crate::PointArray;
use crate::layout::{
    COUNT_CELL, HEIGHT_CELL, SUM_CELLS, TETRAHEDRAL_FIELD, TRIANGULAR_FIELD, WIDTH_CELL,
};

// The number of points, and the width and height of a label.
fn write_counts(sheet: &[u8], heights: &mut PointArray)
    ensures { heights.new
        ≡ set (set (set heights.old count_cell (point_count sheet.now)) width_cell (label_width sheet.now))
        height_cell (label_height sheet.now) }
{
    heights[COUNT_CELL] = u16::from(format::point_count(sheet));
    heights[WIDTH_CELL] = format::label_width(sheet);
    heights[HEIGHT_CELL] = format::label_height(sheet);
}

// The triangular numbers, and the tetrahedral ones: sums of the triangular ones.
fn write_sums(heights: &mut PointArray)
    ensures { BothWritten (λ k. triangular_field + k) tri (λ k. tetrahedral_field + k) tet
        sum_cells heights.old heights.new }
{
    let mut triangular: u16 = 0;
    let mut tetrahedral: u16 = 0;
    for k in 0..SUM_CELLS {
        heights[TRIANGULAR_FIELD + k] = triangular;
        heights[TETRAHEDRAL_FIELD + k] = tetrahedral;
        tetrahedral += triangular;
        triangular += k as u16;
    }
}

// All of these cells, in an array of zeros.
pub(crate) fn write_numbers(sheet: &[u8], heights: &mut PointArray)
    requires { heights.old ≡ blank_of }
    ensures { Numbers sheet.now heights.new }
{
    write_counts(sheet, heights);
    write_sums(heights);
}
