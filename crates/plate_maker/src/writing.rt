// Writing a plate: the sheet's bytes, the inside section and the outside section.
ghost use Rattle.std.specs.Prelude.{◌≡◌, MatchOption, ◌+◌, ◌*◌, ◌<◌, ◌≤◌, ◌∷◌, ◌++◌, length, drop};
ghost use Rattle.labeling.specs.Points.{Choice, placed};
ghost use Rattle.format.specs.Sheet.{sheet_no, point_count, points_of};
ghost use Rattle.format.specs.Plate.{pairs, plate_of};
ghost use Rattle.optimum.specs.Choosing.{split_of};
ghost use Rattle.format.specs.Written.{written};
ghost use Rattle.plate_maker.specs.Writing.{section_of, margin_after, plate_of_lists};

use format::{Pair, copy_to};
use optimum::BestChoice;

// The margin column of the outside position that comes next after `last`: 0 where there is none before it.
#[tactic(auto, unfolding(crate::specs::Writing::margin_after))]
fn margin_after(sheet: &[u8], last: Option<Pair>, position: u8) -> u8
    requires { MatchOption last Unit (λ pair. pair.margin < 255) }
    ensures { result ≡ margin_after (points_of sheet.now) last position }
{
    match last {
        None => 0,
        // At most 255, by what is required: a `try_from` would only add an `unwrap`.
        Some(pair) => format::next_margin(sheet, pair.position, pair.margin, position) as u8,
    }
}

// Writes the inside section of a list of positions from the place `at` on, and gives the place after it.
fn write_inside(list: &[u8], output: &mut [u8], at: usize) -> usize
    requires { (length list.now ≤ 32) × (at + 1 + length list.now ≤ length output.old) }
    ensures { (result ≡ at + 1 + length list.now)
        × (output.new ≡ written output.old at (length list.now ∷ list.now)) }
{
    let count = list.len();
    copy_to(list, output, at + 1);
    output[at] = count as u8; // at most 32: a `try_from` would only add an `unwrap`
    at + 1 + count
}

// Writes the positions of a list with their margin columns from the place `at` on.
#[tactic(auto, using(crate::proofs::Pairs::last_small))]
fn write_pairs(sheet: &[u8], list: &[u8], output: &mut [u8], at: usize)
    requires { (length list.now ≤ 32) × (at + 2 * length list.now ≤ length output.old) }
    ensures { output.new
        ≡ written output.old at (pairs (placed (points_of sheet.now) list.now)) }
{
    let mut last = None;
    // By the place in the list, since a margin column depends on the pair before.
    for (k, &position) in list.iter().enumerate() {
        let margin = margin_after(sheet, last, position);
        output[at + 2 * k] = position;
        output[at + 2 * k + 1] = margin;
        last = Some(Pair { position, margin });
    }
}

// Writes the outside section of a list of positions, from the highest row down, from the place `at` on, and gives the place after it.
fn write_outside(sheet: &[u8], list: &[u8], output: &mut [u8], at: usize) -> usize
    requires { (length list.now ≤ 32) × (at + 1 + 2 * length list.now ≤ length output.old) }
    ensures { (result ≡ at + 1 + 2 * length list.now)
        × (output.new ≡ written output.old at (section_of (points_of sheet.now) list.now)) }
{
    let count = list.len();
    write_pairs(sheet, list, output, at + 1);
    output[at] = count as u8; // at most 32: a `try_from` would only add an `unwrap`
    at + 1 + 2 * count
}

// Writes the plate of the sheet with these inside and outside positions at the start of the output, and gives its length.
fn write_plate(sheet: &[u8], inside: &[u8], outside: &[u8], output: &mut [u8]) -> usize
    requires { (length inside.now ≤ 32) × (length outside.now ≤ 32)
        × (length sheet.now + 2 + length inside.now + 2 * length outside.now ≤ length output.old) }
    ensures { (result ≡ length (plate_of_lists sheet.now inside.now outside.now))
        × (output.new
        ≡ plate_of_lists sheet.now inside.now outside.now
        ++ drop (length (plate_of_lists sheet.now inside.now outside.now)) output.old) }
{
    copy_to(sheet, output, 0);
    let at = write_inside(inside, output, sheet.len());
    write_outside(sheet, outside, output, at)
}

// Writes the plate of an accepted sheet and a choice, which is given by its two lists, at the start of the output, and gives its length.
pub(crate) fn write_split(sheet: &[u8], choice: BestChoice, output: &mut [u8]) -> usize
    requires { (sheet_no sheet.now ≡ 0) × ((S : Choice) × (choice ≡ split_of sheet.now S))
        × (12 + 8 * point_count sheet.now ≤ length output.old) }
    ensures { (S : Choice) → choice ≡ split_of sheet.now S
        → (result ≡ length (plate_of sheet.now S))
        × (output.new
        ≡ plate_of sheet.now S ++ drop (length (plate_of sheet.now S)) output.old) }
{
    write_plate(sheet, choice.inside.list(), choice.outside.list(), output)
}
