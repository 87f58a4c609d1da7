// A plate read.
#![tactic(auto)]

ghost use Rattle.std.specs.Prelude.{◌≡◌, ◌+◌, ◌≤◌, ◌<◌, min, length, take, drop};
ghost use Rattle.labeling.specs.Points.{before};
ghost use Rattle.format.specs.Sheet.{points_of, plate_sheet_no, sheet_length};
ghost use Rattle.format.specs.Ascending.{ascending};
ghost use Rattle.format.specs.Answers.{no_of};
ghost use Rattle.clash.specs.ChoiceFlags.{held};
ghost use Rattle.plate_reader.specs.PlateQuestions.{sheet_of, inside_count, inside_start, inside_list, outside_start, outside_pairs};
ghost use Rattle.plate_reader.specs.PlateQuestions.{sections_fit, sections_no, plate_no, handed_back, handed_back_at};
ghost use Rattle.plate_reader.specs.Stretch.{Stretch};
ghost use Rattle.plate_reader.specs.OutsideWalk.{outside_point, pair_follows, pairs_after, pairs_follow};
ghost use Rattle.plate_reader.specs.PlateAnswers.{plate_outcome, plate_outcome_of};

use clash::{SheetChoice, choice_of, first_clash};
use format::{Pair, Refusal, byte_at, column, next_margin, point_count, row, sheet_length};
use sheet_reader::questions_no;

// The count of a plate's inside list.
pub fn inside_count(plate: &[u8]) -> u8
    ensures { result ≡ inside_count plate.now }
{
    byte_at(plate, sheet_length(plate))
}

// Where the outside count stands.
fn outside_start(plate: &[u8]) -> usize
    ensures { (result ≡ outside_start plate.now) × (result < 3000) }
{
    sheet_length(plate) + 1 + usize::from(inside_count(plate))
}

// The sections have all their bytes, end where the plate ends, and hold n points together.
#[tactic(auto, unfolding(crate::specs::PlateQuestions::sections_fit))]
fn sections_fit(plate: &[u8]) -> bool
    ensures { result ≡ sections_fit plate.now }
{
    let inside = usize::from(inside_count(plate));
    let at = outside_start(plate);
    let outside = usize::from(byte_at(plate, at));
    plate.len() == at + 1 + 2 * outside && inside + outside == usize::from(point_count(plate))
}

// The sheet's bytes.
#[tactic(auto, unfolding(crate::specs::PlateQuestions::sheet_of))]
fn sheet_of(plate: &[u8]) -> &[u8]
    requires { sheet_length plate.now ≤ length plate.now }
    ensures { result.now ≡ sheet_of plate.now }
{
    &plate[..sheet_length(plate)]
}

// The bytes from a place on; of bytes that end before it, their empty end.
fn bytes_after(bytes: &[u8], start: usize) -> &[u8]
    ensures { Stretch result bytes.entry (min start (length bytes.now)) (drop start bytes.now) }
{
    &bytes[start.min(bytes.len())..]
}

// The first bytes, as many of them as there are.
fn first_bytes(bytes: &[u8], count: usize) -> &[u8]
    ensures { Stretch result bytes.entry 0 (take count bytes.now) }
{
    &bytes[..count.min(bytes.len())]
}

// The position bytes of the inside section, as far as they are there, of any bytes read as a plate.
#[tactic(auto, unfolding(crate::specs::PlateQuestions::inside_list))]
pub fn inside_positions(plate: &[u8]) -> &[u8]
    ensures { Stretch result plate.entry (min (inside_start plate.now) (length plate.now))
        (inside_list plate.now) }
{
    let rest = bytes_after(plate, sheet_length(plate) + 1);
    first_bytes(rest, usize::from(inside_count(plate)))
}

// The bytes after the outside count, of any bytes read as a plate.
#[tactic(auto, unfolding(crate::specs::PlateQuestions::outside_pairs))]
pub fn outside_pairs(plate: &[u8]) -> &[u8]
    ensures { Stretch result plate.entry (min (outside_start plate.now + 1) (length plate.now))
        (outside_pairs plate.now) }
{
    bytes_after(plate, outside_start(plate) + 1)
}

// Each position is below n and above the one before it.
fn ascends(list: &[u8], n: u8) -> bool
    ensures { result ≡ ascending n list.now }
{
    list.iter().all(|position| *position < n) && list.is_sorted_by(|a, b| a < b)
}

// A position is an outside point.
fn outside_point(choice: &SheetChoice, position: u8) -> bool
    ensures { result ≡ outside_point (points_of choice.now.sheet.now) (held choice.now.inside) position }
{
    position < point_count(choice.sheet) && !choice.inside[usize::from(position)]
}

// Position i stands before position j: from the highest row down, of one row the smaller column first.
#[tactic(auto, unfolding(labeling::specs::Points::before))]
fn stands_before(sheet: &[u8], i: u8, j: u8) -> bool
    ensures { result ≡ before (points_of sheet.now) i j }
{
    let upper = row(sheet, i);
    let lower = row(sheet, j);
    lower < upper || lower == upper && column(sheet, i) < column(sheet, j)
}

// A pair may follow another.
fn pair_follows(choice: &SheetChoice, previous: Pair, next: Pair) -> bool
    ensures { result ≡ pair_follows (points_of choice.now.sheet.now) (held choice.now.inside)
        previous.position previous.margin next.position next.margin }
{
    let sheet = choice.sheet;
    outside_point(choice, next.position)
        && stands_before(sheet, previous.position, next.position)
        && u16::from(next.margin)
            == next_margin(sheet, previous.position, previous.margin, next.position)
}

// Each of the pairs follows the one before it, the first that of the arguments.
#[tactic(auto, unfolding(crate::specs::OutsideWalk::pairs_after))]
fn pairs_after(choice: &SheetChoice, first: Pair, pairs: &[u8]) -> bool
    ensures { result ≡ pairs_after (points_of choice.now.sheet.now) (held choice.now.inside)
        first.position first.margin pairs.now }
{
    let mut last = first;
    let mut rest = pairs;
    while let [position, margin, others @ ..] = rest {
        let next = Pair {
            position: *position,
            margin: *margin,
        };
        if !pair_follows(choice, last, next) {
            return false;
        }
        last = next;
        rest = others;
    }
    rest.is_empty()
}

// Each of the pairs is an outside point that follows the one before it, and the first has margin column 0.
#[tactic(auto, unfolding(crate::specs::OutsideWalk::pairs_follow))]
fn pairs_follow(choice: &SheetChoice, pairs: &[u8]) -> bool
    ensures { result ≡ pairs_follow (points_of choice.now.sheet.now) (held choice.now.inside) pairs.now }
{
    match pairs {
        [] => true,
        [_] => false,
        [position, margin, others @ ..] => {
            let first = Pair {
                position: *position,
                margin: *margin,
            };
            outside_point(choice, first.position)
                && first.margin == 0
                && pairs_after(choice, first, others)
        }
    }
}

// The first no of 41 to 44 of a plate whose sheet has none.
#[tactic(auto, unfolding(crate::specs::PlateQuestions::sections_no))]
fn sections_no(plate: &[u8]) -> Result<(), Refusal>
    requires { plate_sheet_no plate.now ≡ 0 }
    ensures { no_of result ≡ sections_no plate.now }
{
    if !sections_fit(plate) {
        return Err(Refusal::PlateSections);
    }
    let list = inside_positions(plate);
    if !ascends(list, point_count(plate)) {
        return Err(Refusal::InsideOrder);
    }
    let sheet = sheet_of(plate);
    let choice = SheetChoice {
        sheet,
        inside: choice_of(list),
    };
    if !pairs_follow(&choice, outside_pairs(plate)) {
        return Err(Refusal::OutsidePairs);
    }
    if first_clash(sheet, list).is_some() {
        return Err(Refusal::PlateClash);
    }
    Ok(())
}

// The first no of a plate.
#[tactic(auto, unfolding(crate::specs::PlateQuestions::plate_no, format::specs::Sheet::plate_sheet_no))]
fn plate_no(plate: &[u8]) -> Result<(), Refusal>
    ensures { no_of result ≡ plate_no plate.now }
{
    questions_no(plate, sheet_length(plate) <= plate.len())?;
    sections_no(plate)
}

// The plate's questions: the sheet's, then 41 to 44, in their order. An accepted plate answers with its inside count.
pub fn read_plate(plate: &[u8]) -> Result<u8, Refusal>
    ensures { plate_outcome result ≡ plate_outcome_of plate.now }
{
    plate_no(plate)?;
    Ok(inside_count(plate))
}

// The inside list of an accepted plate, as that part of the plate: the position bytes without their count byte. Of a refused plate its
// empty start.
#[tactic(auto, unfolding(crate::specs::PlateQuestions::handed_back_at, crate::specs::PlateQuestions::handed_back))]
pub fn inside_list(plate: &[u8]) -> &[u8]
    ensures { Stretch result plate.entry (handed_back_at plate.now) (handed_back plate.now) }
{
    match plate_no(plate) {
        Ok(()) => inside_positions(plate),
        Err(_) => &plate[..0],
    }
}
