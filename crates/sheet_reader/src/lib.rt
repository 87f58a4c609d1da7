// Reading sheets: their questions, asked point by point by a reader.
#![tactic(auto)]

ghost use Rattle.std.specs.Prelude.{◌≡◌, ℕ, ◌+◌, ◌*◌, ◌<◌, ◌≤◌, Bool, not, List, [], length, get_or};
ghost use Rattle.std.specs.List.{list_all};
ghost use Rattle.std.specs.Fn.{FnReturnsAt};
ghost use Rattle.format.specs.Sheet.{point_count};
ghost use Rattle.format.specs.Sheet.{up_to, both_up_to, on_map, same_call, same_pixel, unlike_earlier, point_no, points_no, questions_no, sheet_no};
ghost use Rattle.format.specs.Answers.{no_of, outcome, outcome_of};
ghost use Rattle.sheet_reader.specs.PixelNumber.{PixelNumber};
ghost use Rattle.sheet_reader.specs.Reader.{point_at};

use format::{
    Refusal, byte_at, call_number, column, label_height, label_width, map_height, map_width,
    point_count, row, sheet_length,
};
use reader::{SheetPoint, SheetReader};

pub mod reader;

// A number is 1 to most.
fn up_to(most: u16, x: u16) -> bool
    ensures { result ≡ up_to most x }
{
    (1..=most).contains(&x)
}

// Both sides are 1 to most.
fn both_up_to(most: u16, x: u16, y: u16) -> bool
    ensures { result ≡ both_up_to most x y }
{
    up_to(most, x) && up_to(most, y)
}

// The column and row of a point are on the map.
fn on_map(sheet: &[u8], point: SheetPoint) -> bool
    ensures { result ≡ on_map sheet.now point.column point.row }
{
    point.column < map_width(sheet) && point.row < map_height(sheet)
}

// The points before a position, six bytes each. That they are there, whole, is asked here and by the two questions that compare them: it is true of
// a position once 17 is answered yes.
fn earlier(sheet: &[u8], position: u8) -> &[[u8; 6]]
    requires { 10 + 6 * position ≤ length sheet.now }
    ensures count { length result.now ≡ position }
    ensures bytes { (j k : ℕ) → j < position → k < 6 → get_or (get_or result.now j []) k 0 ≡ get_or sheet.now (10 + 6 * j + k) 0 }
{
    let (points, _) = sheet[10..10 + 6 * usize::from(position)].as_chunks();
    points
}

// No point is one that `like` picks. A `for`: with `all` in its place, checking a sheet takes two fifths longer.
fn none<F: Fn(&[u8; 6]) -> bool>(points: &[[u8; 6]], like: F) -> bool
    requires { F.IsAlwaysCallable like }
    ensures { (p : List ℕ → Bool) → ((point : List ℕ) (b : Bool) → FnReturnsAt F.Fn like point b → b ≡ p point)
        → result ≡ list_all (λ point. not (p point)) points.now }
{
    for point in points {
        if like(point) {
            return false;
        }
    }
    true
}

// The call number of a position is unlike every earlier one. The earlier points are there, whole.
fn own_call_number(sheet: &[u8], position: u8) -> bool
    requires { 10 + 6 * position ≤ length sheet.now }
    ensures { result ≡ unlike_earlier (same_call sheet.now) position }
{
    let own = call_number(sheet, position);
    none(earlier(sheet, position), |point| {
        u16::from_le_bytes([point[0], point[1]]) == own
    })
}

// A pixel as one number.
fn pixel_number(x: u16, y: u16) -> u32
    ensures { PixelNumber x y result }
{
    u32::from(x) + 65536 * u32::from(y)
}

// The pixel of a point.
fn pixel(point: &[u8; 6]) -> u32
    ensures { PixelNumber (get_or point.now 2 0 + 256 * get_or point.now 3 0) (get_or point.now 4 0 + 256 * get_or point.now 5 0) result }
{
    pixel_number(
        u16::from_le_bytes([point[2], point[3]]),
        u16::from_le_bytes([point[4], point[5]]),
    )
}

// No earlier position stands on the pixel of a position. The earlier points are there, whole.
fn own_pixel(sheet: &[u8], position: u8) -> bool
    requires { 10 + 6 * position ≤ length sheet.now }
    ensures { result ≡ unlike_earlier (same_pixel sheet.now) position }
{
    let own = pixel_number(column(sheet, position), row(sheet, position));
    none(earlier(sheet, position), |point| pixel(point) == own)
}

// The first no of 17 to 20 for one position and its point.
#[tactic(auto, unfolding(format::specs::Sheet::point_no))]
fn point_no(sheet: &[u8], position: u8, point: SheetPoint) -> Result<(), Refusal>
    requires { point ≡ point_at sheet.now position }
    ensures { no_of result ≡ point_no sheet.now position }
{
    if !up_to(9999, point.call_number) {
        return Err(Refusal::CallNumber);
    }
    if !on_map(sheet, point) {
        return Err(Refusal::OffMap);
    }
    if !own_call_number(sheet, position) {
        return Err(Refusal::SameCallNumber);
    }
    if !own_pixel(sheet, position) {
        return Err(Refusal::SamePixel);
    }
    Ok(())
}

// The first no of 17 to 20, point by point.
fn points_no(sheet: &[u8]) -> Result<(), Refusal>
    ensures { no_of result ≡ points_no sheet.now (point_count sheet.now) }
{
    for (position, point) in SheetReader::at(sheet, 0) {
        point_no(sheet, position, point)?;
    }
    Ok(())
}

// The first no of 11 to 20, where `fits` answers 16.
#[tactic(auto, unfolding(format::specs::Sheet::questions_no))]
pub fn questions_no(sheet: &[u8], fits: bool) -> Result<(), Refusal>
    ensures { no_of result ≡ questions_no sheet.now fits }
{
    if sheet.len() < 10 {
        return Err(Refusal::TooShort);
    }
    if byte_at(sheet, 0) != 1 {
        return Err(Refusal::FrameCount);
    }
    if !both_up_to(4096, map_width(sheet), map_height(sheet)) {
        return Err(Refusal::MapSides);
    }
    if !both_up_to(256, label_width(sheet), label_height(sheet)) {
        return Err(Refusal::LabelSides);
    }
    if point_count(sheet) > 32 {
        return Err(Refusal::PointCount);
    }
    if !fits {
        return Err(Refusal::SheetLength);
    }
    points_no(sheet)
}

// The sheet's questions, 11 to 20, in their order.
#[tactic(auto, using(crate::proofs::Laws::outcome_by_no), unfolding(format::specs::Sheet::sheet_no))]
pub fn check_sheet(sheet: &[u8]) -> Result<(), Refusal>
    ensures { outcome result ≡ outcome_of (sheet_no sheet.now) }
{
    questions_no(sheet, sheet.len() == sheet_length(sheet))
}
