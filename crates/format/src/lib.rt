// The bytes of sheets and plates.
#![tactic(auto)]

ghost use Rattle.std.specs.Prelude.{◌≡◌, ◌+◌, ◌<◌, ltb, leb, get_or, length};
ghost use Rattle.format.specs.Sheet.{two_bytes, sheet_length, map_width, map_height, label_width, label_height, point_count};
ghost use Rattle.format.specs.Sheet.{call_number, column as column_of, row as row_of, points_of};
ghost use Rattle.labeling.specs.Points.{next_margin};
ghost use Rattle.labeling.specs.Marks.{label_on_map_b};

mod refusal;
mod writing;

pub use refusal::Refusal;
pub use writing::copy_to;

// The most points of a sheet.
pub const MOST_POINTS: usize = 32;

// The bytes of the largest sheet, 10 + 6 · 32.
pub const SHEET_ROOM: usize = 202;

// The bytes of the largest plate, 12 + 8 · 32: what a making asks for at most.
pub const PLATE_ROOM: usize = 268;

// The 16-bit numbers of workspace that a making and a load ask for.
pub const WORKSPACE_CELLS: usize = 32768;

// "for each outside point from the highest row down, its position and its margin column, a byte each": a pair of the outside section.
#[derive(Clone, Copy)]
pub struct Pair {
    pub position: u8,
    pub margin: u8,
}

// The byte at a place, 0 past the end.
pub fn byte_at(bytes: &[u8], at: usize) -> u8
    ensures { result ≡ get_or bytes.now at 0 }
{
    bytes.get(at).copied().unwrap_or(0)
}

// The two-byte number at a place, low byte first, where both bytes are there: by itself, since `two_bytes` reads one after the other where
// this stands in it, and checking a sheet takes longer.
#[tactic(auto, unfolding(crate::specs::Sheet::two_bytes))]
fn both_bytes(bytes: &[u8], at: usize) -> u16
    requires { at + 1 < length bytes.now }
    ensures { result ≡ two_bytes bytes.now at }
{
    u16::from_le_bytes([bytes[at], bytes[at + 1]])
}

// The two-byte number at a place of at most 65,535, low byte first. A byte past the end is 0.
#[tactic(auto, unfolding(crate::specs::Sheet::two_bytes))]
fn two_bytes(bytes: &[u8], at: usize) -> u16
    requires { at < 65536 }
    ensures { result ≡ two_bytes bytes.now at }
{
    if at + 1 < bytes.len() {
        both_bytes(bytes, at)
    } else {
        u16::from(byte_at(bytes, at))
    }
}

// THE FIELDS, each `two_bytes` at its place, under the documents' names.

pub fn map_width(sheet: &[u8]) -> u16
    ensures { result ≡ map_width sheet.now }
{
    two_bytes(sheet, 1)
}

pub fn map_height(sheet: &[u8]) -> u16
    ensures { result ≡ map_height sheet.now }
{
    two_bytes(sheet, 3)
}

pub fn label_width(sheet: &[u8]) -> u16
    ensures { result ≡ label_width sheet.now }
{
    two_bytes(sheet, 5)
}

pub fn label_height(sheet: &[u8]) -> u16
    ensures { result ≡ label_height sheet.now }
{
    two_bytes(sheet, 7)
}

pub fn point_count(sheet: &[u8]) -> u8
    ensures { result ≡ point_count sheet.now }
{
    byte_at(sheet, 9)
}

// The sheet's bytes that its point count asks for.
pub fn sheet_length(sheet: &[u8]) -> usize
    ensures { (result ≡ sheet_length sheet.now) × (result < 2000) }
{
    10 + 6 * usize::from(point_count(sheet))
}

pub fn call_number(sheet: &[u8], position: u8) -> u16
    ensures { result ≡ call_number sheet.now position }
{
    two_bytes(sheet, 10 + 6 * usize::from(position))
}

pub fn column(sheet: &[u8], position: u8) -> u16
    ensures { result ≡ column_of sheet.now position }
{
    two_bytes(sheet, 12 + 6 * usize::from(position))
}

pub fn row(sheet: &[u8], position: u8) -> u16
    ensures { result ≡ row_of sheet.now position }
{
    two_bytes(sheet, 14 + 6 * usize::from(position))
}

// `a` is less than `length` above `b`, or below it.
pub fn within(a: u16, b: u16, length: u16) -> bool
    ensures { result ≡ ltb a (b + length) }
{
    u32::from(a) < u32::from(b) + u32::from(length)
}

// A stretch of `length` from `start` on ends at `end` or before: `!within(end, start, length)`, said the right way round.
fn ends_by(start: u16, length: u16, end: u16) -> bool
    ensures { result ≡ leb (start + length) end }
{
    u32::from(start) + u32::from(length) <= u32::from(end)
}

// The label of a position, put inside, is on the map.
pub fn label_on_map(sheet: &[u8], position: u8) -> bool
    ensures { result ≡ label_on_map_b (points_of sheet.now) position }
{
    ends_by(
        column(sheet, position),
        label_width(sheet),
        map_width(sheet),
    ) && ends_by(row(sheet, position), label_height(sheet), map_height(sheet))
}

// The row `lower` is at most `height` below the row `upper`, or above it.
fn close_below(upper: u16, lower: u16, height: u16) -> bool
    ensures { result ≡ leb upper (lower + height) }
{
    u32::from(upper) <= u32::from(lower) + u32::from(height)
}

// The margin column of the outside position that comes next after the position `previous` in the margin column `margin`.
#[tactic(auto, unfolding(labeling::specs::Points::next_margin))]
pub fn next_margin(sheet: &[u8], previous: u8, margin: u8, position: u8) -> u16
    ensures { result ≡ next_margin (points_of sheet.now) previous margin position }
{
    if close_below(
        row(sheet, previous),
        row(sheet, position),
        label_height(sheet),
    ) {
        u16::from(margin) + 1
    } else {
        0
    }
}
