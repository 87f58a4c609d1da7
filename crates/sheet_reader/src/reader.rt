// "A sheet is walked by a reader that keeps the sheet's bytes and the next place."
// The work is done by functions on the sheet and a position. The reader's methods take it apart and call those. Who walks a sheet takes
// the points one by one from the reader, an iterator over them.
ghost use Rattle.std.specs.Prelude.{◌≡◌};
ghost use Rattle.sheet_reader.specs.Reader.{point_at, left_at, place_after, reader_at, moved_on, walked};
ghost use Rattle.std.specs.Iterator.{at_most};

use format::{call_number, column, point_count, row};

// "per point its call number, column and row (two bytes each)"
#[derive(Clone, Copy)]
pub struct SheetPoint {
    pub call_number: u16,
    pub column: u16,
    pub row: u16,
}

// "a reader that keeps the sheet's bytes and the next place": `next` is the position of the next point.
#[derive(Clone, Copy)]
pub struct SheetReader<'a> {
    pub sheet: &'a [u8],
    pub next: u8,
}

// ON THE SHEET AND A POSITION

// The point at a position.
pub fn point_at(sheet: &[u8], position: u8) -> SheetPoint
    ensures { result ≡ point_at sheet.now position }
{
    SheetPoint {
        call_number: call_number(sheet, position),
        column: column(sheet, position),
        row: row(sheet, position),
    }
}

// How many points are left from a position on, 0 past the end.
pub fn left_at(sheet: &[u8], position: u8) -> u8
    ensures { result ≡ left_at sheet.now position }
{
    point_count(sheet).saturating_sub(position)
}

// The position after a point; the position itself where no point is left.
pub fn place_after(sheet: &[u8], position: u8) -> u8
    ensures { result ≡ place_after sheet.now position }
{
    if position < point_count(sheet) {
        position + 1
    } else {
        position
    }
}

// OVER THE READER

impl<'a> SheetReader<'a> {
    // A reader of a sheet that stands at a position.
    pub fn at(sheet: &'a [u8], position: u8) -> SheetReader<'a>
        ensures { result ≡ reader_at sheet.entry position }
    {
        SheetReader {
            sheet,
            next: position,
        }
    }

    // How many points are left.
    pub fn left(self) -> u8
        ensures { result ≡ left_at self.entry.sheet.now self.entry.next }
    {
        left_at(self.sheet, self.next)
    }

    // The next point.
    pub fn next_point(self) -> SheetPoint
        ensures { result ≡ point_at self.entry.sheet.now self.entry.next }
    {
        point_at(self.sheet, self.next)
    }

    // The reader past its next point; where no point is left it stays.
    pub fn moved(self) -> SheetReader<'a>
        ensures { result ≡ moved_on self.entry }
    {
        SheetReader {
            sheet: self.sheet,
            next: place_after(self.sheet, self.next),
        }
    }
}

// The points from the reader's place on, each with its position.
impl<'a> Iterator for SheetReader<'a> {
    type Item = (u8, SheetPoint);

    ghost next_gives = { λ reader item after. (item ≡ walked reader) × (after ≡ moved_on reader) };

    ghost remaining = { λ reader. at_most (left_at reader.sheet.now reader.next) };

    fn next(&mut self) -> Option<(u8, SheetPoint)> {
        if self.left() == 0 {
            return None;
        }
        let here = (self.next, self.next_point());
        *self = self.moved();
        Some(here)
    }
}
