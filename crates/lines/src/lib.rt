// What the programs print, as bytes in a lent buffer. Each call answers the length of its text; or the buffer is too short for it, nothing
// is written, and the answer is 0. No text is empty, so 0 says so, as `Prints` has it, and C gets `listing`'s answer as it is.
#![tactic(auto)]

ghost use Rattle.std.specs.Prelude.{ℕ, Result};
ghost use Rattle.desk.specs.declared.Marked.{Marked as MarkedList};
ghost use Rattle.lines.specs.Rooms.{line_room};
ghost use Rattle.lines.specs.Numbered.{ByNumber};
ghost use Rattle.lines.specs.DeskLines.{refusal_line, load_line, mark_line};
ghost use Rattle.lines.specs.Writing.{Prints, PrintsListing};

use desk::{Desk, Marked};
use desk_lines::{loaded, marked, refusal};
use plate_lines::add_listing;
use text::Text;

mod desk_lines;
mod margins;
mod plate_lines;
mod points;
mod text;

// Room for every line but those of a listing.
pub const LINE_ROOM: usize = 33;

// Room for every listing: line one has at most 24 bytes, and each of at most 255 points at most 16.
const LISTING_ROOM: usize = 24 + 16 * 255;

// The listing of a plate: points, inside count and margin columns used; then each point in sheet order. For n points 24 + 16 · n bytes are
// enough.
pub fn listing(plate: &[u8], buffer: &mut [u8]) -> usize
    ensures { PrintsListing plate.now buffer.old result buffer.new }
{
    let mut text = Text::new();
    add_listing(&mut text, plate);
    text.print(buffer)
}

// The line of a refusal with this number: any byte, since its promise is about every number.
pub fn refusal_line(no: u8, buffer: &mut [u8]) -> usize
    ensures { Prints 14 (refusal_line no) buffer.old result buffer.new }
{
    refusal(no).print(buffer)
}

// The line of a refusal that an answer has: of a `Refusal`, or of its number, any byte, as with refusal_line.
fn refused_line<N: Into<u8>>(refusal: N, buffer: &mut [u8]) -> usize
    ensures { (k : ℕ) × N.converts refusal k × Prints 14 (refusal_line k) buffer.old result buffer.new }
{
    refusal_line(refusal.into(), buffer)
}

// The line of a load with this answer, which gave the desk.
pub fn load_line<N: Into<u8>>(answer: Result<(), N>, desk: Desk, buffer: &mut [u8]) -> usize
    ensures { (by_number : Result (Unit {0}) ℕ) × ByNumber N.converts answer by_number
        × Prints line_room (load_line by_number desk) buffer.old result buffer.new }
{
    match answer {
        Ok(()) => loaded(desk).print(buffer),
        Err(refusal) => refused_line(refusal, buffer),
    }
}

// The line of a mark with this answer.
pub fn mark_line<N: Into<u8>>(answer: Result<Marked, N>, buffer: &mut [u8]) -> usize
    ensures { (by_number : Result MarkedList ℕ) × ByNumber N.converts answer by_number
        × Prints line_room (mark_line by_number) buffer.old result buffer.new }
{
    match answer {
        Ok(Marked { number, verdict }) => marked(number, verdict).print(buffer),
        Err(refusal) => refused_line(refusal, buffer),
    }
}
