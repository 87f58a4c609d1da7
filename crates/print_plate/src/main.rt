// Prints the listing of the best plate of the sheet on standard input, or `refused` and the number of the first no. Where a read or a write
// fails it stops, with a line on standard error.
// The buffer is enough for an input of any length: one byte more than the largest sheet has decides the text (proofs/PrintedStart.antt).
#![tactic(auto)]

ghost use Rattle.std.specs.Prelude.{◌≡◌, ◌≤◌, length, take};
ghost use Rattle.print_plate.specs.PrintedText.{printed_text, text_room};

use format::{PLATE_ROOM, WORKSPACE_CELLS};
use lines::{listing, refusal_line};
use streams::{read_input, write_output};

// Room for the listing of 32 points, 24 + 16 · 32 bytes.
const TEXT_ROOM: usize = 536;

// Makes the best plate of the sheet and writes its listing into the text, or the line of its refusal: the length of what it writes.
fn put_text(sheet: &[u8], text: &mut [u8]) -> usize
    requires { text_room ≤ length text.old }
    ensures { (result ≤ length text.new) × (take result text.new ≡ printed_text sheet.now) }
{
    let mut output = [0u8; PLATE_ROOM];
    let mut workspace = [0u16; WORKSPACE_CELLS];
    match plate_maker::make(sheet, &mut output, &mut workspace) {
        Ok(written) => listing(&output[..written], text),
        Err(refusal) => refusal_line(u8::from(refusal), text),
    }
}

// Writes the text to standard output. What it asks says that the text is the sheet's.
fn write_text(rt: &(impl Print + Eprint), sheet: &[u8], text: &[u8])
    requires { text.now ≡ printed_text sheet.now }
{
    write_output(rt, text);
}

fn print_plate_of(rt: &(impl Print + Eprint), sheet: &[u8]) {
    let mut text = [0; TEXT_ROOM];
    let n = put_text(sheet, &mut text);
    write_text(rt, sheet, &text[..n]);
}

fn main(rt: HostRuntime) {
    let mut bytes = io::buffer();
    let Ok(n) = read_input(&rt, &mut rt.stdin(), &mut bytes) else {
        return;
    };
    print_plate_of(&rt, &bytes[..n]);
}
