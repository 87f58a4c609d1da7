// The calls without a desk, and their lines on standard output: a sheet made into a plate, with a rank list or without, and a plate read.
ghost use Rattle.std.specs.Prelude.{◌≤◌, length};
ghost use Rattle.std.specs.Result.{ForOk};

use crate::print;
use format::{PLATE_ROOM, Refusal, WORKSPACE_CELLS};
use streams::Failed;

// PIECES OF A LINE

// A number after a space.
fn print_number(rt: &(impl Print + Eprint), number: u8) -> Result<(), Failed> {
    let mut text = [0u8; 20];
    let n = io::decimal(u64::from(number), &mut text);
    print(rt, b" ")?;
    print(rt, &text[..n])
}

fn print_refusal(rt: &(impl Print + Eprint), refusal: Refusal) -> Result<(), Failed> {
    print(rt, b"refused")?;
    print_number(rt, u8::from(refusal))
}

// Each byte as a number.
fn print_bytes(rt: &(impl Print + Eprint), bytes: &[u8]) -> Result<(), Failed> {
    for byte in bytes {
        print_number(rt, *byte)?;
    }
    Ok(())
}

// SHEETS AND PLATES

// The line of a made plate, with all its bytes.
fn print_made(rt: &(impl Print + Eprint), plate: &[u8]) -> Result<(), Failed> {
    print(rt, b"sheet made")?;
    print_bytes(rt, plate)?;
    print(rt, b"\n")
}

fn print_refused_sheet(rt: &(impl Print + Eprint), refusal: Refusal) -> Result<(), Failed> {
    print(rt, b"sheet ")?;
    print_refusal(rt, refusal)?;
    print(rt, b"\n")
}

// The line of a making: the plate is at the start of the output.
fn print_making(
    rt: &(impl Print + Eprint),
    answer: Result<usize, Refusal>,
    output: &[u8],
) -> Result<(), Failed>
    requires { ForOk answer (λ written. written ≤ length output.now) }
{
    match answer {
        Ok(written) => print_made(rt, &output[..written]),
        Err(refusal) => print_refused_sheet(rt, refusal),
    }
}

// A sheet, made into a plate, with a rank list or without.
pub(crate) fn run_sheet(
    rt: &(impl Print + Eprint),
    sheet: &[u8],
    ranks: Option<&[u8]>,
) -> Result<(), Failed> {
    let mut output = [0u8; PLATE_ROOM];
    let mut workspace = [0u16; WORKSPACE_CELLS];
    let answer = plate_maker::make_with(sheet, ranks, &mut output, &mut workspace);
    print_making(rt, answer, &output)
}

fn print_plate_answer(
    rt: &(impl Print + Eprint),
    answer: Result<u8, Refusal>,
) -> Result<(), Failed> {
    match answer {
        Ok(_) => print(rt, b"accepted"),
        Err(refusal) => print_refusal(rt, refusal),
    }
}

// A plate, read: the answer, and the positions that are handed back. Of a refused plate that is its empty start, so none.
pub(crate) fn run_plate(rt: &(impl Print + Eprint), plate: &[u8]) -> Result<(), Failed> {
    print(rt, b"plate ")?;
    print_plate_answer(rt, plate_reader::read_plate(plate))?;
    print_bytes(rt, plate_reader::inside_list(plate))?;
    print(rt, b"\n")
}
