// Reads a script, call by call. A call is a kind byte and its parts, each a two-byte length, low byte first, and that many bytes. `kind_of`
// says which kinds a program knows, and `form` which parts a call of each kind has.
#![tactic(auto)]

ghost use Rattle.std.specs.Prelude.{◌≡◌, ◌≤◌, length};
ghost use Rattle.script.specs.Calls.{form, kind_of};
ghost use Rattle.script.specs.Calls.{CallIn, CallOf, PartIn, PartOf, number_in, part_of};
ghost use Rattle.script.specs.Calls.{BytesTaken, CallTaken, KindTaken, PartTaken, PartsTaken};
ghost use Rattle.script.specs.declared.Stop.TheVariants.{Failed as ReadFailed};

use std::io::Read;
use streams::{Failed, read_input};

// Room for a part of any length.
const PART_ROOM: usize = 65536;

// The kinds that a program knows: those of a desk, or all.
#[derive(Clone, Copy)]
pub enum Kinds {
    Desk,
    All,
}

// What a call asks for: on a desk to load a sheet, to mark a list, or to load a sheet with a rank list; without one to make a plate of a
// sheet, to read a plate, or to make a plate of a sheet with a rank list.
#[derive(Clone, Copy)]
pub enum CallKind {
    Load,
    Mark,
    LoadRanked,
    Make,
    Read,
    MakeRanked,
}

// A call of a known kind, each of whose two parts fills the first bytes of its buffer, none of them if the call has no such part. The lengths stand
// here and no slices, since CallIn and CallTaken speak of the buffers.
#[derive(Clone, Copy)]
pub struct Call {
    pub kind: CallKind,
    pub first: u16,
    pub second: u16,
}

// Why a call isn't read: it is none, because its kind isn't known or a part ends early; or a read failed, whose line is on standard error.
#[derive(Clone, Copy)]
pub enum Stop {
    Bad,
    Failed,
}

impl From<Failed> for Stop {
    ghost from_gives = { λ _ stop. stop ≡ ReadFailed };

    fn from(_: Failed) -> Stop {
        Stop::Failed
    }
}

// How a part stands in a call: not at all, or as its length and its bytes.
#[derive(Clone, Copy)]
enum Part {
    Absent,
    Sized,
}

// The form of a call: how its parts stand in it.
#[derive(Clone, Copy)]
struct Form {
    first: Part,
    second: Part,
}

// KINDS

impl Kinds {
    // The kind of a call whose first byte is this, if the program knows it.
    #[tactic(auto, unfolding(crate::specs::Calls::kind_of))]
    fn kind_of(self, byte: u8) -> Option<CallKind>
        ensures { result ≡ kind_of self byte }
    {
        match (byte, self) {
            (1, _) => Some(CallKind::Load),
            (2, _) => Some(CallKind::Mark),
            (3, _) => Some(CallKind::LoadRanked),
            (11, Kinds::All) => Some(CallKind::Make),
            (12, Kinds::All) => Some(CallKind::Read),
            (13, Kinds::All) => Some(CallKind::MakeRanked),
            _ => None,
        }
    }
}

impl CallKind {
    fn form(self) -> Form
        ensures { result ≡ form self }
    {
        let second = match self {
            CallKind::LoadRanked | CallKind::MakeRanked => Part::Sized,
            _ => Part::Absent,
        };
        Form {
            first: Part::Sized,
            second,
        }
    }
}

// READING

// The number in two bytes, low byte first.
fn number_in(low: u8, high: u8) -> u16
    ensures { result ≡ number_in low high }
{
    u16::from_le_bytes([low, high])
}

// A call's first byte, or None where the input ends.
fn read_kind<R: Read>(rt: &impl Eprint, input: &mut R) -> Result<Option<u8>, Failed>
    ensures { KindTaken (R.remaining input.old) (R.remaining input.new) result }
{
    let mut bytes = [0u8; 1];
    let n = read_input(rt, input, &mut bytes)?;
    Ok((n > 0).then_some(bytes[0]))
}

// What became of a part of `count` bytes, of which `got` were there.
#[tactic(auto, unfolding(crate::specs::Calls::part_of))]
fn part_of(count: u16, got: usize) -> Result<u16, Stop>
    ensures { result ≡ part_of count got }
{
    let n = usize::from(count);
    if got < n {
        return Err(Stop::Bad);
    }
    Ok(count)
}

// A part's bytes, as many as its length says.
#[tactic(auto, unfolding(crate::specs::Calls::part_of))]
fn read_bytes<R: Read>(
    rt: &impl Eprint,
    input: &mut R,
    count: u16,
    buffer: &mut [u8],
) -> Result<u16, Stop>
    requires { count ≤ length buffer.old }
    ensures part { PartOf count buffer.new result }
    ensures bytes { BytesTaken (R.remaining input.old) (R.remaining input.new) buffer.new result }
{
    let n = usize::from(count);
    let got = read_input(rt, input, &mut buffer[..n])?;
    part_of(count, got)
}

// A part's length and its bytes.
fn read_sized<R: Read>(
    rt: &impl Eprint,
    input: &mut R,
    buffer: &mut [u8; PART_ROOM],
) -> Result<u16, Stop>
    ensures part { PartIn Part.Sized buffer.new result }
    ensures bytes { PartTaken (R.remaining input.old) (R.remaining input.new) Part.Sized buffer.new result }
{
    let mut bytes = [0u8; 2];
    let n = read_input(rt, input, &mut bytes)?;
    if n < 2 {
        return Err(Stop::Bad);
    }
    read_bytes(rt, input, number_in(bytes[0], bytes[1]), buffer)
}

// A part, of which nothing is read if the call doesn't have it.
fn read_part<R: Read>(
    rt: &impl Eprint,
    input: &mut R,
    part: Part,
    buffer: &mut [u8; PART_ROOM],
) -> Result<u16, Stop>
    ensures part { PartIn part buffer.new result }
    ensures bytes { PartTaken (R.remaining input.old) (R.remaining input.new) part buffer.new result }
{
    match part {
        Part::Absent => Ok(0),
        Part::Sized => read_sized(rt, input, buffer),
    }
}

// The rest of a call whose first byte was read.
fn read_parts<R: Read>(
    rt: &impl Eprint,
    input: &mut R,
    kind: CallKind,
    first: &mut [u8; PART_ROOM],
    second: &mut [u8; PART_ROOM],
) -> Result<Call, Stop>
    ensures call { CallOf kind first.new second.new result }
    ensures bytes { PartsTaken (R.remaining input.old) (R.remaining input.new) kind first.new second.new result }
{
    let form = kind.form();
    let n = read_part(rt, input, form.first, first)?;
    let m = read_part(rt, input, form.second, second)?;
    Ok(Call {
        kind,
        first: n,
        second: m,
    })
}

// The next call, or None where the input ends before its first byte. Whether its kind is known is asked before anything more is read.
pub fn read_call<R: Read>(
    rt: &impl Eprint,
    input: &mut R,
    kinds: Kinds,
    first: &mut [u8; PART_ROOM],
    second: &mut [u8; PART_ROOM],
) -> Result<Option<Call>, Stop>
    ensures call { CallIn kinds first.new second.new result }
    ensures bytes { CallTaken (R.remaining input.old) (R.remaining input.new) first.new second.new result }
{
    let Some(byte) = read_kind(rt, input)? else {
        return Ok(None);
    };
    let kind = kinds.kind_of(byte).ok_or(Stop::Bad)?;
    let call = read_parts(rt, input, kind, first, second)?;
    Ok(Some(call))
}
