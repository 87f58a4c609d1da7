// Runs a script, for the programs desk_session and conformance: its calls, each with a line on standard output.
#![tactic(auto)]

ghost use Rattle.std.specs.Prelude.{◌≡◌, option_copied};
ghost use Rattle.desk.specs.Desk.{Loading};
ghost use Rattle.session.specs.Session.{Runs, Reached, desk_after_call, desk_call, load_call, mark_call};

use desk::{After, Desk};
use format::{Refusal, WORKSPACE_CELLS};
use lines::{LINE_ROOM, load_line, mark_line};
use plates::{run_plate, run_sheet};
use script::{CallKind, Kinds, Stop, read_call};
use std::io::Read;
use streams::{Failed, write_output};

mod plates;

// A call and its parts; one that the call doesn't have is empty.
#[derive(Clone, Copy)]
struct Request<'a> {
    kind: CallKind,
    first: &'a [u8],
    second: &'a [u8],
}

// Writes a text to standard output, all of it unless a write fails.
fn print(rt: &(impl Print + Eprint), text: &[u8]) -> Result<(), Failed> {
    if write_output(rt, text) < text.len() {
        return Err(Failed);
    }
    Ok(())
}

// Loads a sheet, with a rank list or without: one of the desk's two loads.
fn load(
    desk: Desk,
    sheet: &[u8],
    ranks: Option<&[u8]>,
    workspace: &mut [u16],
) -> After<Result<(), Refusal>>
    ensures { Loading desk sheet.now (option_copied ranks.entry) workspace.old result workspace.new }
{
    match ranks {
        None => desk.load(sheet, workspace),
        Some(ranks) => desk.load_ranked(sheet, ranks, workspace),
    }
}

// Runs a load: the length of the call's line. The workspace is zeros.
fn run_load(desk: &mut Desk, sheet: &[u8], ranks: Option<&[u8]>, line: &mut [u8]) -> usize
    ensures { Runs (load_call desk.old sheet.now (option_copied ranks.entry)) line.old desk.new result line.new }
{
    let mut workspace = [0u16; WORKSPACE_CELLS];
    let after = load(*desk, sheet, ranks, &mut workspace);
    *desk = after.desk;
    load_line(after.answer, after.desk, line)
}

// Runs a mark: the length of the call's line.
fn run_mark(desk: &mut Desk, list: &[u8], line: &mut [u8]) -> usize
    ensures { Runs (mark_call desk.old list.now) line.old desk.new result line.new }
{
    let after = desk.mark(list);
    *desk = after.desk;
    mark_line(after.answer, line)
}

// Loads a sheet, or a sheet with a rank list; every other kind marks a list. The length of the call's line.
fn run_call(desk: &mut Desk, call: Request<'_>, line: &mut [u8]) -> usize
    ensures { Runs (desk_call desk.old call.entry.kind call.entry.first.now call.entry.second.now) line.old desk.new result line.new }
{
    match call.kind {
        CallKind::Load => run_load(desk, call.first, None, line),
        CallKind::LoadRanked => run_load(desk, call.first, Some(call.second), line),
        _ => run_mark(desk, call.first, line),
    }
}

// Writes a line to standard output. What it asks says that the line is the call's, on this desk.
fn write_line(
    rt: &(impl Print + Eprint),
    desk: Desk,
    call: Request<'_>,
    line: &[u8],
) -> Result<(), Failed>
    requires { line.now ≡ (desk_call desk call.kind call.first.now call.second.now).text }
{
    print(rt, line)
}

// Runs a call on the desk and writes its line.
fn answer_on_desk(
    rt: &(impl Print + Eprint),
    desk: &mut Desk,
    call: Request<'_>,
) -> Result<(), Failed>
    ensures { desk.new ≡ (desk_call desk.old call.entry.kind call.entry.first.now call.entry.second.now).desk }
{
    let mut line = [0u8; LINE_ROOM];
    let before = *desk;
    let n = run_call(desk, call, &mut line);
    write_line(rt, before, call, &line[..n])
}

// Runs a call and writes its line.
fn answer(rt: &(impl Print + Eprint), desk: &mut Desk, call: Request<'_>) -> Result<(), Failed>
    ensures { desk.new ≡ desk_after_call desk.old call.entry.kind call.entry.first.now call.entry.second.now }
{
    match call.kind {
        CallKind::Make => run_sheet(rt, call.first, None),
        CallKind::Read => run_plate(rt, call.first),
        CallKind::MakeRanked => run_sheet(rt, call.first, Some(call.second)),
        _ => answer_on_desk(rt, desk, call),
    }
}

// Runs the calls of a script to its end, on this desk. The count of turns is there so that the loop ends for certain: no script has as many
// calls.
fn run_calls(
    rt: &(impl Print + Eprint),
    input: &mut impl Read,
    kinds: Kinds,
    desk: &mut Desk,
) -> Result<(), Stop>
    requires { Reached desk.old }
    ensures { Reached desk.new }
{
    let mut first = io::large_buffer();
    let mut second = io::large_buffer();
    for _ in 0..u64::MAX {
        let Some(call) = read_call(rt, input, kinds, &mut first, &mut second)? else {
            return Ok(());
        };
        let n = usize::from(call.first);
        let m = usize::from(call.second);
        let request = Request {
            kind: call.kind,
            first: &first[..n],
            second: &second[..m],
        };
        answer(rt, desk, request)?;
    }
    Ok(())
}

// Runs the script on a program's input, which is standard input but in a test, on a fresh desk and writes a line for each call. At a
// call that is cut short, or of none of these kinds, it writes `bad call` and stops. It stops too where a read or a write fails, whose line
// is on standard error. The desk that the calls leave is handed back: which calls they are, no contract can say.
pub fn run(rt: &(impl Print + Eprint), input: &mut impl Read, kinds: Kinds) -> Desk
    ensures { Reached result }
{
    let mut desk = Desk::new();
    if let Err(Stop::Bad) = run_calls(rt, input, kinds, &mut desk) {
        write_output(rt, b"bad call\n");
    }
    desk
}
