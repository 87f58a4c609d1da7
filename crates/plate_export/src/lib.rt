// The calls for other languages, over numbers, slices and plain structs: C's names, a number for a refusal or a kind, 0 for none. No byte of
// a struct is left unset: a spare field stands where C's alignment would leave some. It is 0 in what is returned, in a desk after any calls
// from desk_new on.
#![tactic(auto)]

ghost use Rattle.std.specs.Prelude.{◌≡◌};
ghost use Rattle.format.specs.Answers.{no_of};
ghost use Rattle.format.specs.Sheet.{sheet_no};
ghost use Rattle.format.specs.MakingQuestions.{workspace_after};
ghost use Rattle.desk.specs.Desk.{fresh, load_of, mark_of};
ghost use Rattle.lines.specs.Writing.{PrintsListing};
ghost use Rattle.plate_export.specs.Exported.{MakingExported, ReadingExported};
ghost use Rattle.plate_export.specs.ExportedDesk.{load_reply, kind_number, mark_reply};

use clash::ClashKind;
use desk::{After, Desk, Marked, Verdict};
use format::{Refusal, point_count};

// The number of an answer's first no, 0 where nothing is refused.
fn number_of<A>(answer: &Result<A, Refusal>) -> u32
    ensures { result ≡ no_of answer.now }
{
    match answer {
        Ok(_) => 0,
        Err(no) => u32::from(u8::from(*no)),
    }
}

// The number of the first no of a sheet, 0 if it is accepted: sheet_reader::check_sheet.
#[unsafe(no_mangle)]
pub extern "C" fn plate_check_sheet(sheet: &[u8]) -> u32
    ensures { result ≡ sheet_no sheet.now }
{
    number_of(&sheet_reader::check_sheet(sheet))
}

// What plate_make and plate_make_ranked answer: the number of the first no, 0 where a plate is made; and the written length, 0 on a
// refusal.
#[repr(C)]
#[derive(Clone, Copy)]
pub struct MakeResult {
    pub number: u32,
    pub spare: u32,
    pub written: u64,
}

// The answer of a making.
impl From<Result<usize, Refusal>> for MakeResult {
    ghost use Rattle.std.specs.Prelude.{◌≡◌};
    ghost use Rattle.plate_export.specs.Exported.{make_reply};

    ghost from_gives = { λ answer reply. reply ≡ make_reply answer };

    fn from(answer: Result<usize, Refusal>) -> MakeResult {
        MakeResult {
            number: number_of(&answer),
            spare: 0,
            written: answer.unwrap_or(0) as u64, // of a usize there is no `From`
        }
    }
}

// plate_maker::make.
#[unsafe(no_mangle)]
pub extern "C" fn plate_make(sheet: &[u8], output: &mut [u8], workspace: &mut [u16]) -> MakeResult
    ensures { MakingExported sheet.now None output.old workspace.old result
        output.new workspace.new }
{
    MakeResult::from(plate_maker::make(sheet, output, workspace))
}

// plate_maker::make_ranked.
#[unsafe(no_mangle)]
pub extern "C" fn plate_make_ranked(
    sheet: &[u8],
    ranks: &[u8],
    output: &mut [u8],
    workspace: &mut [u16],
) -> MakeResult
    ensures { MakingExported sheet.now (Some ranks.now) output.old workspace.old result
        output.new workspace.new }
{
    MakeResult::from(plate_maker::make_ranked(sheet, ranks, output, workspace))
}

// What plate_read answers: the number of the first no, 0 where the plate is accepted; where the inside list starts in the plate, and how
// many bytes it has, both 0 on a refusal.
#[repr(C)]
#[derive(Clone, Copy)]
pub struct ReadResult {
    pub number: u32,
    pub spare: u32,
    pub inside_start: u64,
    pub inside_count: u64,
}

// plate_reader::read_plate.
#[unsafe(no_mangle)]
pub extern "C" fn plate_read(plate: &[u8]) -> ReadResult
    ensures { ReadingExported plate.now result }
{
    match plate_reader::read_plate(plate) {
        Ok(count) => ReadResult {
            number: 0,
            spare: 0,
            inside_start: 11 + 6 * u64::from(point_count(plate)),
            inside_count: u64::from(count),
        },
        Err(no) => ReadResult {
            number: u32::from(u8::from(no)),
            spare: 0,
            inside_start: 0,
            inside_count: 0,
        },
    }
}

// lines::listing: the length of the listing, 0 where the buffer is too short for it.
#[unsafe(no_mangle)]
pub extern "C" fn plate_listing(plate: &[u8], buffer: &mut [u8]) -> usize
    ensures { PrintsListing plate.now buffer.old result buffer.new }
{
    lines::listing(plate, buffer)
}

// What desk_load and desk_load_ranked answer: the desk after the load, and the number of the first no, 0 where the sheet is loaded.
#[repr(C)]
#[derive(Clone, Copy)]
pub struct DeskLoadResult {
    pub desk: Desk,
    pub number: u32,
}

// What desk_mark answers: the desk after it, and the number of the first no, 0 where the list is marked. Then the list's number, and the
// verdict: 1 for valid, with the sum of ranks and the shortfall; 2 for a clash of two labels, 3 for one of a label and a leader, 4 for a
// label that leaves the map, 5 for a clash of two leaders, with the two positions. All else is 0.
#[repr(C)]
#[derive(Clone, Copy)]
pub struct DeskMarkResult {
    pub desk: Desk,
    pub number: u32,
    pub list_number: u32,
    pub verdict: u32,
    pub sum: u32,
    pub shortfall: u32,
    pub first: u32,
    pub second: u32,
}

// The number of a clash's kind, for C.
fn kind_number(kind: ClashKind) -> u32
    ensures { result ≡ kind_number kind }
{
    match kind {
        ClashKind::Labels => 2,
        ClashKind::LabelAndLeader => 3,
        ClashKind::Overhang => 4,
        ClashKind::TwoLeaders => 5,
    }
}

// What a load gives.
impl From<After<Result<(), Refusal>>> for DeskLoadResult {
    ghost use Rattle.std.specs.Prelude.{◌≡◌};
    ghost use Rattle.plate_export.specs.ExportedDesk.{load_reply};

    ghost from_gives = { λ loaded reply. reply ≡ load_reply loaded };

    fn from(loaded: After<Result<(), Refusal>>) -> DeskLoadResult {
        DeskLoadResult {
            desk: loaded.desk,
            number: number_of(&loaded.answer),
        }
    }
}

// What a mark gives.
impl From<After<Result<Marked, Refusal>>> for DeskMarkResult {
    ghost use Rattle.std.specs.Prelude.{◌≡◌};
    ghost use Rattle.plate_export.specs.ExportedDesk.{mark_reply};

    ghost from_gives = { λ marked reply. reply ≡ mark_reply marked };

    fn from(marked: After<Result<Marked, Refusal>>) -> DeskMarkResult {
        let blank = DeskMarkResult {
            desk: marked.desk,
            number: number_of(&marked.answer),
            list_number: 0,
            verdict: 0,
            sum: 0,
            shortfall: 0,
            first: 0,
            second: 0,
        };
        let Ok(Marked { number, verdict }) = marked.answer else {
            return blank;
        };
        let listed = DeskMarkResult {
            list_number: u32::from(number),
            ..blank
        };
        match verdict {
            Verdict::Valid { sum, shortfall } => DeskMarkResult {
                verdict: 1,
                sum: u32::from(sum),
                shortfall: u32::from(shortfall),
                ..listed
            },
            Verdict::Clash {
                first,
                second,
                kind,
            } => DeskMarkResult {
                verdict: kind_number(kind),
                first: u32::from(first),
                second: u32::from(second),
                ..listed
            },
        }
    }
}

// desk::Desk::new.
#[unsafe(no_mangle)]
pub extern "C" fn desk_new() -> Desk
    ensures { result ≡ fresh }
{
    Desk::new()
}

// desk::Desk::load.
#[unsafe(no_mangle)]
pub extern "C" fn desk_load(desk: Desk, sheet: &[u8], workspace: &mut [u16]) -> DeskLoadResult
    ensures value { result ≡ load_reply (load_of desk sheet.now None workspace.old) }
    ensures workspace_after { workspace.new ≡ workspace_after result.number workspace.old }
{
    DeskLoadResult::from(desk.load(sheet, workspace))
}

// desk::Desk::load_ranked.
#[unsafe(no_mangle)]
pub extern "C" fn desk_load_ranked(
    desk: Desk,
    sheet: &[u8],
    ranks: &[u8],
    workspace: &mut [u16],
) -> DeskLoadResult
    ensures value { result ≡ load_reply (load_of desk sheet.now (Some ranks.now) workspace.old) }
    ensures workspace_after { workspace.new ≡ workspace_after result.number workspace.old }
{
    DeskLoadResult::from(desk.load_ranked(sheet, ranks, workspace))
}

// desk::Desk::mark.
#[unsafe(no_mangle)]
pub extern "C" fn desk_mark(desk: Desk, list: &[u8]) -> DeskMarkResult
    ensures { result ≡ mark_reply (mark_of desk list.now) }
{
    DeskMarkResult::from(desk.mark(list))
}
