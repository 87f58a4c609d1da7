// The questions of a making before the choice: the sheet's, then 21 and 22, then those of the rank list, if one is lent. How large an
// output must be is the makings' to know, so 21 comes with its answer, `fits`; of the workspace only the length is asked.
#![tactic(auto)]

ghost use Rattle.std.specs.Prelude.{◌≡◌, option_copied};
ghost use Rattle.format.specs.Answers.{no_of};
ghost use Rattle.format.specs.Sheet.{ask};
ghost use Rattle.format.specs.MakingQuestions.{workspace_no, room_no, asked_no};

use format::{Refusal, WORKSPACE_CELLS};
use rank_list::ranks_no;

// The first no of 21, which `fits` answers, and 22: the workspace has `cells` numbers.
fn buffers_no(fits: bool, cells: usize) -> Result<(), Refusal>
    ensures { no_of result ≡ ask fits 21 (workspace_no cells) }
{
    if !fits {
        return Err(Refusal::OutputRoom);
    }
    if cells < WORKSPACE_CELLS {
        return Err(Refusal::WorkspaceRoom);
    }
    Ok(())
}

// The first no of the sheet's questions, 21 and 22.
#[tactic(auto, unfolding(format::specs::MakingQuestions::room_no))]
fn room_no(sheet: &[u8], fits: bool, cells: usize) -> Result<(), Refusal>
    ensures { no_of result ≡ room_no sheet.now fits cells }
{
    sheet_reader::check_sheet(sheet)?;
    buffers_no(fits, cells)
}

// The first no of these, and then the rank list's.
#[tactic(auto, unfolding(format::specs::MakingQuestions::asked_no))]
pub fn asked_no(sheet: &[u8], ranks: Option<&[u8]>, fits: bool, cells: usize) -> Result<(), Refusal>
    ensures { no_of result ≡ asked_no sheet.now (option_copied ranks.entry) fits cells }
{
    room_no(sheet, fits, cells)?;
    ranks_no(ranks, format::point_count(sheet))
}
