// The plate maker: the best plate of a sheet, by the rank list that is lent beside it, if any.
#![tactic(auto)]

ghost use Rattle.std.specs.Prelude.{◌≡◌, option_copied};
ghost use Rattle.format.specs.MakingQuestions.{output_fits};
ghost use Rattle.plate_maker.specs.Making.{Making};

use format::Refusal;
use optimum::best_choice;
use writing::write_split;

mod writing;

// An output of `room` bytes has at least 12 + 8n.
fn output_fits(sheet: &[u8], room: usize) -> bool
    ensures { result ≡ output_fits sheet.now room }
{
    let needed = 12 + 8 * usize::from(format::point_count(sheet));
    needed <= room
}

// Makes the best plate of the sheet, by the rank list if one is lent, at the start of the output, and answers its length. Sheet and list go side
// by side from here down: a struct of the two would be made here and taken apart at each call.
pub fn make_with(
    sheet: &[u8],
    ranks: Option<&[u8]>,
    output: &mut [u8],
    workspace: &mut [u16],
) -> Result<usize, Refusal>
    ensures { Making sheet.now (option_copied ranks.entry) output.old workspace.old
        result output.new workspace.new }
{
    let fits = output_fits(sheet, output.len());
    let choice = best_choice(sheet, ranks, fits, workspace)?;
    Ok(write_split(sheet, choice, output))
}

// Makes the best plate of the sheet at the start of the output. No list is lent: every rank is 1.
pub fn make(sheet: &[u8], output: &mut [u8], workspace: &mut [u16]) -> Result<usize, Refusal>
    ensures { Making sheet.now None output.old workspace.old
        result output.new workspace.new }
{
    make_with(sheet, None, output, workspace)
}

// Makes the best plate of the sheet by the ranks of the list, at the start of the output.
pub fn make_ranked(
    sheet: &[u8],
    ranks: &[u8],
    output: &mut [u8],
    workspace: &mut [u16],
) -> Result<usize, Refusal>
    ensures { Making sheet.now (Some ranks.now) output.old workspace.old
        result output.new workspace.new }
{
    make_with(sheet, Some(ranks), output, workspace)
}
