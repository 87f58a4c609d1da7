// What a load puts into the desk.
ghost use Rattle.std.specs.Prelude.{◌≡◌, ◌≤◌, length, option_copied};
ghost use Rattle.labeling.specs.Best.{best_sum};
ghost use Rattle.format.specs.Answers.{answered};
ghost use Rattle.format.specs.MakingQuestions.{load_no, workspace_after};
ghost use Rattle.format.specs.Padded.{padded};
ghost use Rattle.format.specs.Sheet.{points_of};
ghost use Rattle.format.specs.Sizes.{most_points, sheet_room};
ghost use Rattle.format.specs.RankList.{rank_in};
ghost use Rattle.desk.specs.Desk.{nothing_held, ranks_below, ranks_held, held_of, Loading};

use crate::sums::inside_sum;
use crate::{After, Desk, Held};
use format::{MOST_POINTS, PLATE_ROOM, Refusal, SHEET_ROOM};
use plate_maker::make_with;
use rank_list::rank_of;

// The bytes of a sheet, and zeros past its end.
fn padded_sheet(sheet: &[u8]) -> [u8; SHEET_ROOM]
    requires { length sheet.now ≤ sheet_room }
    ensures { result ≡ padded sheet_room sheet.now }
{
    let mut bytes = [0; SHEET_ROOM];
    bytes[..sheet.len()].copy_from_slice(sheet);
    bytes
}

// The ranks of n points, by position, and zeros past them.
#[tactic(auto, using(crate::proofs::Laws::no_ranks_padded, crate::proofs::Loaded::ranks_more), unfolding(crate::specs::Desk::no_ranks))]
fn padded_ranks(ranks: Option<&[u8]>, n: u8) -> [u8; MOST_POINTS]
    requires { n ≤ most_points }
    ensures { result ≡ padded most_points (ranks_below (rank_in (option_copied ranks.entry)) n) }
{
    let mut bytes = [0; MOST_POINTS];
    // Over the positions, of which `rank_of` is asked; past them the bytes stay 0.
    for position in 0..n {
        bytes[usize::from(position)] = rank_of(ranks, position);
    }
    bytes
}

impl Held {
    // What a desk without a sheet holds.
    #[tactic(auto, unfolding(crate::specs::Desk::no_sheet, crate::specs::Desk::no_ranks))]
    pub(crate) fn nothing() -> Held
        ensures { result ≡ nothing_held }
    {
        Held {
            sheet: [0; SHEET_ROOM],
            ranks: [0; MOST_POINTS],
            loaded: false,
            spare: 0,
            best: 0,
        }
    }

    // What a load of the sheet, with the ranks of the list if one is lent, puts there: its best sum is that of the inside positions of its
    // best plate.
    fn of(sheet: &[u8], ranks: Option<&[u8]>, workspace: &mut [u16]) -> Result<Held, Refusal>
        ensures held { let s = sheet.now in let l = option_copied ranks.entry in
            result ≡ answered (load_no s l (length workspace.old)) (held_of s (ranks_held s l) (best_sum (points_of s) (rank_in l))) }
        ensures workspace { workspace.new
            ≡ workspace_after (load_no sheet.now (option_copied ranks.entry) (length workspace.old)) workspace.old }
    {
        let mut plate = [0; PLATE_ROOM];
        make_with(sheet, ranks, &mut plate, workspace)?;
        let ranks = padded_ranks(ranks, format::point_count(sheet));
        let best = inside_sum(&ranks, &plate);
        Ok(Held {
            sheet: padded_sheet(sheet),
            ranks,
            loaded: true,
            spare: 0,
            best,
        })
    }
}

impl Desk {
    // Loads a sheet, with the ranks of the list if one is lent.
    pub(crate) fn load_with(
        self,
        sheet: &[u8],
        ranks: Option<&[u8]>,
        workspace: &mut [u16],
    ) -> After<Result<(), Refusal>>
        ensures { Loading self sheet.now (option_copied ranks.entry) workspace.old result
            workspace.new }
    {
        match Held::of(sheet, ranks, workspace) {
            Ok(held) => After {
                desk: Desk { held, ..self },
                answer: Ok(()),
            },
            Err(refusal) => After {
                desk: self,
                answer: Err(refusal),
            },
        }
    }
}
