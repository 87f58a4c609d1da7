// The marking desk.
#![tactic(auto)]

ghost use Rattle.std.specs.Prelude.{◌≡◌};
ghost use Rattle.desk.specs.Desk.{fresh, Loading, Marking};

use clash::ClashKind;
use format::{MOST_POINTS, Refusal, SHEET_ROOM};

mod loading;
mod marking;
mod sums;

// What a load puts into the desk: the bytes of the sheet, zeros past its end; the ranks of its points, by position, zeros past the last;
// whether a sheet is loaded; and its best sum of ranks. The spare byte stands where C's alignment would leave one unset. It is 0 in a fresh
// desk and in what a load puts there, and goes along otherwise. C reads these fields, so there are arrays, with
// zeros past the end, and a flag that says what an Option would.
#[repr(C)]
#[derive(Clone, Copy)]
pub struct Held {
    pub sheet: [u8; SHEET_ROOM],
    pub ranks: [u8; MOST_POINTS],
    pub loaded: bool,
    pub spare: u8,
    pub best: u16,
}

// A desk: what the last accepted load put there, and the last number given.
#[repr(C)]
#[derive(Clone, Copy)]
pub struct Desk {
    pub held: Held,
    pub last: u16,
}

// What the desk says of a marked list: valid, with its sum of ranks and its shortfall; or a clash, with two positions and its kind, "an enum
// inside the verdict enum's clash case".
#[derive(Clone, Copy)]
pub enum Verdict {
    Valid {
        sum: u16,
        shortfall: u16,
    },
    Clash {
        first: u8,
        second: u8,
        kind: ClashKind,
    },
}

// What mark answers of a marked list: its number and the verdict.
#[derive(Clone, Copy)]
pub struct Marked {
    pub number: u16,
    pub verdict: Verdict,
}

// The desk after a load or a mark, and the answer.
#[derive(Clone, Copy)]
pub struct After<A> {
    pub desk: Desk,
    pub answer: A,
}

impl Desk {
    // A fresh desk: no sheet, and last number 0.
    pub fn new() -> Desk
        ensures { result ≡ fresh }
    {
        Desk {
            held: Held::nothing(),
            last: 0,
        }
    }

    // Loads a sheet: it replaces the desk's sheet and best, and the last number is kept. No list is lent: every rank is 1.
    pub fn load(self, sheet: &[u8], workspace: &mut [u16]) -> After<Result<(), Refusal>>
        ensures { Loading self sheet.now None workspace.old result workspace.new }
    {
        self.load_with(sheet, None, workspace)
    }

    // Loads a sheet with the ranks of a list; all else is as with load.
    pub fn load_ranked(
        self,
        sheet: &[u8],
        ranks: &[u8],
        workspace: &mut [u16],
    ) -> After<Result<(), Refusal>>
        ensures { Loading self sheet.now (Some ranks.now) workspace.old result
            workspace.new }
    {
        self.load_with(sheet, Some(ranks), workspace)
    }

    // Marks a list: it takes the next number and gets a verdict.
    pub fn mark(self, list: &[u8]) -> After<Result<Marked, Refusal>>
        ensures { Marking self list.now result }
    {
        match self.marked(list) {
            Ok(marked) => After {
                desk: Desk {
                    last: marked.number,
                    ..self
                },
                answer: Ok(marked),
            },
            Err(refusal) => After {
                desk: self,
                answer: Err(refusal),
            },
        }
    }
}
