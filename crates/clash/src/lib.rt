// The first clash of a choice.
#![tactic(auto)]

ghost use Rattle.std.specs.Prelude.{◌≡◌, ◌<◌, eqb};
ghost use Rattle.labeling.specs.Conflicts.{overlap_b, hits_b};
ghost use Rattle.format.specs.Sheet.{point_count, row as row_of, points_of};
ghost use Rattle.format.specs.Plate.{choice_of};
ghost use Rattle.format.specs.Stretches.{stretches_overlap};
ghost use Rattle.clash.specs.FirstClash.{pair_clash, own_clash, later_clash, clash_of, first_clash};
ghost use Rattle.clash.specs.ChoiceFlags.{held, flags_of};

use format::{column, label_height, label_on_map, label_width, point_count, row, within};

// Whether two labels met, a label met a leader, a label leaves the map, or two leaders met.
#[derive(Clone, Copy)]
pub enum ClashKind {
    Labels,
    LabelAndLeader,
    Overhang,
    TwoLeaders,
}

// The two positions that clash and how. An overhang is a clash of a position with itself.
#[derive(Clone, Copy)]
pub struct Clash {
    pub first: u8,
    pub second: u8,
    pub kind: ClashKind,
}

// The choice with just the listed positions inside, a flag for each position.
pub fn choice_of(list: &[u8]) -> [bool; 256]
    ensures { result ≡ flags_of list.now }
{
    let mut inside = [false; 256];
    for position in list {
        inside[usize::from(*position)] = true;
    }
    inside
}

// Two stretches of one length, from `a` and from `b`, share a place.
fn stretches_overlap(a: u16, b: u16, length: u16) -> bool
    ensures { result ≡ stretches_overlap a b length }
{
    within(a, b, length) && within(b, a, length)
}

// The labels of two positions share a pixel.
fn labels_overlap(sheet: &[u8], i: u8, j: u8) -> bool
    ensures { result ≡ overlap_b (points_of sheet.now) i j }
{
    stretches_overlap(column(sheet, i), column(sheet, j), label_width(sheet))
        && stretches_overlap(row(sheet, i), row(sheet, j), label_height(sheet))
}

// The label of position i shares a pixel with the leader of position j.
fn label_hits_leader(sheet: &[u8], i: u8, j: u8) -> bool
    ensures { result ≡ hits_b (points_of sheet.now) i j }
{
    let low = row(sheet, i);
    let leader = row(sheet, j);
    low <= leader
        && within(leader, low, label_height(sheet))
        && column(sheet, i) <= column(sheet, j)
}

// The leaders of two positions share pixels: they are in one row.
fn leaders_meet(sheet: &[u8], i: u8, j: u8) -> bool
    ensures { result ≡ eqb (row_of sheet.now i) (row_of sheet.now j) }
{
    row(sheet, i) == row(sheet, j)
}

// A sheet and a choice of its points: for each position that a byte can name, whether it is inside.
#[derive(Clone, Copy)]
pub struct SheetChoice<'a> {
    pub sheet: &'a [u8],
    pub inside: [bool; 256],
}

impl SheetChoice<'_> {
    // The clash of two positions.
    #[tactic(auto, unfolding(crate::specs::FirstClash::pair_clash))]
    fn pair_clash(&self, i: u8, j: u8) -> Option<Clash>
        ensures { result ≡ pair_clash (points_of self.now.sheet.now) (held self.now.inside) i j }
    {
        let (met, kind) = match (self.inside[usize::from(i)], self.inside[usize::from(j)]) {
            (true, true) => (labels_overlap(self.sheet, i, j), ClashKind::Labels),
            (true, false) => (
                label_hits_leader(self.sheet, i, j),
                ClashKind::LabelAndLeader,
            ),
            (false, true) => (
                label_hits_leader(self.sheet, j, i),
                ClashKind::LabelAndLeader,
            ),
            (false, false) => (leaders_meet(self.sheet, i, j), ClashKind::TwoLeaders),
        };
        met.then_some(Clash {
            first: i,
            second: j,
            kind,
        })
    }

    // The clash of a position with itself: it is inside and its label leaves the map.
    #[tactic(auto, unfolding(crate::specs::FirstClash::own_clash))]
    fn own_clash(&self, position: u8) -> Option<Clash>
        ensures { result ≡ own_clash (points_of self.now.sheet.now) (held self.now.inside) position }
    {
        let overhangs = self.inside[usize::from(position)] && !label_on_map(self.sheet, position);
        overhangs.then_some(Clash {
            first: position,
            second: position,
            kind: ClashKind::Overhang,
        })
    }

    // The clash of a position with the smallest position above it that it clashes with.
    fn later_clash(&self, first: u8) -> Option<Clash>
        requires { first < point_count self.now.sheet.now }
        ensures { result ≡ later_clash (points_of self.now.sheet.now) (held self.now.inside) first }
    {
        let n = point_count(self.sheet);
        (first + 1..n).find_map(|second| self.pair_clash(first, second))
    }

    // The clash of a position with itself, or else with the smallest position above it that it clashes with.
    #[tactic(auto, unfolding(crate::specs::FirstClash::clash_of))]
    fn clash_of(&self, first: u8) -> Option<Clash>
        requires { first < point_count self.now.sheet.now }
        ensures { result ≡ clash_of (points_of self.now.sheet.now) (held self.now.inside) first }
    {
        // No `or_else`: the check knows nothing of what its closure gives, which borrows self. And no `or`, which looks for both.
        match self.own_clash(first) {
            None => self.later_clash(first),
            own => own,
        }
    }

    // The first clash.
    fn first_clash(&self) -> Option<Clash>
        ensures { result ≡ first_clash (points_of self.now.sheet.now) (held self.now.inside) }
    {
        (0..point_count(self.sheet)).find_map(|first| self.clash_of(first))
    }
}

// The first clash of the choice with the listed positions inside.
pub fn first_clash(sheet: &[u8], list: &[u8]) -> Option<Clash>
    ensures { result ≡ first_clash (points_of sheet.now) (choice_of list.now) }
{
    let choice = SheetChoice {
        sheet,
        inside: choice_of(list),
    };
    choice.first_clash()
}
