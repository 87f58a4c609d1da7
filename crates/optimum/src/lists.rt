// From flags by height order to the two lists of positions.
ghost use Rattle.std.specs.Prelude.{◌≡◌, ℕ, ◌+◌, ◌<◌, ◌≤◌, List, [], ◌∷◌, ◌++◌, take};
ghost use Rattle.recurrence.specs.Recurrence.{Point};
ghost use Rattle.format.specs.Plate.{inside_below};
ghost use Rattle.orders.specs.Arrays.{heights_of, position_at};
ghost use Rattle.optimum.specs.Choosing.{listed};
ghost use Rattle.optimum.specs.Split.{flagged, outside_positions};
ghost use Rattle.orders.specs.Layout.{field_cells};

use crate::points::{PackedPoints, point_count};
use orders::PointArray;
use orders::layout::{FIELD_CELLS, POSITION_FIELD};

// Positions one after the other, and how many they are. Cells past them are 0. Nothing here allocates, so it is no Vec.
#[derive(Clone, Copy)]
pub struct Positions {
    pub cells: [u8; 32],
    pub count: u8,
}

impl Positions {
    // No position.
    #[tactic(auto, unfolding(format::specs::Padded::padded))]
    fn new() -> Positions
        ensures { result ≡ listed [] }
    {
        Positions {
            cells: [0; 32],
            count: 0,
        }
    }

    // One more position, behind the others.
    fn push(&mut self, position: u8)
        requires { self.old.count < 32 }
        ensures count { self.new.count ≡ self.old.count + 1 }
        ensures list { (l : List ℕ) → self.old ≡ listed l → self.new ≡ listed (l ++ position ∷ []) }
    {
        self.cells[usize::from(self.count)] = position;
        self.count += 1;
    }

    // The positions.
    pub fn list(&self) -> &[u8]
        ensures { result.now ≡ take self.now.count self.now.cells }
    {
        &self.cells[..usize::from(self.count).min(32)]
    }
}

// A flag for each point in height order, and for both boundaries, whether it is inside.
pub(crate) type Flags = [bool; FIELD_CELLS];

// The position of the point i in height order.
#[tactic(auto, unfolding(orders::specs::Arrays::position_at))]
fn position_at(heights: &PointArray, i: usize) -> u8
    requires { (i < field_cells) × (position_at heights.now i < 256) }
    ensures { result ≡ position_at heights.now i }
{
    heights[POSITION_FIELD + i] as u8
}

// From flags by height order to a choice by position: flag i is that of the point i in height order.
pub(crate) fn by_position(points: &PackedPoints, flags: &Flags) -> [bool; 32]
    ensures { (i : ℕ) → Point (heights_of points.now.cells) i
        → flagged result (position_at points.now.cells i) ≡ flagged flags.now i }
{
    let mut choice = [false; 32];
    for i in 1..point_count(&points.cells) + 1 {
        choice[usize::from(position_at(&points.cells, i))] = flags[i];
    }
    choice
}

// The inside positions below n, ascending.
pub(crate) fn list_inside(choice: &[bool; 32], n: u8) -> Positions
    requires { n ≤ 32 }
    ensures { result ≡ listed (inside_below (flagged choice.now) n) }
{
    let mut inside = Positions::new();
    for position in 0..n {
        if choice[usize::from(position)] {
            inside.push(position);
        }
    }
    inside
}

// The outside positions, from the highest row down: by height order, where the inside positions are listed by position.
pub(crate) fn list_outside(points: &PackedPoints, choice: &[bool; 32]) -> Positions
    ensures { result ≡ listed (outside_positions points.now.cells choice.now) }
{
    let mut outside = Positions::new();
    for i in (0..point_count(&points.cells)).rev() {
        let position = position_at(&points.cells, i + 1);
        if !choice[usize::from(position)] {
            outside.push(position);
        }
    }
    outside
}
