// The table, in the workspace: an entry for each slab that was asked for, of four cells for its value and, behind all values, one for its
// note.
ghost use Rattle.std.specs.Prelude.{◌≡◌, ◌<◌};
ghost use Rattle.optimum.specs.Entries.{note_at, with_entry};
ghost use Rattle.optimum.specs.Slabs.{slab_has, slab_place, lower_part, upper_part};
ghost use Rattle.optimum.specs.Table.{Room, Ready, Unnoted};
ghost use Rattle.optimum.specs.Places.{entries};

use crate::points::{PackedPoints, point_count};
use crate::words::write_value;

// Where the notes begin: behind the four cells of each value.
const NOTES: usize = 26180;

// A slab (a, b, q in specs/): its lower and upper ends, each a boundary or an outside point, and the inside point from below whose
// label reaches over the lower end, or 0: a number like the ends, since a slab's place is a sum of the three.
#[derive(Clone, Copy)]
pub(crate) struct Slab {
    pub lower: usize,
    pub upper: usize,
    pub reaching: usize,
}

// What is found of a slab: its value, 0 where it has no choice; and its cut, one more than the rank of the point that it is cut at, or 0
// where all its open points go inside. Both are numbers as the recurrence's `value` and the table's cells have them, so that a step
// compares and adds them as they are.
#[derive(Clone, Copy)]
pub(crate) struct Found {
    pub value: u64,
    pub cut: usize,
}

impl Slab {
    // The point p is strictly between the ends. One test is enough: the distance from the lower end wraps round to a great number for
    // a point that isn't above it.
    pub(crate) fn has(self, p: usize) -> bool
        requires { self.lower < self.upper }
        ensures { result ≡ slab_has self p }
    {
        let first = self.lower + 1;
        p.wrapping_sub(first) < self.upper - first
    }

    // The part below the point p that the slab is cut at,
    pub(crate) fn lower_part(self, p: usize) -> Slab
        ensures { result ≡ lower_part self p }
    {
        Slab { upper: p, ..self }
    }

    // and the part above it, where the label of the point `over` reaches over p, or that of none, where it is 0.
    pub(crate) fn upper_part(self, p: usize, over: usize) -> Slab
        ensures { result ≡ upper_part self p over }
    {
        Slab {
            lower: p,
            reaching: over,
            ..self
        }
    }
}

// The place of a slab. Here and below the points and the table are two references: the points are only read, and what a contract says of
// the table alone would have to leave the points out, were they one.
pub(crate) fn place(points: &PackedPoints, slab: Slab) -> usize
    requires { Ready points.now.cells slab }
    ensures { (result ≡ slab_place slab) × (result < entries) }
{
    points.tetrahedral(slab.upper + 1) + points.triangular(slab.lower + 1) + slab.reaching
}

// The note at a place: 0 as long as nothing is known of the slab, and then one more than its cut.
#[tactic(auto, unfolding(crate::specs::Entries::note_at))]
pub(crate) fn read_note(table: &[u16], place: usize) -> usize
    requires { (place < entries) × Room table.now }
    ensures { (result ≡ note_at table.now place) × (result < 65536) }
{
    usize::from(table[NOTES + place])
}

// Stores and notes an entry at a place.
#[tactic(auto, unfolding(crate::specs::Entries::with_entry))]
pub(crate) fn write_entry(table: &mut [u16], place: usize, found: Found)
    requires { (place < entries) × Room table.old × (found.cut < 65535) }
    ensures { table.new ≡ with_entry table.old place found.value found.cut }
{
    write_value(table, place, found.value);
    table[NOTES + place] = (found.cut + 1) as u16;
}

// Clears the notes of all slabs of the points. The values need no clearing: without a note none is read.
pub(crate) fn clear_notes(points: &PackedPoints, table: &mut [u16])
    requires { Room table.old }
    ensures { Unnoted points.now.cells table.old table.new }
{
    let end = NOTES + points.tetrahedral(point_count(&points.cells) + 3);
    table[NOTES..end].fill(0);
}
