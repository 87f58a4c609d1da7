// Recovering the best choice from the table: a slab's open points are put inside down to the point that it is cut at.
ghost use Rattle.std.specs.Prelude.{◌≡◌, ◌<◌};
ghost use Rattle.orders.specs.Arrays.{heights_of};
ghost use Rattle.optimum.specs.Slabs.{open_below};
ghost use Rattle.optimum.specs.Table.{CutAt, Ready, Kept, Recoverable, flagged_taken, FlaggedDown, FlaggedBelow};
ghost use Rattle.orders.specs.Layout.{field_cells};

use crate::conflicts::reach;
use crate::lists::Flags;
use crate::points::PackedPoints;
use crate::table::{Slab, place, read_note};
use crate::values::{open_below, value_of};

// The cut of a slab, as its entry notes it.
fn cut_of(points: &PackedPoints, table: &mut [u16], slab: Slab) -> usize
    requires { Recoverable points.now.cells table.old slab }
    ensures { CutAt (heights_of points.now.cells) slab result
        × Kept points.now.cells table.old table.new }
{
    value_of(points, table, slab);
    read_note(table, place(points, slab)) - 1
}

// Sets the flag of the point i, if its rank is `least` or more, and less than `below`.
#[tactic(auto, unfolding(crate::specs::Table::flagged_taken, crate::specs::Table::taken))]
fn flag_taken(points: &PackedPoints, flags: &mut Flags, i: usize, least: usize, below: usize)
    requires { i < field_cells }
    ensures { flags.new ≡ flagged_taken (heights_of points.now.cells) least below i flags.old }
{
    let rank = points.rank(i);
    if least <= rank && rank < below {
        flags[i] = true;
    }
}

// Sets the flags of the open points of a slab whose rank is k or more: those that go inside where it is cut at the rank below.
fn flag_down(points: &PackedPoints, flags: &mut Flags, slab: Slab, k: usize)
    requires { Ready points.now.cells slab × CutAt (heights_of points.now.cells) slab k }
    ensures { FlaggedDown (heights_of points.now.cells) slab k flags.old flags.new }
{
    let below = open_below(points, slab);
    for i in slab.lower + 1..slab.upper {
        flag_taken(points, flags, i, k, below);
    }
}

// Sets the flags of the inside points of a slab.
#[cycle(cut_slab)]
pub(crate) fn slab(points: &PackedPoints, table: &mut [u16], flags: &mut Flags, whole: Slab)
    requires { Recoverable points.now.cells table.old whole }
    ensures { FlaggedBelow points.now.cells (open_below (heights_of points.now.cells) whole)
        whole flags.old flags.new table.old table.new }
{
    let k = cut_of(points, table, whole);
    flag_down(points, flags, whole, k);
    cut(points, table, flags, whole, k);
}

// Cuts a slab at the point of rank k - 1, and sets the flags of the inside points of both parts; where k is 0 there is nothing to cut.
#[cycle(cut_slab)]
fn cut(points: &PackedPoints, table: &mut [u16], flags: &mut Flags, whole: Slab, k: usize)
    requires { Recoverable points.now.cells table.old whole × CutAt (heights_of points.now.cells) whole k }
    ensures { FlaggedBelow points.now.cells k whole flags.old
        flags.new table.old table.new }
{
    if k == 0 {
        return;
    }
    let p = points.at_rank(k - 1);
    let over = reach(points, whole, p);
    slab(points, table, flags, whole.lower_part(p));
    slab(points, table, flags, whole.upper_part(p, over));
}
