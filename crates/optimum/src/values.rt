// The value of a slab: 0 where it has no choice, else one more than the weight of a best choice of its open points.
ghost use Rattle.std.specs.Prelude.{◌≡◌, suc, ◌+◌, ◌*◌, ◌<◌, ◌≤◌, ◌&&◌};
ghost use Rattle.recurrence.specs.Recurrence.{join};
ghost use Rattle.recurrence.specs.Safe.{unreached};
ghost use Rattle.orders.specs.Arrays.{heights_of};
ghost use Rattle.optimum.specs.Slabs.{open_below};
ghost use Rattle.optimum.specs.Table.{better_of, Settled, Kept, Asked, Valued, Cutting, ValuedOutside, Running, Stepped};
ghost use Rattle.orders.specs.Layout.{field_cells, weight_bound};

use crate::conflicts::{may_be_inside, reach, reaches_over, rows_differ};
use crate::limits::label_below;
use crate::points::PackedPoints;
use crate::table::{Found, Slab, place, read_note, write_entry};
use crate::words::read_value;
use std::ops::ControlFlow;

// Where the loop of an entry stands: the best with a point left outside so far; and one more than the weight of the points put inside
// so far.
#[derive(Clone, Copy)]
struct Run {
    best: Found,
    acc: u64,
}

// The better of two; of equal ones the first.
#[tactic(auto, unfolding(crate::specs::Table::better_of))]
fn better(best: Found, other: Found) -> Found
    ensures { result ≡ better_of best other }
{
    if best.value < other.value {
        other
    } else {
        best
    }
}

// The rank below which the points of a slab are open.
#[tactic(auto, unfolding(crate::specs::Slabs::open_below))]
pub(crate) fn open_below(points: &PackedPoints, slab: Slab) -> usize
    requires { (slab.lower < field_cells) × (slab.upper < field_cells) }
    ensures { result ≡ open_below (heights_of points.now.cells) slab }
{
    points.rank(slab.lower).min(points.rank(slab.upper))
}

// The values of two parts, with the weight put inside so far.
fn joined(acc: u64, x: u64, y: u64) -> u64
    requires { (1 ≤ acc) × (acc ≤ 64 * weight_bound) × (x ≤ weight_bound) × (y ≤ weight_bound) }
    ensures { result ≡ join acc (join x y) }
{
    if x == 0 || y == 0 {
        return 0;
    }
    acc + (x - 1) + (y - 1)
}

// What the open point p gives outside, with the weight put inside so far: the slab is cut at p.
#[cycle(entry_outside_value_step_value_of)]
fn outside_value(points: &PackedPoints, table: &mut [u16], slab: Slab, p: usize, acc: u64) -> u64
    requires { Cutting points.now.cells table.old slab p acc }
    ensures { ValuedOutside points.now.cells slab p acc result table.old table.new }
{
    if !rows_differ(&points.cells, p, slab.upper) {
        return 0;
    }
    let over = reach(points, slab, p);
    let x = value_of(points, table, slab.lower_part(p));
    let y = value_of(points, table, slab.upper_part(p, over));
    joined(acc, x, y)
}

// The label of p reaches over no point between p and b.
fn unreached(points: &PackedPoints, p: usize, b: usize) -> bool
    requires { (1 ≤ p) × (p < b) × (b ≤ (heights_of points.now.cells).n + 1) }
    ensures { result ≡ unreached (heights_of points.now.cells) p b }
{
    for y in p + 1..b {
        if label_below(&points.cells, p, y) {
            return true;
        }
        if reaches_over(&points.cells, y, p) {
            return false;
        }
    }
    true
}

// The open point p is safe: it may be inside, and its label reaches over no point above it in the slab. Then it gives no more outside.
fn is_safe(points: &PackedPoints, p: usize, b: usize, inside: bool) -> bool
    requires { (1 ≤ p) × (p < b) × (b ≤ (heights_of points.now.cells).n + 1) }
    ensures { result ≡ (inside && unreached (heights_of points.now.cells) p b) }
{
    inside && unreached(points, p, b)
}

// One step of the entry's loop, at rank t: what its point gives outside may be a new best, unless it is safe; inside it adds its weight.
// Where it may not be inside, the loop ends with the best.
#[cycle(entry_outside_value_step_value_of)]
fn step(
    points: &PackedPoints,
    table: &mut [u16],
    slab: Slab,
    t: usize,
    run: Run,
) -> ControlFlow<Found, Run>
    requires { Asked points.now.cells table.old slab × Running (heights_of points.now.cells) slab (suc t) run }
    ensures { Stepped points.now.cells slab t result table.old table.new }
{
    let p = points.at_rank(t);
    if !slab.has(p) {
        return ControlFlow::Continue(run);
    }
    let so_far = run.best;
    let inside = may_be_inside(points, slab, p);
    if is_safe(points, p, slab.upper, inside) {
        return ControlFlow::Continue(Run {
            best: so_far,
            acc: run.acc + points.weight(p),
        });
    }
    let outside = Found {
        value: outside_value(points, table, slab, p, run.acc),
        cut: t + 1,
    };
    let best = better(so_far, outside);
    if !inside {
        return ControlFlow::Break(best);
    }
    ControlFlow::Continue(Run {
        best,
        acc: run.acc + points.weight(p),
    })
}

// The entry of a slab, by a loop over the ranks of its open points downwards, which ends at a point that may not be inside. With no point
// between its ends there is nothing to choose.
#[cycle(entry_outside_value_step_value_of)]
fn entry(points: &PackedPoints, table: &mut [u16], slab: Slab) -> Found
    requires { Asked points.now.cells table.old slab }
    ensures { Settled (heights_of points.now.cells) slab result
        × Kept points.now.cells table.old table.new }
{
    if slab.upper - slab.lower < 2 {
        return Found { value: 1, cut: 0 };
    }
    let mut run = Run {
        best: Found { value: 0, cut: 0 },
        acc: 1,
    };
    for t in (0..open_below(points, slab)).rev() {
        match step(points, table, slab, t, run) {
            ControlFlow::Continue(next) => run = next,
            ControlFlow::Break(best) => return best,
        }
    }
    let outside = run.best;
    let inside = Found {
        value: run.acc,
        cut: 0,
    };
    better(outside, inside)
}

// The value of a slab: looked up, or computed and then kept.
#[cycle(entry_outside_value_step_value_of)]
pub(crate) fn value_of(points: &PackedPoints, table: &mut [u16], slab: Slab) -> u64
    requires { Asked points.now.cells table.old slab }
    ensures { Valued points.now.cells slab result table.old table.new }
{
    let at = place(points, slab);
    if read_note(table, at) != 0 {
        return read_value(table, at);
    }
    let found = entry(points, table, slab);
    write_entry(table, at, found);
    found.value
}
