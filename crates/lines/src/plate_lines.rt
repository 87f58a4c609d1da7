// The listing of a plate.
ghost use Rattle.std.specs.Prelude.{◌≡◌, [], ◌+◌, ◌≤◌, length};
ghost use Rattle.format.specs.Sheet.{point_count};
ghost use Rattle.lines.specs.Rooms.{first_line_room, points_room, listing_room, most_points};
ghost use Rattle.lines.specs.Listing.{first_line, point_lines, listing_of};
ghost use Rattle.lines.specs.Writing.{Added};

use crate::LISTING_ROOM;
use crate::margins::columns_used;
use crate::points::add_point;
use crate::text::Text;
use clash::choice_of;
use format::point_count;
use plate_reader::{inside_count, inside_positions, outside_pairs};

// Each point in sheet order: at most 255 of them, with at most 16 bytes each.
#[tactic(auto, using(crate::proofs::Laws::point_none, crate::proofs::Laws::point_more))]
fn add_points(text: &mut Text<LISTING_ROOM>, plate: &[u8])
    requires { length text.old + points_room most_points ≤ listing_room most_points }
    ensures { Added (points_room (point_count plate.now)) (point_lines plate.now (point_count plate.now)) text.old text.new }
{
    let inside = choice_of(inside_positions(plate));
    let pairs = outside_pairs(plate);
    for position in 0..point_count(plate) {
        add_point(text, plate, &inside, pairs, position);
    }
}

// Points, inside count and margin columns used.
#[tactic(auto, using(crate::proofs::Writing::added_more), unfolding(crate::specs::Listing::first_line))]
fn add_first_line(text: &mut Text<LISTING_ROOM>, plate: &[u8])
    requires { length text.old + first_line_room ≤ listing_room most_points }
    ensures { Added first_line_room (first_line plate.now) text.old text.new }
{
    text.word(b"plate");
    text.number(u16::from(point_count(plate)));
    text.number(u16::from(inside_count(plate)));
    text.number(columns_used(outside_pairs(plate)));
    text.end();
}

// The whole listing, in a text that has nothing yet.
#[tactic(auto, using(crate::proofs::Writing::added_more), unfolding(crate::specs::Listing::listing_of))]
pub(crate) fn add_listing(text: &mut Text<LISTING_ROOM>, plate: &[u8])
    requires { text.old ≡ [] }
    ensures { Added (listing_room (point_count plate.now)) (listing_of plate.now) [] text.new }
{
    add_first_line(text, plate);
    add_points(text, plate);
}
