// A point's line.
ghost use Rattle.std.specs.Prelude.{◌≡◌, ◌+◌, ◌≤◌, length};
ghost use Rattle.plate_reader.specs.PlateQuestions.{inside_list, outside_pairs};
ghost use Rattle.clash.specs.ChoiceFlags.{flags_of, held};
ghost use Rattle.lines.specs.Rooms.{point_room, listing_room, most_points};
ghost use Rattle.lines.specs.Listing.{margin_of, place, point_line};
ghost use Rattle.lines.specs.Writing.{Added};

use crate::LISTING_ROOM;
use crate::margins::margin_of;
use crate::text::Text;
use format::call_number;

// `in`, or `out` and the margin column.
#[tactic(auto, using(crate::proofs::Laws::place_in, crate::proofs::Laws::place_out))]
fn add_place(text: &mut Text<LISTING_ROOM>, inside: &[bool; 256], pairs: &[u8], position: u8)
    requires { length text.old + 10 ≤ listing_room most_points }
    ensures { Added 10 (place (held inside.now position) (margin_of position pairs.now)) text.old text.new }
{
    if inside[usize::from(position)] {
        return text.word(b" in");
    }
    text.word(b" out");
    text.number(u16::from(margin_of(pairs, position)));
}

// A point's line, by the plate's two sections.
pub(crate) fn add_point(
    text: &mut Text<LISTING_ROOM>,
    plate: &[u8],
    inside: &[bool; 256],
    pairs: &[u8],
    position: u8,
)
    requires point_room_in_bounds { length text.old + point_room ≤ listing_room most_points }
    requires inside_value { (inside.now ≡ flags_of (inside_list plate.now)) × (pairs.now ≡ outside_pairs plate.now) }
    ensures { Added point_room (point_line plate.now position) text.old text.new }
{
    text.decimal(call_number(plate, position));
    add_place(text, inside, pairs, position);
    text.end();
}
