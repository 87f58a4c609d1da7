// The lines of a refusal and of the desk's answers.
ghost use Rattle.std.specs.Prelude.{◌≡◌, [], ◌+◌, ◌≤◌, length};
ghost use Rattle.lines.specs.Rooms.{kind_room, verdict_room, line_room};
ghost use Rattle.lines.specs.DeskLines.{refusal_line, loaded_line, kind_word, verdict_text, marked_line};
ghost use Rattle.lines.specs.Writing.{Added};

use crate::LINE_ROOM;
use crate::text::Text;
use clash::ClashKind;
use desk::{Desk, Verdict};
use format::point_count;

#[tactic(auto, using(crate::proofs::Writing::added_more), unfolding(crate::specs::DeskLines::refusal_line))]
pub(crate) fn refusal(no: u8) -> Text<LINE_ROOM>
    ensures { Added 14 (refusal_line no) [] result }
{
    let mut text = Text::new();
    text.word(b"refused");
    text.number(u16::from(no));
    text.end();
    text
}

// Point count and best sum of the desk's sheet.
#[tactic(auto, using(crate::proofs::Writing::added_more), unfolding(crate::specs::DeskLines::loaded_line))]
pub(crate) fn loaded(desk: Desk) -> Text<LINE_ROOM>
    ensures { Added 19 (loaded_line desk) [] result }
{
    let sheet = desk.held.sheet;
    let mut text = Text::new();
    text.word(b"loaded");
    text.number(u16::from(point_count(&sheet)));
    text.number(desk.held.best);
    text.end();
    text
}

fn kind_word(kind: ClashKind) -> &'static [u8]
    ensures word { result.now ≡ kind_word kind }
    ensures fits { length result.now ≤ kind_room }
{
    match kind {
        ClashKind::Labels => b" labels",
        ClashKind::LabelAndLeader => b" leader",
        ClashKind::Overhang => b" overhang",
        ClashKind::TwoLeaders => b" leaders",
    }
}

#[tactic(auto, using(crate::proofs::Writing::added_more), unfolding(crate::specs::DeskLines::valid_text, crate::specs::DeskLines::clash_text))]
fn add_verdict(text: &mut Text<LINE_ROOM>, verdict: Verdict)
    requires { length text.old + verdict_room ≤ line_room }
    ensures { Added verdict_room (verdict_text verdict) text.old text.new }
{
    match verdict {
        Verdict::Valid { sum, shortfall } => {
            text.word(b" valid");
            text.number(sum);
            text.number(shortfall);
        }
        Verdict::Clash {
            first,
            second,
            kind,
        } => {
            text.word(b" clash");
            text.number(u16::from(first));
            text.number(u16::from(second));
            text.word(kind_word(kind));
        }
    }
}

#[tactic(auto, using(crate::proofs::Writing::added_more), unfolding(crate::specs::DeskLines::marked_line))]
pub(crate) fn marked(number: u16, verdict: Verdict) -> Text<LINE_ROOM>
    ensures { Added line_room (marked_line number verdict) [] result }
{
    let mut text = Text::new();
    text.decimal(number);
    add_verdict(&mut text, verdict);
    text.end();
    text
}
