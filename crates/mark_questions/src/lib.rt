// The questions of a mark.
#![tactic(auto)]

ghost use Rattle.std.specs.Prelude.{◌≡◌, ◌<◌, length, is_some, unwrap_or};
ghost use Rattle.format.specs.Answers.{no_of};
ghost use Rattle.mark_questions.specs.MarkQuestions.{entry_no, entries_no, list_no, loaded_list_no, number_left, mark_no};

use format::Refusal;

// The first no of 32 and 33, of one entry.
#[tactic(auto, unfolding(crate::specs::MarkQuestions::entry_no))]
fn entry_no(n: u8, positions: &[u8], k: usize) -> Result<(), Refusal>
    requires { k < length positions.now }
    ensures { no_of result ≡ entry_no n positions.now k }
{
    let entry = positions[k];
    if entry >= n {
        return Err(Refusal::ListPosition);
    }
    if k > 0 && entry <= positions[k - 1] {
        return Err(Refusal::ListOrder);
    }
    Ok(())
}

// The first no of 32 and 33, entry by entry.
#[tactic(auto, using(crate::proofs::Laws::entries_first), unfolding(crate::specs::MarkQuestions::entries_no))]
fn entries_no(n: u8, positions: &[u8]) -> Result<(), Refusal>
    ensures { no_of result ≡ entries_no n positions.now (length positions.now) }
{
    // By place, as MarkQuestions `entry_no` speaks of an entry and the one before it.
    for k in 0..positions.len() {
        entry_no(n, positions, k)?;
    }
    Ok(())
}

// The first no of 31 to 33.
#[tactic(auto, unfolding(crate::specs::MarkQuestions::list_no, crate::specs::MarkQuestions::count_right))]
fn list_no(n: u8, list: &[u8]) -> Result<(), Refusal>
    ensures { no_of result ≡ list_no n list.now }
{
    match list {
        [count, entries @ ..] if entries.len() == usize::from(*count) => entries_no(n, entries),
        _ => Err(Refusal::ListLength),
    }
}

// 51, and then 31 to 33: `points` is the loaded sheet's n.
#[tactic(auto, unfolding(crate::specs::MarkQuestions::loaded_list_no))]
fn loaded_list_no(points: Option<u8>, list: &[u8]) -> Result<(), Refusal>
    ensures { no_of result ≡ loaded_list_no (is_some points) (unwrap_or points 0) list.now }
{
    let n = points.ok_or(Refusal::NoSheet)?;
    list_no(n, list)
}

// A number is left after the last one.
fn number_left(last: u16) -> bool
    ensures { result ≡ number_left last }
{
    last < 9999
}

// The first no of a mark: n of the sheet, if one is loaded, and the last number are the desk's.
#[tactic(auto, unfolding(crate::specs::MarkQuestions::mark_no))]
pub fn mark_no(points: Option<u8>, last: u16, list: &[u8]) -> Result<(), Refusal>
    ensures { no_of result ≡ mark_no (is_some points) (unwrap_or points 0) last list.now }
{
    loaded_list_no(points, list)?;
    if !number_left(last) {
        return Err(Refusal::NoNumberLeft);
    }
    Ok(())
}
