// The rank list that may be lent beside a sheet: a count byte n, then n ranks from 1 to 9.
#![tactic(auto)]

ghost use Rattle.std.specs.Prelude.{◌≡◌, option_copied};
ghost use Rattle.format.specs.Answers.{no_of};
ghost use Rattle.format.specs.Sheet.{up_to};
ghost use Rattle.format.specs.RankList.{rank_in, rank_count_right, ranks_allowed, ranks_no};

use format::{Refusal, byte_at};

// The count byte is there and is n, and n ranks follow it.
#[tactic(auto, unfolding(format::specs::RankList::rank_count_right))]
fn count_right(ranks: &[u8], n: u8) -> bool
    ensures { result ≡ rank_count_right n ranks.now }
{
    !ranks.is_empty() && ranks[0] == n && ranks.len() == 1 + usize::from(n)
}

// A rank is 1 to 9.
fn rank_allowed(rank: u8) -> bool
    ensures { result ≡ up_to 9 rank }
{
    (1..=9).contains(&rank)
}

// Each of the n ranks is 1 to 9.
fn ranks_allowed(ranks: &[u8], n: u8) -> bool
    ensures { result ≡ ranks_allowed n ranks.now }
{
    // By position, as the definition has it of any bytes: past the end a rank reads 0.
    (0..n).all(|i| rank_allowed(byte_at(ranks, 1 + usize::from(i))))
}

// The first no of a list beside a sheet of n points.
#[tactic(auto, unfolding(format::specs::RankList::ranks_no))]
fn list_no(ranks: &[u8], n: u8) -> Result<(), Refusal>
    ensures { no_of result ≡ ranks_no n (Some ranks.now) }
{
    if !count_right(ranks, n) {
        return Err(Refusal::RankCount);
    }
    if !ranks_allowed(ranks, n) {
        return Err(Refusal::RankRange);
    }
    Ok(())
}

// The first no of the list, if one is lent.
#[tactic(auto, unfolding(format::specs::RankList::ranks_no))]
pub fn ranks_no(ranks: Option<&[u8]>, n: u8) -> Result<(), Refusal>
    ensures { no_of result ≡ ranks_no n (option_copied ranks.entry) }
{
    match ranks {
        Some(ranks) => list_no(ranks, n),
        None => Ok(()),
    }
}

// The rank of a position; without a list it is 1.
#[tactic(auto, unfolding(format::specs::RankList::rank_in))]
pub fn rank_of(ranks: Option<&[u8]>, position: u8) -> u8
    ensures { result ≡ rank_in (option_copied ranks.entry) position }
{
    ranks.map_or(1, |ranks| byte_at(ranks, 1 + usize::from(position)))
}
