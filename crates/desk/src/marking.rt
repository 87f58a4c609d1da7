// What the desk answers to a mark.
ghost use Rattle.std.specs.Prelude.{◌≡◌};
ghost use Rattle.format.specs.Answers.{no_of};
ghost use Rattle.mark_questions.specs.Lists.{Counted};
ghost use Rattle.desk.specs.Desk.{verdict_of, first_no, mark_answer_of};

use crate::sums::sum_of;
use crate::{Desk, Marked, Verdict};
use format::Refusal;
use mark_questions::mark_no;

impl Desk {
    // The first no of a mark at this desk.
    #[tactic(auto, using(crate::proofs::DeskLaws::points_asked))]
    fn first_no(&self, list: &[u8]) -> Result<(), Refusal>
        ensures { no_of result ≡ first_no self.now list.now }
    {
        let held = &self.held;
        let points = held.loaded.then_some(format::point_count(&held.sheet));
        mark_no(points, self.last, list)
    }

    // The verdict on a list whose count byte is right, at this desk.
    #[tactic(auto, using(crate::proofs::Laws::verdict_clash, crate::proofs::Laws::verdict_valid))]
    fn verdict_of(&self, list: &[u8]) -> Verdict
        requires { Counted list.now }
        ensures { result ≡ verdict_of self.now list.now }
    {
        let positions = &list[1..];
        match clash::first_clash(&self.held.sheet, positions) {
            Some(clash) => Verdict::Clash {
                first: clash.first,
                second: clash.second,
                kind: clash.kind,
            },
            None => {
                let sum = sum_of(&self.held.ranks, positions);
                Verdict::Valid {
                    sum,
                    shortfall: self.held.best.saturating_sub(sum),
                }
            }
        }
    }

    // What a mark of the list answers: the next number and the verdict.
    pub(crate) fn marked(&self, list: &[u8]) -> Result<Marked, Refusal>
        ensures { result ≡ mark_answer_of self.now list.now (first_no self.now list.now) }
    {
        self.first_no(list)?;
        Ok(Marked {
            number: self.last + 1,
            verdict: self.verdict_of(list),
        })
    }
}
