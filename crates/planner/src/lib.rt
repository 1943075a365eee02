// Planning: the answer, the cells of the table and each signal's result, over lent words.
// Promises: 01's answer in 01's order; an accepted plan is filled as 01 says; a refusal changes nothing that was lent.
#![tactic(auto)]

ghost use Rattle.terms.specs.Requests.{request, plan_room};
ghost use Rattle.std.specs.Prelude.{◌≡◌};
ghost use Rattle.planner.specs.Planned.{Planned};
ghost use Rattle.planner.specs.Judged.{filled_answer};

use filling::Unfilled;
use terms::{Answer, Refusal, Settings};

mod judge;

// The plan of a list under settings: 64 cells a slot, a result a signal.
#[tactic(auto, using(crate::proofs::PlannedLaws::planned_filled))]
pub fn plan(s: Settings, list: &[u32], cells: &mut [u32], results: &mut [u32]) -> Answer
    ensures { Planned (request s list.now) (plan_room cells.old results.old) result
        (plan_room cells.new results.new) }
{
    let repetitions = judge::judge(s, list, cells.len(), results.len())?;
    answered(filling::fill(s, list, &repetitions, cells, results))
}

// What filling gives, as an answer; a list that was judged fits, and no frame is in trouble.
fn answered(filled: Result<u32, Unfilled>) -> Answer
    ensures { result ≡ filled_answer filled }
{
    match filled {
        Ok(slots) => Ok(slots),
        Err(Unfilled::Short(slots)) => Err(Refusal::Slots(slots)),
        Err(Unfilled::Taken(signal)) => Err(Refusal::Taken(signal)),
        Err(Unfilled::Unfit) => Err(Refusal::Taken(0)),
    }
}
