//! A recorded run, held against a theory.
ghost use Rattle.refusal.specs.Order.{Ordered};
ghost use Rattle.theory.specs.Trajectories.{Trajectory};
ghost use Rattle.theory.specs.Recorded.{record_refused};

use crate::judging::Judging;
use crate::step::Step;
use refusal::part::Part;
use refusal::reason::Reason;
use refusal::refusal::Refusal;

/// The last state of the recorded run, or a refusal: the start is no state, or the first step that is none of the
/// theory.
// Start and steps come apart, since a struct of both would hold no fact and every call would have to make one.
pub fn check_record<T: Judging>(theory: &T, start: u32, steps: &[Step]) -> Result<u32, Refusal>
    ensures { Ordered (record_refused (T.Judging.meaning theory.now) start steps.now) (Trajectory (T.Judging.meaning theory.now) start steps.now) result }
{
    if !theory.is_state(start) {
        return Err(Refusal::plain(Reason::NotAState));
    }
    // A `for`: `try_fold` would carry the last state, the place and the refusal through one closure.
    let mut last = start;
    for (i, step) in steps.iter().enumerate() {
        if !theory.is_step(last, step.action, step.to) {
            return Err(Refusal::at(Reason::NotAStep, Part::Step, i));
        }
        last = step.to;
    }
    Ok(last)
}
