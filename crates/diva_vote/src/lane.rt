// The trait of what answers for the checks.
ghost use Rattle.std.specs.Prelude.{◌≡◌, ◌<◌, length, slice_get, Some};
ghost use Rattle.diva_core.specs.declared.pending.Entry.{Entry};

use crate::stage::Stage;
use diva_core::{Diff, Pending, View};

/// A lane: what is asked what the check of a stage finds, once for each claim and stage.
///
/// What it says means what its `says` tells. Where it is honest before a call, its answer is that of the check, and it is honest
/// after. Of any other lane nothing is assumed but that each call returns.
pub trait Lane {
    ghost use Rattle.std.specs.Prelude.{Option};
    ghost use Rattle.diva_core.specs.declared.differences.Diff.{Diff};
    ghost use Rattle.diva_vote.specs.Questions.{IsAnswer, Question, question_at};

    /// What it says to a question: the lane before, the question, its answer, and the lane after. A lane of which nothing is to be
    /// said has what always holds here.
    ghost says: { Self → Question → Option Diff → Self → Type 0 };

    /// The lane answers as the checks do, now and from now on.
    ghost honest: { Self → Type 0 };

    /// What the lane finds in the claim at a place (the oldest is at 0) at a stage.
    fn judge(&mut self, stage: Stage, pending: &Pending, at: usize, view: &View<'_>) -> Option<Diff>
        requires { at < length pending.now.items }
        ensures { (e : Entry) → slice_get pending.now.items at ≡ Some e
            → says self.old (question_at stage view.now pending.now.items at e) result self.new };

    /// An honest lane gives the answer of the check, and stays honest.
    ghost keeps: { (lane : Self) (q : Question) (answer : Option Diff) (after : Self)
        → honest lane → says lane q answer after → IsAnswer q answer × honest after };
}
