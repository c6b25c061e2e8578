// Three lanes that are asked the same.
ghost use Rattle.std.specs.Prelude.{◌≡◌, ◌<◌, length, slice_get, Some};
ghost use Rattle.diva_core.specs.declared.pending.Entry.{Entry};
ghost use Rattle.diva_vote.specs.Polls.{AlwaysTwoAreRight, TwoAreRight};
ghost use Rattle.diva_vote.specs.Questions.{IsAnswer, question_at};
ghost use Rattle.diva_vote.specs.Votes.{AtLeastTwo, IsMajority, vote_of};

use crate::lane::Lane;
use crate::stage::Stage;
use crate::votes::Ballot;
use diva_core::{Pending, View};

/// What three lanes find in the claim at a place (the oldest is at 0) at a stage. Each is asked once.
pub fn judge_by_vote<A: Lane, B: Lane, L: Lane>(
    a: &mut A,
    b: &mut B,
    l: &mut L,
    stage: Stage,
    pending: &Pending,
    at: usize,
    view: &View<'_>,
) -> Ballot
    requires { at < length pending.now.items }
    // What each lane said to the question.
    ensures first { (e : Entry) → slice_get pending.now.items at ≡ Some e
        → A.says a.old (question_at stage view.now pending.now.items at e) result.first a.new }
    ensures second { (e : Entry) → slice_get pending.now.items at ≡ Some e
        → B.says b.old (question_at stage view.now pending.now.items at e) result.second b.new }
    ensures third { (e : Entry) → slice_get pending.now.items at ≡ Some e
        → L.says l.old (question_at stage view.now pending.now.items at e) result.third l.new }
    // The vote is what two give at least; where all three differ, what the first gives.
    ensures vote { IsMajority result.first result.second result.third (vote_of result) }
    // Where two at least are right, so is the vote.
    ensures answers { (e : Entry) → slice_get pending.now.items at ≡ Some e
        → TwoAreRight (record { question = question_at stage view.now pending.now.items at e; ballot = result })
        → IsAnswer (question_at stage view.now pending.now.items at e) (vote_of result) }
{
    let first = a.judge(stage, pending, at, view);
    let second = b.judge(stage, pending, at, view);
    let third = l.judge(stage, pending, at, view);
    Ballot {
        first,
        second,
        third,
    }
}

/// Recalls for a proof that where two of three lanes are honest, at least two of their answers to each question will be right, whatever
/// they are asked. It does nothing.
pub fn recall_two_honest<A: Lane, B: Lane, L: Lane>(a: &A, b: &B, l: &L)
    requires { AtLeastTwo (A.honest a.now) (B.honest b.now) (L.honest l.now) }
    ensures { AlwaysTwoAreRight A.says B.says L.says a.now b.now l.now }
{
    let _ = a;
    let _ = b;
    let _ = l;
}
