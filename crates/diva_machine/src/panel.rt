// Three lanes that vote, in the place of the checks.
ghost use Rattle.std.specs.Prelude.{◌≡◌, ◌<◌, [], ◌∷◌, length, map, slice_get, Some};
ghost use Rattle.diva_core.specs.declared.pending.Entry.{Entry};
ghost use Rattle.diva_core.specs.Entries.{pending_claim_of};
ghost use Rattle.diva_vote.specs.Questions.{question_at, stage_row};
ghost use Rattle.diva_machine.specs.Inner.{HasPassed};

use crate::arch::Arch;
use crate::stages::{
    DECODE_STAGE, EXECUTE_STAGE, FETCH_STAGE, LAST_STAGE, OPERANDS_STAGE, Stages, keep_next, note,
    note_decoded,
};
use diva_core::{FutureFile, Pending};
use diva_vote::{Lane, Outvoted, Stage, judge_by_vote};

/// The stages of which each asks three lanes, takes what their vote comes to, and counts where one of them is outvoted.
#[derive(Drop)]
pub(crate) struct Panel<'a, A, B, L> {
    first: &'a mut A,
    second: &'a mut B,
    third: &'a mut L,
    /// How often each was outvoted.
    pub(crate) outvoted: Outvoted,
}

impl<'a, A: Lane, B: Lane, L: Lane> Panel<'a, A, B, L> {
    ghost use Rattle.diva_machine.specs.Panels.{ArePanel, IsSound, LedLanes, in_first, in_second, in_third};

    /// The stages over three lanes that are lent, which begin with these counts.
    pub fn new(
        first: &'a mut A,
        second: &'a mut B,
        third: &'a mut L,
        outvoted: Outvoted,
    ) -> Panel<'a, A, B, L>
        ensures first { in_first result ≡ first.old }
        ensures second { in_second result ≡ second.old }
        ensures third { in_third result ≡ third.old }
        ensures same { ArePanel first.entry.ghost_name second.entry.ghost_name third.entry.ghost_name result }
        ensures outvoted { result.outvoted ≡ outvoted }
        ensures begins { LedLanes A.says B.says L.says result [] result }
    {
        Panel {
            first,
            second,
            third,
            outvoted,
        }
    }

    /// Asks each lane once, counts those that are outvoted, and notes what their vote finds in the claim at a place. They are asked
    /// whatever an earlier stage found.
    fn ask(&mut self, stage: Stage, pending: &mut Pending, at: usize, arch: &Arch)
        requires sound { IsSound A.says B.says L.says self.old }
        requires place { at < length pending.old.items }
        ensures sound { IsSound A.says B.says L.says self.new }
        ensures led { (e : Entry) → slice_get pending.old.items at ≡ Some e
            → LedLanes A.says B.says L.says
            self.old (question_at stage (record arch.now.state { end = 0 }) pending.old.items at e ∷ []) self.new }
        ensures waits { map pending_claim_of pending.new.items ≡ map pending_claim_of pending.old.items }
        ensures capacity { pending.new.capacity ≡ pending.old.capacity }
        ensures advanced { HasPassed arch.now.state (stage_row stage).age at pending.old.items pending.new.items }
    {
        let view = arch.view();
        let ballot = judge_by_vote(
            self.first,
            self.second,
            self.third,
            stage,
            pending,
            at,
            &view,
        );
        self.outvoted.count(&ballot);
        note(pending, at, ballot.vote());
    }
}

impl<'a, A: Lane, B: Lane, L: Lane> Stages for Panel<'a, A, B, L> {
    ghost use Rattle.diva_machine.specs.Panels.{IsSound, LedLanes};

    ghost sound = { λ p. IsSound A.says B.says L.says p };

    ghost led = { λ before asked after. LedLanes A.says B.says L.says before asked after };

    #[tactic(auto, using(crate::proofs::Staging::future_same))]
    fn pass(
        &mut self,
        pending: &mut Pending,
        future: &mut FutureFile,
        at: usize,
        arch: &Arch,
        age: u64,
    ) {
        match age {
            FETCH_STAGE => self.ask(Stage::Fetch, pending, at, arch),
            DECODE_STAGE => note_decoded(pending, at),
            OPERANDS_STAGE => {
                keep_next(future, pending, at);
                self.ask(Stage::Operands, pending, at, arch);
            }
            EXECUTE_STAGE => self.ask(Stage::Execute, pending, at, arch),
            LAST_STAGE => self.ask(Stage::Memory, pending, at, arch),
            _ => unreachable!(),
        }
    }
}
