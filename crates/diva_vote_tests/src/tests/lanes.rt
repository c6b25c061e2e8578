// Lanes of the tests' own.
ghost use Rattle.std.specs.Prelude.{◌≡◌, not};
ghost use Rattle.diva_vote.specs.Polls.{AlwaysTwoAreRight};

use diva_core::{Diff, Field, Pending, View};
use diva_vote::{Honest, Lane, Liar, Stage, check, lie};
use std::cell::Cell;

/// What a lane is asked: the stage, and the pc of the claim.
pub(crate) type Asked = (Stage, u32);

/// Answers as the checks do, and notes what it is asked. Three such lanes share a cell in which they count that.
#[derive(Clone, Copy, Drop)]
pub(crate) struct Witness<'a> {
    asked: &'a Cell<u32>,
    place: u32,
    notes: [Asked; 32],
    /// How often it was asked.
    pub(crate) calls: usize,
    /// How often another lane was to be asked in its place.
    pub(crate) out_of_turn: u32,
    /// How often `Liar` did not say the lie of its answer.
    pub(crate) strays: u32,
    /// How often `Liar` said nothing.
    pub(crate) denials: u32,
}

impl<'a> Witness<'a> {
    /// The lane that is to be asked at this place, from 0 to 2, and was asked nothing yet.
    pub(crate) fn new(asked: &'a Cell<u32>, place: u32) -> Self {
        Witness {
            asked,
            place,
            notes: [(Stage::Fetch, 0); 32],
            calls: 0,
            out_of_turn: 0,
            strays: 0,
            denials: 0,
        }
    }

    /// The lanes of all three places, which share this cell.
    pub(crate) fn all(asked: &'a Cell<u32>) -> [Self; 3] {
        [
            Witness::new(asked, 0),
            Witness::new(asked, 1),
            Witness::new(asked, 2),
        ]
    }

    /// What it was asked, in order: its first questions, where there were more than it can note.
    pub(crate) fn notes(&self) -> &[Asked] {
        self.notes.get(..self.calls).unwrap_or(&self.notes)
    }
}

impl<'a> Lane for Witness<'a> {
    ghost use Rattle.std.specs.Prelude.{⊤};
    ghost use Rattle.diva_vote.specs.Questions.{IsAnswer};

    ghost says = { λ before q answer after. IsAnswer q answer };

    ghost honest = { λ lane. ⊤ };

    ghost keeps = { λ lane q answer after honest said. (said, tt) };

    fn judge(
        &mut self,
        stage: Stage,
        pending: &Pending,
        at: usize,
        view: &View<'_>,
    ) -> Option<Diff> {
        if let Some(note) = self.notes.get_mut(self.calls) {
            *note = (stage, pending.at(at).claim.pc);
        }
        self.calls = self.calls.saturating_add(1);
        let asked = self.asked.get();
        if asked % 3 != self.place {
            self.out_of_turn = self.out_of_turn.saturating_add(1);
        }
        self.asked.set(asked.wrapping_add(1));
        let right = check(stage, pending, at, view);
        let said = Liar.judge(stage, pending, at, view);
        if said != lie(right) {
            self.strays = self.strays.saturating_add(1);
        }
        if said.is_none() {
            self.denials = self.denials.saturating_add(1);
        }
        right
    }
}

/// Lies to every other question. It is never honest: at most one of two questions has its right answer.
#[derive(Clone, Copy, Debug, Drop)]
pub(crate) struct Alternating {
    /// Whether it will lie to the next question.
    pub(crate) lies: bool,
}

impl Lane for Alternating {
    ghost use Rattle.std.specs.Prelude.{◌≡◌, false, not};
    ghost use Rattle.diva_vote.specs.Questions.{IsAnswer};

    ghost says = { λ before q answer after. (after.lies ≡ not before.lies) × (before.lies ≡ false → IsAnswer q answer) };

    ghost honest = { λ lane. ⊥ };

    ghost keeps = { λ lane q answer after honest said. absurd honest };

    fn judge(
        &mut self,
        stage: Stage,
        pending: &Pending,
        at: usize,
        view: &View<'_>,
    ) -> Option<Diff> {
        let lies = self.lies;
        self.lies = !lies;
        let right = check(stage, pending, at, view);
        if lies { lie(right) } else { right }
    }
}

/// Recalls for a proof that of two lanes that lie in turn and an honest one, at least two answers to each question will be right.
pub(crate) fn recall_alternating(a: &Alternating, b: &Alternating, l: &Honest)
    requires { b.now.lies ≡ not a.now.lies }
    ensures { AlwaysTwoAreRight ⟦<Alternating as Lane>⟧.says ⟦<Alternating as Lane>⟧.says ⟦<Honest as Lane>⟧.says a.now b.now l.now }
{
    let _ = a;
    let _ = b;
    let _ = l;
}

/// A lane that is not to be believed, by what it answers.
#[derive(Clone, Copy, Debug, Drop)]
pub(crate) enum Odd {
    /// What `Liar` does: never what the check finds.
    Lying,
    /// In one call of four nothing, and else a difference in some field with some numbers, by a generator that begins here.
    Random(u32),
    /// What the check of the stage before finds, and at the first stage that of the last one.
    Shifted,
    /// Nothing.
    Blind,
    /// A difference that is the same in each call.
    Accusing,
}

/// Each of the lanes that are not to be believed.
pub(crate) const ODD: [Odd; 5] = [
    Odd::Lying,
    Odd::Random(1),
    Odd::Shifted,
    Odd::Blind,
    Odd::Accusing,
];

impl Lane for Odd {
    ghost use Rattle.std.specs.Prelude.{⊤};

    ghost says = { λ before q answer after. ⊤ };

    ghost honest = { λ lane. ⊥ };

    ghost keeps = { λ lane q answer after honest said. absurd honest };

    fn judge(
        &mut self,
        stage: Stage,
        pending: &Pending,
        at: usize,
        view: &View<'_>,
    ) -> Option<Diff> {
        match self {
            Odd::Lying => Liar.judge(stage, pending, at, view),
            Odd::Random(number) => random(number),
            Odd::Shifted => check(stage_before(stage), pending, at, view),
            Odd::Blind => None,
            Odd::Accusing => Some(Diff::new(Field::Value, 7, 8)),
        }
    }
}

/// The number that follows another in a generator whose highest bits look random.
pub(crate) fn next_number(number: u32) -> u32 {
    number.wrapping_mul(747_796_405).wrapping_add(2_891_336_453)
}

/// One of the eight fields, by a number.
pub(crate) fn field_by(number: u32) -> Field {
    Field::ALL[(number % 8) as usize]
}

/// An answer by the next three numbers of the generator.
fn random(number: &mut u32) -> Option<Diff> {
    let first = next_number(*number);
    let claimed = next_number(first);
    let due = next_number(claimed);
    *number = due;
    if first >> 30 == 0 {
        return None;
    }
    Some(Diff::new(field_by(first >> 24), claimed, due))
}

/// The stage before, which is the last one for the first.
fn stage_before(stage: Stage) -> Stage {
    match stage {
        Stage::Fetch => Stage::Memory,
        Stage::Operands => Stage::Fetch,
        Stage::Execute => Stage::Operands,
        Stage::Memory => Stage::Execute,
    }
}
