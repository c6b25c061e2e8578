// The lane that is the checks, the one that always lies, and one that is either.
ghost use Rattle.std.specs.Prelude.{◌≡◌};
ghost use Rattle.diva_vote.specs.Lanes.{lie};

use crate::lane::Lane;
use crate::stage::{Stage, check};
use diva_core::{Diff, Field, Pending, View};

/// The lane that is the checks. It is always honest.
#[derive(Clone, Copy, Debug, Default, Drop)]
pub struct Honest;

impl Lane for Honest {
    ghost use Rattle.std.specs.Prelude.{⊤, ◌≡◌};
    ghost use Rattle.diva_vote.specs.Questions.{IsAnswer};

    ghost says = { λ before q answer after. IsAnswer q answer × (after ≡ before) };

    ghost honest = { λ lane. ⊤ };

    ghost keeps = { λ lane q answer after honest said. (said.0, tt) };

    fn judge(
        &mut self,
        stage: Stage,
        pending: &Pending,
        at: usize,
        view: &View<'_>,
    ) -> Option<Diff> {
        check(stage, pending, at, view)
    }
}

/// What a liar says in the place of an answer: nothing where it is a difference, and where it is none a wrong pc, 1 claimed
/// where 0 is due.
pub fn lie(answer: Option<Diff>) -> Option<Diff>
    ensures { result ≡ lie answer }
{
    match answer {
        Some(_) => None,
        None => Some(Diff::new(Field::Pc, 1, 0)),
    }
}

/// The lane that lies in the place of each answer of the checks.
#[derive(Clone, Copy, Debug, Default, Drop)]
pub struct Liar;

impl Lane for Liar {
    ghost use Rattle.std.specs.Prelude.{◌≡◌};
    ghost use Rattle.diva_vote.specs.Lanes.{IsLie};

    ghost says = { λ before q answer after. IsLie q answer × (after ≡ before) };

    ghost honest = { λ lane. ⊥ };

    ghost keeps = { λ lane q answer after honest said. absurd honest };

    fn judge(
        &mut self,
        stage: Stage,
        pending: &Pending,
        at: usize,
        view: &View<'_>,
    ) -> Option<Diff> {
        lie(check(stage, pending, at, view))
    }
}

/// A lane that is honest, or a liar.
#[derive(Clone, Copy, Debug, PartialEq, Eq, Drop)]
pub enum EitherLane {
    /// It answers as `Honest`.
    Honest,
    /// It answers as `Liar`.
    Liar,
}

impl Lane for EitherLane {
    ghost use Rattle.std.specs.Prelude.{◌≡◌};
    ghost use Rattle.std.proofs.Common.{subst, ◌∙◌};
    ghost use Rattle.diva_vote.specs.declared.lanes.EitherLane.TheVariants as lanes;
    ghost use Rattle.diva_vote.specs.Lanes.{SaysEither};

    ghost says = { λ before q answer after. SaysEither before q answer × (after ≡ before) };

    ghost honest = { λ lane. lane ≡ lanes.Honest };

    ghost keeps = { λ lane q answer after is said. (subst (λ other. SaysEither other q answer) is said.0, said.1 ∙ is) };

    fn judge(
        &mut self,
        stage: Stage,
        pending: &Pending,
        at: usize,
        view: &View<'_>,
    ) -> Option<Diff> {
        match self {
            EitherLane::Honest => Honest.judge(stage, pending, at, view),
            EitherLane::Liar => Liar.judge(stage, pending, at, view),
        }
    }
}
