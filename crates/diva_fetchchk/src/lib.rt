//! The checker's first stage: where a pending claim says that its instruction stands, and the word that it says stands there.
//!
//! The fields are those of the row `fetch` of `diva_core`'s `specs/Stages.antt`, compared with the record that is due after the
//! older claims.
#![tactic(auto)]

ghost use Rattle.std.specs.Prelude.{◌≡◌, ◌<◌, length, Some, slice_get};
ghost use Rattle.diva_isa.specs.Step.{record_of};
ghost use Rattle.diva_core.specs.declared.pending.Entry.{Entry};
ghost use Rattle.diva_core.specs.Older.{before_entry};
ghost use Rattle.diva_core.specs.Stages.{Answers, fetch};

use diva_core::{Bypass, Diff, Field, Pending, View};
use diva_isa::{Look, Record, fetch};

/// The first difference in pc and word between the claim at a place (the oldest is at 0) and the record that is due after the
/// older claims, `None` where there is none. Where the older claims have ended the machine nothing is said of the answer.
#[inline(always)]
pub fn check(pending: &Pending, at: usize, view: &View<'_>) -> Option<Diff>
    requires { at < length pending.now.items }
    ensures { (e : Entry) → slice_get pending.now.items at ≡ Some e
        → Answers fetch (before_entry view.now pending.now.items at) e.claim result }
{
    let claim = &pending.at(at).claim;
    let (pc, word) = pc_and_word(&Bypass::new(pending, at, view));
    if claim.pc != pc {
        return Some(Diff::new(Field::Pc, claim.pc, pc));
    }
    if claim.word != word {
        return Some(Diff::new(Field::Word, claim.word, word));
    }
    None
}

/// Gives a record the pc of a state and the word there, 0 where there is none. Its other fields stay.
pub fn solo(r: &mut Record, view: &View<'_>)
    ensures { let due = record_of view.now in
        r.new ≡ record r.old { pc = due.pc; word = due.word } }
{
    (r.pc, r.word) = pc_and_word(view);
}

/// The pc of a state, and the word there, 0 where there is none.
#[inline(always)]
#[tactic(auto, using(diva_isa::proofs::Parts::pc_is, diva_isa::proofs::Parts::word_is))]
fn pc_and_word<L: Look>(state: &L) -> (u32, u32)
    ensures { let due = record_of (L.shows state.now) in (result.0 ≡ due.pc) × (result.1 ≡ due.word) }
{
    (state.pc(), fetch(state).unwrap_or(0))
}
