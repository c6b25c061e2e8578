//! Laws of the cores, and of their lines. Each function has no body: its clause is about the definitions.
ghost use Rattle.std.specs.Prelude.{ℕ, ◌≡◌, ◌<◌, List, [], None, Some, IfSome, slice_get, true};
ghost use Rattle.std.specs.List.{All};
ghost use Rattle.diva_isa.specs.Step.{record_of, steps};
ghost use Rattle.diva_claims.specs.Found.{IsRightOrFlushed, TellsMissingLine, TellsWrongLine};
ghost use Rattle.diva_isa.specs.declared.record.Record.{Record};
ghost use Rattle.diva_isa.specs.State.{State, goes_on};
ghost use Rattle.diva_core.specs.Difference.{first_difference};
ghost use Rattle.diva_core.specs.declared.differences.Diff.{Diff};
ghost use Rattle.diva_core.specs.Timed.{Timed, Config, new_timed};
ghost use Rattle.diva_core.specs.declared.flushes.FlushRow.{FlushRow};
ghost use Rattle.diva_core.specs.Headline.{AreRowsOf};
ghost use Rattle.diva_core.specs.History.{IsHistory, lists_of};
ghost use Rattle.diva_core.specs.Machine.{IsConfig};
ghost use Rattle.diva_core.specs.Right.{AreRight};
ghost use Rattle.diva_claims.specs.Calls.{IsClaimsCall};
ghost use Rattle.diva_claims.specs.Judged.{CountsInTheLast, HasJudged, IsLineCall, Rests};
ghost use Rattle.diva_claims.specs.Said.{AreLinesOf, IsLineOf, SaysOf, filled};
ghost use Rattle.diva_claims.specs.Wrong.{IsShown, first_wrong};
ghost use Rattle.diva_claims.specs.declared.said.Said.{Said};

/// Right lines are right claims: in each history of the core from a new machine on, if each instruction up to the end has a line of
/// which all is due, each list is right for the machine that it is handed to. So the machine is never flushed, whatever the lines
/// leave out, and whatever the machine's numbers.
#[tactic(auto, using(crate::proofs::Righting::lines_right, crate::proofs::Righting::lines_unflushed))]
pub fn right_lines_are_right()
    ensures right { (config : Config) (s : State) (lines : List Said) → IsConfig config → s.instret ≡ 0 → AreLinesOf lines s
        → (last : Timed) (after : List Said) (history : List (List Record × List Said))
        → IsHistory IsClaimsCall (new_timed config s) lines history last after
        → AreRight (new_timed config s) (lists_of history) }
    ensures flushes { (config : Config) (s : State) (lines : List Said) → IsConfig config → s.instret ≡ 0 → AreLinesOf lines s
        → (last : Timed) (after : List Said) (history : List (List Record × List Said))
        → IsHistory IsClaimsCall (new_timed config s) lines history last after
        → last.under.log.flushes ≡ 0 }
{}

/// A run without a flush tells that its lines are right: in each history of the core from a new machine on in which no flush came, each
/// instruction that was counted has a line, and all that the line says is what the table gives.
#[tactic(auto, using(crate::proofs::Finding::unflushed_right))]
pub fn unflushed_lines_are_right()
    ensures { (config : Config) (s : State) (lines : List Said) → IsConfig config → s.instret ≡ 0
        → (last : Timed) (after : List Said) (history : List (List Record × List Said))
        → IsHistory IsClaimsCall (new_timed config s) lines history last after
        → last.under.log.flushes ≡ 0 → (k : ℕ) → k < last.count → IsLineOf (slice_get lines k) (record_of (steps k s)) }
{}

/// Each flush for a difference tells of a wrong line: in each history from a new machine on, each row whose cause is a difference has
/// the place of a line that is wrong, and the first field in which it is; so has the newest one.
#[tactic(auto, using(crate::proofs::Telling::rows_tell_wrong, crate::proofs::Finding::newest_tells))]
pub fn flushes_tell_wrong_lines()
    ensures each { (config : Config) (s : State) (lines : List Said) → IsConfig config → s.instret ≡ 0
        → (last : Timed) (after : List Said) (history : List (List Record × List Said))
        → IsHistory IsClaimsCall (new_timed config s) lines history last after
        → (rows : List FlushRow) → AreRowsOf (new_timed config s) (lists_of history) rows
        → All (TellsWrongLine lines s) rows }
    ensures newest { (config : Config) (s : State) (lines : List Said) → IsConfig config → s.instret ≡ 0
        → (last : Timed) (after : List Said) (history : List (List Record × List Said))
        → IsHistory IsClaimsCall (new_timed config s) lines history last after
        → IfSome last.under.log.newest (TellsWrongLine lines s) }
{}

/// Each flush for silence tells of a missing line: in each history from a new machine on, there is no line at the place of a row whose
/// cause is silence; so it is with the newest one.
#[tactic(auto, using(crate::proofs::Telling::rows_tell_missing, crate::proofs::Barking::silent_tells))]
pub fn silent_flushes_have_no_line()
    ensures each { (config : Config) (s : State) (lines : List Said) → IsConfig config → s.instret ≡ 0
        → (last : Timed) (after : List Said) (history : List (List Record × List Said))
        → IsHistory IsClaimsCall (new_timed config s) lines history last after
        → (rows : List FlushRow) → AreRowsOf (new_timed config s) (lists_of history) rows
        → All (TellsMissingLine lines) rows }
    ensures newest { (config : Config) (s : State) (lines : List Said) → IsConfig config → s.instret ≡ 0
        → (last : Timed) (after : List Said) (history : List (List Record × List Said))
        → IsHistory IsClaimsCall (new_timed config s) lines history last after
        → IfSome last.under.log.newest (TellsMissingLine lines) }
{}

/// No wrong or missing line goes unseen: in each history of the core from a new machine on, each instruction that was counted has a line
/// of which all is what the table gives, or a row has its place, also after earlier flushes.
#[tactic(auto, using(crate::proofs::Placing::right_or_flushed))]
pub fn wrong_lines_are_flushed()
    ensures { (config : Config) (s : State) (lines : List Said) → IsConfig config → s.instret ≡ 0
        → (last : Timed) (after : List Said) (history : List (List Record × List Said))
        → IsHistory IsClaimsCall (new_timed config s) lines history last after
        → (rows : List FlushRow) → AreRowsOf (new_timed config s) (lists_of history) rows
        → (k : ℕ) → k < last.count → IsRightOrFlushed lines s rows k }
{}

/// A line is right if all that it says of a state's next instruction is due, and only then: each field that is said is that of the due
/// record, the register is the one that it writes, the mask is that of its store, and if some trap is said the record traps.
pub fn a_right_line_says_what_is_due()
    ensures said { (said : Said) (s : State) → IsLineOf (Some said) (record_of s) → SaysOf said (record_of s) }
    ensures right { (said : Said) (s : State) → SaysOf said (record_of s) → IsLineOf (Some said) (record_of s) }
{}

/// Nothing is wrong with a line that is right, and only with such a one.
#[tactic(auto, using(crate::proofs::Wronging::right_none, crate::proofs::Wronging::none_right))]
pub fn nothing_is_wrong_with_a_right_line()
    ensures none { (said : Said) (s : State) → IsLineOf (Some said) (record_of s) → first_wrong said (record_of s) ≡ None }
    ensures right { (said : Said) (s : State) → first_wrong said (record_of s) ≡ None → IsLineOf (Some said) (record_of s) }
{}

/// The first difference of a line's claim shows what is wrong with the line: it is in the same field, or in the end if what is wrong is
/// no field of a record.
#[tactic(auto, using(crate::proofs::Wronging::shown))]
pub fn a_flush_shows_what_is_wrong()
    ensures { (said : Said) (due : Record) (d : Diff) → first_difference (filled said due) due ≡ Some d
        → IsShown (first_wrong said due) d }
{}

/// A new machine rests.
#[tactic(auto, using(crate::proofs::Judging::new_rests))]
pub fn a_new_machine_rests()
    ensures { (config : Config) (s : State) → IsConfig config → s.instret ≡ 0 → Rests (new_timed config s) }
{}

/// A machine that rests judges a line: in each history of `LineCore` with that line, up to the cycle in which the next instruction is
/// counted, a flush comes if and only if the line is wrong, and for a difference that shows what is wrong; then the machine rests again.
#[tactic(auto, using(crate::proofs::Judging::judged))]
pub fn a_line_is_judged()
    ensures { (m : Timed) (said : Said) → Rests m → goes_on m.arch ≡ true
        → (last : Timed) (after : Said) (history : List (List Record × Said))
        → IsHistory IsLineCall m said history last after → CountsInTheLast m (lists_of history)
        → HasJudged m last said }
{}
