//! What the open machine has in common with the machine that has its checker, and with the table. The functions have no body: their clauses are
//! about the definitions.
ghost use Rattle.std.specs.Prelude.{◌≡◌, List, None};
ghost use Rattle.diva_isa.specs.declared.record.Record.{Record};
ghost use Rattle.diva_core.specs.Timed.{Timed};
ghost use Rattle.diva_core.specs.Cycle.{run_of};
ghost use Rattle.diva_core.specs.Headline.{Rises};
ghost use Rattle.diva_core.specs.Machine.{IsMachine};
ghost use Rattle.diva_core.specs.Right.{AreRight, IsCalm};
ghost use Rattle.diva_open.specs.Laws.{opened};
ghost use Rattle.diva_open.specs.Open.{Open, open_run_of};

/// Right lists lead a calm machine to the same machine with the checker and without it, cycle for cycle, and no record leaves that was not
/// due.
#[tactic(auto, using(crate::proofs::Righting::right_run))]
pub fn right_lists_lead_to_the_same()
    ensures { (m : Timed) (lists : List (List Record)) → IsMachine m → IsCalm m → AreRight m lists
        → open_run_of (opened m) lists ≡ opened (run_of m lists) }
{}

/// As long as no record has left that was not due, the committed state is the table's after the counted instructions.
#[tactic(auto, using(crate::proofs::Placed::no_place_rises))]
pub fn without_a_place_the_state_is_due()
    ensures { (o : Open) (lists : List (List Record)) → (open_run_of o lists).place ≡ None
        → Rises o.timed (open_run_of o lists).timed }
{}
