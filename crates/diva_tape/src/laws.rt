//! Laws of the simple cores over whole histories of turns. Each function has no body: its clause is
//! about the definitions.
ghost use Rattle.std.specs.Prelude.{ℕ, ◌≡◌, ◌≢◌, ◌+◌, ◌-◌, List, [], Some, length, map, true, false};
ghost use Rattle.diva_isa.specs.declared.record.Record.{Record};
ghost use Rattle.diva_core.specs.Timed.{Timed, Config, depth, epoch_of, new_timed};
ghost use Rattle.diva_core.specs.Undone.{CanUndo, undone};
ghost use Rattle.diva_isa.specs.declared.undo.Undo.{Undo};
ghost use Rattle.diva_ahead.specs.Ahead.{Ahead, is_epoch};
ghost use Rattle.diva_core.specs.Cycle.{cycle_of};
ghost use Rattle.diva_core.specs.History.{FollowRule, IsHistory, lists_of};
ghost use Rattle.diva_core.specs.Legs.{AreLegs, EachPart, Leg, OfLists, part_of};
ghost use Rattle.diva_core.specs.Machine.{IsMachine, IsConfig};
ghost use Rattle.diva_core.specs.Right.{AreRight, IsCalm};
ghost use Rattle.diva_core.specs.Told.{told_of};
ghost use Rattle.diva_isa.specs.State.{State, goes_on};
ghost use Rattle.diva_tape.specs.Lists.{IsLockstepCall};
ghost use Rattle.diva_tape.specs.Noise.{noise_call, noise_lists};
ghost use Rattle.diva_tape.specs.Scalar.{IsPast, IsScalarCall, MayLead, new_scalar, scalar_list};
ghost use Rattle.diva_tape.specs.TapeCalls.{played, tape_call};
ghost use Rattle.diva_tape.specs.declared.lockstep.Lockstep.{Lockstep};

/// `Lockstep` is always right: in each of its histories, from any machine, each list is right for the
/// machine that it is handed to. So a calm machine that `Lockstep` drives is never flushed.
#[tactic(auto, using(crate::proofs::Righting::lockstep_history_right))]
pub fn lockstep_is_right()
    ensures { (m last : Timed) (before after : Lockstep) (history : List (List Record × Lockstep))
        → IsHistory IsLockstepCall m before history last after → AreRight m (lists_of history) }
{}

/// `Scalar` is right from a machine on at which it may lead, and it may from its making on, where no instruction has led to the
/// state that the machine begins with. In each of its histories from
/// there, a list has just the record that is due behind the pending claims, where there is room and the machine goes on
/// behind them, and else nothing. So each list is right for the machine that it is handed to, and a calm machine that
/// `Scalar` drives is never flushed.
#[tactic(auto, using(crate::proofs::Following::scalar_history, crate::proofs::Following::scalar_history_right, crate::proofs::Following::new_leads))]
pub fn scalar_is_right()
    ensures lists { (m last : Timed) (before after : Ahead) (history : List (List Record × Ahead))
        → MayLead m before → IsHistory IsScalarCall m before history last after → FollowRule scalar_list m (lists_of history) }
    ensures right { (m last : Timed) (before after : Ahead) (history : List (List Record × Ahead))
        → MayLead m before → IsHistory IsScalarCall m before history last after → AreRight m (lists_of history) }
    ensures new { (config : Config) (s : State) → IsConfig config → s.instret ≡ 0 → MayLead (new_timed config s) new_scalar }
{}

/// `Scalar` is right as well from such a machine on where instructions are taken back between its turns, in each part of what it
/// hands over, if the epoch that it has taken is not a later one than the machine's.
#[tactic(auto, using(crate::proofs::Returning::scalar_legs, crate::proofs::Returning::scalar_legs_right))]
pub fn scalar_is_right_behind_undos()
    ensures lists { (m last : Timed) (before after : Ahead) (legs : List (Leg Ahead))
        → MayLead m before → IsPast before m → AreLegs IsScalarCall m before legs last after
        → EachPart (OfLists (FollowRule scalar_list)) m (map part_of legs) }
    ensures right { (m last : Timed) (before after : Ahead) (legs : List (Leg Ahead))
        → MayLead m before → IsPast before m → AreLegs IsScalarCall m before legs last after
        → EachPart (OfLists AreRight) m (map part_of legs) }
{}

/// `Scalar` may lead again after each flush, whatever the machine was handed, if it has taken no epoch yet, or none that is
/// later than the machine's, which stays so in each cycle in which it is asked: at once, since while an instruction runs
/// solo there is no room and `Scalar` takes no epoch; and where that instruction commits the machine is calm, with nothing
/// pending, and its epoch is still not `Scalar`'s. So it may where the last instruction is taken back.
pub fn scalar_may_lead_again()
    ensures flushed { (m : Timed) (before after : Ahead) (list handed : List Record)
        → IsMachine m → IsPast before m → IsScalarCall before (told_of m) m.arch list after
        → (cycle_of m handed).under.log.flushes ≢ m.under.log.flushes → MayLead (cycle_of m handed) after }
    ensures past { (m : Timed) (before after : Ahead) (list handed : List Record)
        → IsMachine m → IsPast before m → IsScalarCall before (told_of m) m.arch list after
        → IsPast after (cycle_of m handed) }
    ensures committed { (m : Timed) (before after : Ahead) (list : List Record) (start : ℕ)
        → IsMachine m → goes_on m.arch ≡ true → m.under.solo ≡ Some start → m.cycles + 1 ≡ start + depth
        → is_epoch before.epoch (epoch_of m) ≡ false → IsScalarCall before (told_of m) m.arch list after
        → let last = cycle_of m list in
        IsCalm last × (last.under.pending ≡ []) × (is_epoch after.epoch (epoch_of last) ≡ false) }
    ensures undone { (m : Timed) (core : Ahead) (u : Undo) → IsMachine m → CanUndo m u → IsPast core m → MayLead (undone m u) core }
{}

/// `Scalar` keeps a new machine as fast as it can be, whatever the program and the machine's other numbers, where its port
/// takes a store in each cycle: it counts an instruction in each cycle but the first six, until it ends, six cycles after
/// the claim of its last instruction was handed over. With a slower port a store may wait. The machine is never flushed,
/// whatever its port.
#[tactic(auto, using(crate::proofs::Pacing::scalar_runs, crate::proofs::Pacing::scalar_ends, crate::proofs::Pacing::scalar_unflushed))]
pub fn scalar_keeps_pace()
    ensures running { (config : Config) (s : State) (last : Timed) (after : Ahead) (history : List (List Record × Ahead))
        → IsConfig config → config.port ≡ 1 → s.instret ≡ 0 → IsHistory IsScalarCall (new_timed config s) new_scalar history last after
        → goes_on last.arch ≡ true → last.count ≡ last.cycles - depth }
    ensures ended { (config : Config) (s : State) (last : Timed) (after : Ahead) (history : List (List Record × Ahead))
        → IsConfig config → config.port ≡ 1 → s.instret ≡ 0 → goes_on s ≡ true → IsHistory IsScalarCall (new_timed config s) new_scalar history last after
        → goes_on last.arch ≡ false → last.cycles ≡ last.count + depth }
    ensures flushes { (config : Config) (s : State) (last : Timed) (after : Ahead) (history : List (List Record × Ahead))
        → IsConfig config → s.instret ≡ 0 → IsHistory IsScalarCall (new_timed config s) new_scalar history last after → last.under.log.flushes ≡ 0 }
{}

/// A core that plays a tape hands over, in each of its histories, from any machine, the lists of the tape in their order,
/// and then empty ones.
#[tactic(auto, using(crate::proofs::Playing::log_played))]
pub fn tape_core_plays()
    ensures { (m last : Timed) (before after : List (List Record)) (history : List (List Record × List (List Record)))
        → IsHistory tape_call m before history last after → lists_of history ≡ played (length history) before }
{}

/// `Noise` hands over, in each of its histories, from any machine, the claims of its numbers in their order, one in each
/// call, whatever becomes of them: how often it was asked is all that it goes by.
#[tactic(auto, using(crate::proofs::Sounding::log_noise))]
pub fn noise_goes_by_its_calls()
    ensures { (m last : Timed) (before after : ℕ) (history : List (List Record × ℕ))
        → IsHistory noise_call m before history last after → lists_of history ≡ noise_lists (length history) before }
{}
