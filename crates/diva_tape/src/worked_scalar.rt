//! Runs under the core `Scalar`, call by call, that were worked out by hand. Each function has no body, as in `worked`.
#![tactic(auto, unfolding(diva_decode::specs::Table::row_of, diva_isa::specs::Step::record_of, diva_isa::specs::Step::apply, diva_isa::specs::Step::step, diva_core::specs::Cycle::cycle_under, diva_core::specs::Cycle::commits_under, diva_core::specs::Cycle::accepts, diva_core::specs::Cycle::watched, diva_core::specs::Cycle::drained, diva_core::specs::Cycle::flushed, diva_core::specs::Cycle::committed, diva_core::specs::Cycle::puts_store, diva_core::specs::Difference::first_difference, diva_ahead::specs::Effects::done_by, diva_ahead::specs::Ahead::taken_over, diva_ahead::specs::Ahead::trimmed, diva_ahead::specs::Ahead::with_record, crate::specs::Scalar::scalar_call))]

ghost use Rattle.std.specs.Prelude.{◌≡◌, [], ◌∷◌};
ghost use Rattle.diva_isa.specs.End.{halt};
ghost use Rattle.diva_tape.specs.Programs.{Driven, new_driven, registers, summary_of, turns_of};
ghost use Rattle.diva_tape.specs.Programs.{store_over_next_word, store_then_load, three_instructions, write_to_x0};

/// Claims follow one another by a cycle, and the first commits in cycle 7.
pub fn three_instructions_by_scalar()
    ensures { let last = turns_of 20 (new_driven three_instructions) in summary_of last.machine
        ≡ record { end = halt 0; count = 3; cycles = 9; flushes = 0; silent = 0; rows = [] } }
{}

/// x0 stays 0 in the core's own registers too.
pub fn a_write_to_x0_by_scalar()
    ensures summary { let last = turns_of 20 (new_driven write_to_x0) in summary_of last.machine
        ≡ record { end = halt 0; count = 4; cycles = 10; flushes = 0; silent = 0; rows = [] } }
    ensures registers { let last = turns_of 20 (new_driven write_to_x0) in
        registers (1 ∷ []) last.machine.arch ≡ 0 ∷ [] }
{}

/// A load of the word sees the byte that was stored in the call before.
pub fn a_store_in_flight_by_scalar()
    ensures summary { let last = turns_of 20 (new_driven store_then_load) in summary_of last.machine
        ≡ record { end = halt 0; count = 5; cycles = 11; flushes = 0; silent = 0; rows = [] } }
    ensures registers { let last = turns_of 20 (new_driven store_then_load) in
        registers (1 ∷ 2 ∷ []) last.machine.arch ≡ 0x00000055 ∷ 0x44335511 ∷ [] }
{}

/// So does the fetch behind a store over the next word.
pub fn a_store_over_the_next_word_by_scalar()
    ensures { let last = turns_of 20 (new_driven store_over_next_word) in summary_of last.machine
        ≡ record { end = halt 0; count = 4; cycles = 10; flushes = 0; silent = 0; rows = [] } }
{}
