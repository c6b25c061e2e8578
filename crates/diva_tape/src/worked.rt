//! Runs that were worked out by hand. Each function has no body: its clauses are about the
//! definitions, and computing with them gives the worked values. So the definitions mean what was
//! meant.
//!
//! The machine's numbers are 2 claims accepted and judged in a cycle, 16 pending, 4 owed
//! stores, a watchdog's limit of 64 cycles and a port that takes a store in each cycle, where no
//! others are given.
#![tactic(auto, unfolding(diva_decode::specs::Table::row_of, diva_isa::specs::Step::record_of, diva_isa::specs::Step::apply, diva_isa::specs::Step::step, diva_core::specs::Cycle::cycle_under, diva_core::specs::Cycle::commits_under, diva_core::specs::Cycle::accepts, diva_core::specs::Cycle::watched, diva_core::specs::Cycle::drained, diva_core::specs::Cycle::flushed, diva_core::specs::Cycle::committed, diva_core::specs::Cycle::puts_store, diva_core::specs::Difference::first_difference))]

ghost use Rattle.std.specs.Prelude.{◌≡◌, [], ◌∷◌};
ghost use Rattle.diva_core.specs.declared.differences.Field.TheVariants.{Pc, Word, Value};
ghost use Rattle.diva_core.specs.Timed.{default_config, new_timed};
ghost use Rattle.diva_isa.specs.declared.trap.Trap.TheVariants.{InstructionMisaligned, InstructionAccessFault, LoadMisaligned};
ghost use Rattle.diva_isa.specs.State.{reg_of};
ghost use Rattle.diva_isa.specs.End.{halt, trap};
ghost use Rattle.diva_isa.specs.Step.{record_of, step, steps};
ghost use Rattle.diva_tape.specs.Lists.{lockstep_list, silent_list};
ghost use Rattle.diva_tape.specs.Scalar.{scalar_list};
ghost use Rattle.diva_tape.specs.Programs.{led_by, summary_of, differed, was_silent, acceptances, commitments, registers};
ghost use Rattle.diva_tape.specs.Programs.{these_lists, hushed, flipped_first, second_twice, eight_at_once, two_at_once, second_wrong, late_and_wrong, stale_word};
ghost use Rattle.diva_tape.specs.Programs.{three_instructions, jump_to_itself, one_word, misaligned_load_outside, jump_to_six, write_to_x0, division_by_zero, least_by_minus_one, store_then_load, store_over_next_word, two_stores};

// ---- single instructions

/// The record of `addi x1, x0, 5`, and what the program leaves in the registers.
pub fn three_instructions_step_by_step()
    ensures first { record_of three_instructions
        ≡ record { pc = 0; word = 0x00500093; src1 = 0; src2 = 0; addr = 0; value = 5; next = 4; end = 0 } }
    ensures registers { registers (1 ∷ 17 ∷ []) (steps 3 three_instructions) ≡ 5 ∷ 93 ∷ [] }
    ensures pc { (steps 3 three_instructions).pc ≡ 8 }
    ensures end { (steps 3 three_instructions).end ≡ halt 0 }
{}

/// A load that is both misaligned and outside memory: misaligned wins. A trap changes nothing else but that it is one
/// instruction more.
pub fn misaligned_wins_over_outside()
    ensures step { step misaligned_load_outside ≡ record misaligned_load_outside { instret = 1; end = trap LoadMisaligned } }
    ensures summary { summary_of (led_by lockstep_list 20 (new_timed default_config misaligned_load_outside))
        ≡ record { end = trap LoadMisaligned; count = 1; cycles = 7; flushes = 0; silent = 0; rows = [] } }
{}

/// A jump to an address that is not a multiple of four traps, and writes no register.
pub fn a_jump_to_no_multiple_of_four_traps()
    ensures step { step jump_to_six ≡ record jump_to_six { instret = 1; end = trap InstructionMisaligned } }
    ensures summary { summary_of (led_by lockstep_list 20 (new_timed default_config jump_to_six))
        ≡ record { end = trap InstructionMisaligned; count = 1; cycles = 7; flushes = 0; silent = 0; rows = [] } }
{}

/// A fetch behind the last word of memory traps.
pub fn a_fetch_outside_memory_traps()
    ensures second { record_of (step one_word)
        ≡ record { pc = 4; word = 0; src1 = 0; src2 = 0; addr = 0; value = 0; next = 4; end = trap InstructionAccessFault } }
    ensures summary { summary_of (led_by lockstep_list 20 (new_timed default_config one_word))
        ≡ record { end = trap InstructionAccessFault; count = 2; cycles = 14; flushes = 0; silent = 0; rows = [] } }
{}

/// x0 stays 0, though its record has the value that was computed.
pub fn a_write_to_x0_is_ignored()
    ensures value { (record_of write_to_x0).value ≡ 7 }
    ensures registers { registers (0 ∷ 1 ∷ []) (steps 2 write_to_x0) ≡ 0 ∷ 0 ∷ [] }
    ensures summary { summary_of (led_by scalar_list 20 (new_timed default_config write_to_x0))
        ≡ record { end = halt 0; count = 4; cycles = 10; flushes = 0; silent = 0; rows = [] } }
{}

/// A division by zero does not trap: the quotient is all ones.
pub fn division_by_zero_is_all_ones()
    ensures { reg_of (steps 2 division_by_zero) 3 ≡ 0xffffffff }
{}

/// The one quotient that has no word: it is the least number again, and the remainder is 0.
pub fn the_least_number_divided_by_minus_one()
    ensures { registers (3 ∷ 4 ∷ []) (steps 4 least_by_minus_one) ≡ 0x80000000 ∷ 0 ∷ [] }
{}

// ---- stores that are seen by what follows them

/// A byte that was stored in the cycle before is seen by a load of the whole word.
pub fn a_store_in_flight_is_seen_by_a_load()
    ensures registers { registers (1 ∷ 2 ∷ []) (steps 3 store_then_load)
        ≡ 0x00000055 ∷ 0x44335511 ∷ [] }
    ensures summary { summary_of (led_by scalar_list 20 (new_timed default_config store_then_load))
        ≡ record { end = halt 0; count = 5; cycles = 11; flushes = 0; silent = 0; rows = [] } }
{}

/// A store over the next instruction's word is seen by its fetch at once.
pub fn a_store_over_the_next_word()
    ensures end { (steps 4 store_over_next_word).end ≡ halt 0 }
    ensures summary { summary_of (led_by scalar_list 20 (new_timed default_config store_over_next_word))
        ≡ record { end = halt 0; count = 4; cycles = 10; flushes = 0; silent = 0; rows = [] } }
{}

/// A core that fetched before that store claims the old word, which flushes.
pub fn a_stale_word_flushes()
    ensures summary { summary_of (led_by (these_lists stale_word) 20 (new_timed default_config store_over_next_word))
        ≡ record { end = halt 0; count = 4; cycles = 16; flushes = 1; silent = 0; rows = differed 10 3 Word 0x00000013 0x00000073 ∷ [] } }
{}

/// Two stores commit in one cycle where four may be owed. Where one may, the second waits a cycle.
pub fn a_store_waits_for_room()
    ensures with_one { commitments (these_lists two_at_once) 20 (new_timed (record default_config { stores = 1 }) two_stores)
        ≡ 7 ∷ 8 ∷ 8 ∷ 9 ∷ [] }
    ensures with_four { commitments (these_lists two_at_once) 20 (new_timed default_config two_stores)
        ≡ 7 ∷ 7 ∷ 8 ∷ 8 ∷ [] }
    ensures summary { summary_of (led_by (these_lists two_at_once) 20 (new_timed (record default_config { stores = 1 }) two_stores))
        ≡ record { end = halt 0; count = 4; cycles = 9; flushes = 0; silent = 0; rows = [] } }
{}

/// Memory's port takes a store in each sixth cycle. Where one store may be owed, the second is ready in cycle 7 and waits
/// until the first goes to memory in cycle 12, and nothing flushes. Where four may be owed, neither waits. A wrong claim of
/// the second store does not wait: it flushes in cycle 7.
pub fn a_slow_port_holds_a_store()
    ensures with_one { commitments (these_lists two_at_once) 20 (new_timed (record default_config { stores = 1; port = 6 }) two_stores)
        ≡ 7 ∷ 12 ∷ 12 ∷ 13 ∷ [] }
    ensures summary { summary_of (led_by (these_lists two_at_once) 20 (new_timed (record default_config { stores = 1; port = 6 }) two_stores))
        ≡ record { end = halt 0; count = 4; cycles = 13; flushes = 0; silent = 0; rows = [] } }
    ensures with_four { summary_of (led_by (these_lists two_at_once) 20 (new_timed (record default_config { port = 6 }) two_stores))
        ≡ record { end = halt 0; count = 4; cycles = 8; flushes = 0; silent = 0; rows = [] } }
    ensures wrong { commitments (these_lists second_wrong) 160 (new_timed (record default_config { stores = 1; port = 6 }) two_stores)
        ≡ 7 ∷ 13 ∷ 83 ∷ 153 ∷ [] }
    ensures flushed { summary_of (led_by (these_lists second_wrong) 160 (new_timed (record default_config { stores = 1; port = 6 }) two_stores))
        ≡ record { end = halt 0; count = 4; cycles = 153; flushes = 3; silent = 2; rows = differed 7 1 Value 1 0 ∷ was_silent 77 2 64 ∷ was_silent 147 3 64 ∷ [] } }
{}

// ---- right claims

/// An instruction that is handed over by itself commits six cycles later, and the next is accepted
/// in the cycle after that.
pub fn three_instructions_in_lockstep()
    ensures accepted { acceptances lockstep_list 30 (new_timed default_config three_instructions)
        ≡ 1 ∷ 8 ∷ 15 ∷ [] }
    ensures committed { commitments lockstep_list 30 (new_timed default_config three_instructions)
        ≡ 7 ∷ 14 ∷ 21 ∷ [] }
    ensures summary { summary_of (led_by lockstep_list 30 (new_timed default_config three_instructions))
        ≡ record { end = halt 0; count = 3; cycles = 21; flushes = 0; silent = 0; rows = [] } }
    ensures state { (led_by lockstep_list 30 (new_timed default_config three_instructions)).arch
        ≡ steps 3 three_instructions }
{}

/// Claims that follow one another by a cycle commit so.
pub fn three_instructions_one_by_one()
    ensures accepted { acceptances scalar_list 20 (new_timed default_config three_instructions)
        ≡ 1 ∷ 2 ∷ 3 ∷ [] }
    ensures committed { commitments scalar_list 20 (new_timed default_config three_instructions)
        ≡ 7 ∷ 8 ∷ 9 ∷ [] }
    ensures summary { summary_of (led_by scalar_list 20 (new_timed default_config three_instructions))
        ≡ record { end = halt 0; count = 3; cycles = 9; flushes = 0; silent = 0; rows = [] } }
{}

/// Claims past the room are dropped.
pub fn claims_past_the_room_are_dropped()
    ensures accepted { acceptances (these_lists eight_at_once) 20 (new_timed default_config three_instructions)
        ≡ 1 ∷ 1 ∷ 2 ∷ 2 ∷ [] }
    ensures summary { summary_of (led_by (these_lists eight_at_once) 20 (new_timed default_config three_instructions))
        ≡ record { end = halt 0; count = 3; cycles = 8; flushes = 0; silent = 0; rows = [] } }
{}

// ---- wrong claims

/// A claim with one wrong bit flushes. That instruction then runs solo, on the checker's own values,
/// for six cycles.
pub fn a_flipped_value_flushes()
    ensures accepted { acceptances flipped_first 30 (new_timed default_config three_instructions)
        ≡ 1 ∷ 14 ∷ 21 ∷ [] }
    ensures committed { commitments flipped_first 30 (new_timed default_config three_instructions)
        ≡ 13 ∷ 20 ∷ 27 ∷ [] }
    ensures summary { summary_of (led_by flipped_first 30 (new_timed default_config three_instructions))
        ≡ record { end = halt 0; count = 3; cycles = 27; flushes = 1; silent = 0; rows = differed 7 0 Value 4 5 ∷ [] } }
    ensures state { (led_by flipped_first 30 (new_timed default_config three_instructions)).arch
        ≡ steps 3 three_instructions }
{}

/// A right claim that comes twice commits once, and flushes the second time.
pub fn a_claim_made_twice_flushes()
    ensures summary { summary_of (led_by (these_lists second_twice) 20 (new_timed default_config three_instructions))
        ≡ record { end = halt 0; count = 3; cycles = 14; flushes = 1; silent = 0; rows = differed 8 2 Pc 4 8 ∷ [] } }
{}

/// A wrong claim that is judged in the very cycle in which the watchdog would flush: the claim is the
/// cause. After it the watchdog flushes for each instruction. Its limit is 16 cycles.
pub fn a_wrong_claim_comes_before_the_watchdog()
    ensures committed { commitments (these_lists late_and_wrong) 70 (new_timed (record default_config { limit = 16 }) three_instructions)
        ≡ 22 ∷ 44 ∷ 66 ∷ [] }
    ensures summary { summary_of (led_by (these_lists late_and_wrong) 70 (new_timed (record default_config { limit = 16 }) three_instructions))
        ≡ record { end = halt 0; count = 3; cycles = 66; flushes = 3; silent = 2; rows = differed 16 0 Value 4 5 ∷ was_silent 38 1 16 ∷ was_silent 60 2 16 ∷ [] } }
{}

// ---- silence

/// Where nothing is handed over, the watchdog flushes after 64 cycles and the instruction commits six
/// cycles later: 70 for each, which is the bound.
pub fn three_instructions_in_silence()
    ensures committed { commitments silent_list 220 (new_timed default_config three_instructions)
        ≡ 70 ∷ 140 ∷ 210 ∷ [] }
    ensures summary { summary_of (led_by silent_list 220 (new_timed default_config three_instructions))
        ≡ record { end = halt 0; count = 3; cycles = 210; flushes = 3; silent = 3; rows = was_silent 64 0 64 ∷ was_silent 134 1 64 ∷ was_silent 204 2 64 ∷ [] } }
    ensures state { (led_by silent_list 220 (new_timed default_config three_instructions)).arch
        ≡ steps 3 three_instructions }
{}

/// A program that never ends goes on in silence too.
pub fn a_jump_to_itself_in_silence()
    ensures summary { summary_of (led_by silent_list 140 (new_timed default_config jump_to_itself))
        ≡ record { end = 0; count = 2; cycles = 140; flushes = 2; silent = 2; rows = was_silent 64 0 64 ∷ was_silent 134 1 64 ∷ [] } }
{}

/// A core falls silent for 200 cycles, and then goes on where the machine is.
pub fn a_silence_of_200_cycles()
    ensures summary { summary_of (led_by (hushed 5 204 scalar_list) 300 (new_timed default_config jump_to_itself))
        ≡ record { end = 0; count = 96; cycles = 300; flushes = 2; silent = 2; rows = was_silent 74 4 64 ∷ was_silent 144 5 64 ∷ [] } }
{}
