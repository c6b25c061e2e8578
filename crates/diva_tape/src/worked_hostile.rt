//! Runs under the cores that are wrong by their rule, which were worked out by hand. Each function has no body, as in `worked`.
//!
//! Each flush costs 13 cycles here: one claim more is accepted in the cycle after the solo instruction commits, and it is
//! judged six cycles later.
#![tactic(auto, unfolding(diva_decode::specs::Table::row_of, diva_isa::specs::Step::record_of, diva_isa::specs::Step::apply, diva_isa::specs::Step::step, diva_core::specs::Cycle::cycle_under, diva_core::specs::Cycle::commits_under, diva_core::specs::Cycle::accepts, diva_core::specs::Cycle::watched, diva_core::specs::Cycle::drained, diva_core::specs::Cycle::flushed, diva_core::specs::Cycle::committed, diva_core::specs::Cycle::puts_store, diva_core::specs::Difference::first_difference, diva_seed::specs::Generator::next_number, crate::specs::Noise::noise_claim))]

ghost use Rattle.std.specs.Prelude.{◌≡◌, [], ◌∷◌};
ghost use Rattle.diva_core.specs.declared.differences.Field.TheVariants.{Pc, Word};
ghost use Rattle.diva_core.specs.Timed.{default_config, new_timed};
ghost use Rattle.diva_isa.specs.End.{halt};
ghost use Rattle.diva_tape.specs.Lists.{echo_list, flood_list};
ghost use Rattle.diva_tape.specs.Noise.{noise_lists};
ghost use Rattle.diva_tape.specs.Programs.{acceptances, these_lists, led_by, summary_of, differed, three_instructions};

/// Zeros have the first instruction's pc, and the word of none.
pub fn three_instructions_in_a_flood()
    ensures { summary_of (led_by flood_list 50 (new_timed default_config three_instructions))
        ≡ record { end = halt 0; count = 3; cycles = 39; flushes = 3; silent = 0; rows = differed 7 0 Word 0 0x00500093 ∷ differed 20 1 Pc 0 4 ∷ differed 33 2 Pc 0 8 ∷ [] } }
{}

/// The first claim is right, the second one is the first again. Behind the flush comes the claim of the last instruction.
pub fn three_instructions_with_an_echo()
    ensures accepted { acceptances echo_list 20 (new_timed default_config three_instructions)
        ≡ 1 ∷ 2 ∷ 3 ∷ 4 ∷ 5 ∷ 6 ∷ 7 ∷ 15 ∷ 16 ∷ 17 ∷ 18 ∷ 19 ∷ 20 ∷ [] }
    ensures summary { summary_of (led_by echo_list 30 (new_timed default_config three_instructions))
        ≡ record { end = halt 0; count = 3; cycles = 21; flushes = 1; silent = 0; rows = differed 8 1 Pc 0 4 ∷ [] } }
{}

/// The first number after 0 is the generator's increment. What is judged is the claim of the calls 1, 14 and 27.
pub fn three_instructions_in_noise()
    ensures first { noise_lists 1 0 ≡ ((record {
      pc = 0x3c6ef35f;
      word = 0x47502932;
      src1 = 0xd1ccf6e9;
      src2 = 0xaaf95334;
      addr = 0x6252e503;
      value = 0x9f2ec686;
      next = 0x57fe6c2d;
      end = 0xa3d95fa8;
    }) ∷ []) ∷ [] }
    ensures summary { summary_of (led_by (these_lists (noise_lists 50 0)) 50 (new_timed default_config three_instructions))
        ≡ record { end = halt 0; count = 3; cycles = 39; flushes = 3; silent = 0; rows = differed 7 0 Pc 0x3c6ef35f 0 ∷ differed 20 1 Pc 0xcb537747 4 ∷ differed 33 2 Pc 0x4571142f 8 ∷ [] } }
{}
