//! Laws of the images of seeds. Each function has no body: its clause is about the definitions.
ghost use Rattle.std.specs.Prelude.{ℕ, ◌≤◌, ◌+◌};
ghost use Rattle.diva_image.specs.Layout.{most_size};
ghost use Rattle.diva_hart.specs.Start.{start_of};
ghost use Rattle.diva_soak.specs.Halts.{HaltsWithin};
ghost use Rattle.diva_soak.specs.Soak.{soak_of, soak_size};

/// The state that the image of a seed starts, with `n` drawn instructions for which memory has room, halts with status 0 after
/// `n + 3` instructions at most: data lies below the code, so no store changes it, and each instruction leads to the next one or over it.
#[tactic(auto, using(crate::proofs::Halting::soak_halts))]
pub fn soak_halts()
    ensures { (seed n : ℕ) → soak_size n ≤ most_size → HaltsWithin (n + 3) (start_of (soak_of seed n)) }
{}
