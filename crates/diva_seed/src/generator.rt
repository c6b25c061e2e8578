// A linear congruential generator.
ghost use Rattle.std.specs.Prelude.{◌≡◌};
ghost use Rattle.diva_seed.specs.Generator.{next_number};

/// The number that follows `x`. A seed is a number with which one begins.
#[inline]
#[tactic(auto, unfolding(crate::specs::Generator::next_number))]
pub fn next_number(x: u32) -> u32
    ensures { result ≡ next_number x }
{
    x.wrapping_mul(1_664_525).wrapping_add(1_013_904_223)
}
