// What faults cost in cycles.
ghost use Rattle.std.specs.Prelude.{◌≡◌, ◌≤◌, ◌<◌, ◌^◌, ◌*◌, ◌-◌, ◌+◌, ◌/◌, length, find, not};
ghost use Rattle.std.specs.List.{sum_by};
ghost use Rattle.std.specs.Option.{option_map};
ghost use Rattle.diva_rate.specs.Extra.{base_of, extra_of, extra_over, cycles_of};

use crate::injection::Injection;

/// A mean of cycles over those of a run without a fault, or under them, rounded to hundredths.
#[derive(Clone, Copy, Debug, PartialEq, Eq)]
pub struct Extra {
    /// Whether it is less than 0 when it is rounded.
    pub is_negative: bool,
    /// Whole cycles of its size.
    pub whole: u64,
    /// Further hundredths of a cycle: at most 99.
    pub hundredths: u8,
}

/// The cycles of the run without a fault: those of the first line whose fault hit nothing.
pub(crate) fn base(lines: &[Injection]) -> Option<u64>
    ensures { result ≡ base_of lines.now }
{
    let line = lines.iter().find(|line| !line.effect.hit)?;
    Some(line.effect.cycles)
}

/// The mean of the cycles of some lines over those of a run without a fault, rounded to the nearest hundredth, a half up.
pub(crate) fn extra_over_base(base: u64, lines: &[Injection]) -> Extra
    requires some { 0 < length lines.now }
    requires few { length lines.now < 2 ^ 32 }
    ensures { result ≡ extra_of base lines.now }
{
    let count = lines.len() as u32;
    let (total, due) = (total(lines), u128::from(base) * u128::from(count));
    if due <= total {
        over(false, 200 * (total - due) + u128::from(count), count)
    } else {
        over(true, 200 * (due - total) + u128::from(count) - 1, count)
    }
}

/// A size in two hundredths of a cycle for each of so many faults.
#[tactic(auto, using(crate::proofs::Bounding::quotient_small))]
fn over(is_under: bool, size: u128, count: u32) -> Extra
    requires some { 0 < count }
    requires small { size ≤ 200 * (count * (2 ^ 64 - 1)) + count }
    ensures { result ≡ extra_over is_under size count }
{
    let hundredths = size / (2 * u128::from(count));
    Extra {
        is_negative: is_under && hundredths != 0,
        whole: (hundredths / 100) as u64,
        hundredths: (hundredths % 100) as u8,
    }
}

/// The cycles of all lines.
fn total(lines: &[Injection]) -> u128
    requires { length lines.now < 2 ^ 32 }
    ensures total { result ≡ cycles_of lines.now }
    ensures small { result ≤ length lines.now * (2 ^ 64 - 1) }
{
    let mut total = 0;
    for line in lines {
        total += u128::from(line.effect.cycles);
    }
    total
}
