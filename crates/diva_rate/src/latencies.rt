// Latencies of the faults that were found, by the nearest rank.
ghost use Rattle.std.specs.Prelude.{◌≡◌, ◌≤◌, ◌<◌, ◌^◌, ℕ, List, IfOk, OnOk, ◌+◌, ◌++◌, length};
ghost use Rattle.std.specs.Option.{option_to_list};
ghost use Rattle.std.specs.List.Sorted.{IsNonDecreasing, IsPermutation};
ghost use Rattle.diva_rate.specs.declared.injection.Injection.{Injection};
ghost use Rattle.diva_rate.specs.Inner.{place_of};
ghost use Rattle.diva_rate.specs.Latencies.{latencies_in, latencies_of, percentile};

use crate::injection::Injection;
use std::alloc::{AllocError, Global};

/// Latencies of some faults that were found, in cycles: each is the least one such that a part of all, or more, are no greater.
/// Each is `None` if none was found.
#[derive(Clone, Copy, Debug, PartialEq, Eq)]
pub struct Latencies {
    /// Half of all are no greater.
    pub half: Option<u64>,
    /// 90 of a hundred are no greater.
    pub ninety: Option<u64>,
    /// 99 of a hundred are no greater.
    pub ninety_nine: Option<u64>,
    /// All are no greater: the greatest.
    pub most: Option<u64>,
}

/// What is said of the latencies of some lines.
pub(crate) fn latencies_in(alloc: Global, lines: &[Injection]) -> Result<Latencies, AllocError>
    requires { length lines.now < 2 ^ 32 }
    ensures { IfOk result (λ latencies. latencies ≡ latencies_in lines.now) }
{
    let mut sorted = latencies_of(alloc, lines)?;
    sorted.sort_unstable();
    Ok(in_order(&sorted))
}

/// The latencies of the lines that have one.
#[tactic(auto, using(crate::proofs::Scanning::latencies_more))]
fn latencies_of(alloc: Global, lines: &[Injection]) -> Result<Vec<u64>, AllocError>
    ensures latencies { IfOk result (λ found. found.items ≡ latencies_of lines.now) }
    ensures few { IfOk result (λ found. length found.items ≤ length lines.now) }
{
    let mut found = Vec::new(alloc);
    for line in lines {
        push_all(&mut found, line.effect.latency)?;
    }
    Ok(found)
}

/// Appends a number, if there is one.
fn push_all(numbers: &mut Vec<u64>, number: Option<u64>) -> Result<(), AllocError>
    ensures numbers { OnOk result (numbers.new.items ≡ numbers.old.items ++ option_to_list number) }
    ensures few { OnOk result (length numbers.new.items ≤ length numbers.old.items + 1) }
{
    if let Some(number) = number {
        numbers.push(number)?;
    }
    Ok(())
}

/// What is said of some latencies that rise.
fn in_order(sorted: &[u64]) -> Latencies
    requires sorted { IsNonDecreasing sorted.now }
    requires few { length sorted.now < 2 ^ 32 }
    ensures { (lines : List Injection) → IsPermutation (latencies_of lines) sorted.now → result ≡ latencies_in lines }
{
    Latencies {
        half: percentile(sorted, 50),
        ninety: percentile(sorted, 90),
        ninety_nine: percentile(sorted, 99),
        most: percentile(sorted, 100),
    }
}

/// The least of some numbers that rise such that so many of a hundred, or more, are no greater.
fn percentile(sorted: &[u64], percent: u64) -> Option<u64>
    requires sorted { IsNonDecreasing sorted.now }
    requires few { length sorted.now < 2 ^ 32 }
    requires some { 0 < percent }
    requires most { percent ≤ 100 }
    ensures { (numbers : List ℕ) → IsPermutation numbers sorted.now → result ≡ percentile percent numbers }
{
    if sorted.is_empty() {
        return None;
    }
    Some(sorted[place_of(percent, sorted.len())])
}

/// The place of the least of so many numbers that rise such that so many of a hundred, or more, are no greater.
#[tactic(auto, using(crate::proofs::Ranking::rank_inside))]
fn place_of(percent: u64, size: usize) -> usize
    requires some { 0 < percent }
    requires most { percent ≤ 100 }
    requires filled { 0 < size }
    requires few { size < 2 ^ 32 }
    ensures place { result ≡ place_of percent size }
    ensures inside { result < size }
{
    let rank = (percent * size as u64 + 99) / 100;
    rank as usize - 1
}
