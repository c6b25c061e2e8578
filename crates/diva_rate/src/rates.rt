// The rates of injections.
ghost use Rattle.std.specs.Prelude.{◌≡◌, ◌≤◌, ◌<◌, ◌^◌, ◌+◌, ◌++◌, IfOk, OnOk, length};
ghost use Rattle.diva_rate.specs.Grouping.{rates_if};
ghost use Rattle.diva_rate.specs.Rates.{extra_if, greatest, groups_of, missing_of, rates_in, rates_of};

use crate::counts::What;
use crate::extra::{Extra, base, extra_over_base};
use crate::group::{GROUPS, Group};
use crate::injection::{Injection, OpenEnding};
use crate::injections::Injections;
use crate::latencies::{Latencies, latencies_in};
use crate::shares::Share;
use std::alloc::{AllocError, Global};
use std::marker::Model;

/// The rates of the faults of a group.
#[derive(Clone, Copy, Debug, PartialEq, Eq)]
pub struct GroupRates {
    /// The group.
    pub group: Group,
    /// How many faults it has: at least one.
    pub faults: u32,
    /// Those that changed what the core handed over.
    pub hit: Share,
    /// Those that caused a flush.
    pub found: Share,
    /// Those with which the program came out as without them.
    pub same: Share,
    /// Those whose run without a checker came out as without them.
    pub masked: Share,
    /// Those whose run without a checker halted, and left something else.
    pub silent: Share,
    /// Those whose run without a checker trapped.
    pub trap: Share,
    /// Those whose run without a checker did not end.
    pub hang: Share,
    /// Those whose run without a checker left the program.
    pub stray: Share,
    /// The latencies of those that caused a flush.
    pub latencies: Latencies,
    /// The mean of their cycles over those of a run without a fault; `None` if there is none of these.
    pub extra: Option<Extra>,
}

/// The rates of injections, group by group.
#[derive(Debug, Drop)]
pub struct Rates {
    faults: u32,
    twice: u32,
    missing: u64,
    groups: Vec<GroupRates>,
}

impl Model for Rates {
    ghost use Rattle.diva_rate.specs.Rates.{Rates};

    ghost Value = { Rates };

    ghost view = { λ it. record { faults = it.faults; twice = it.twice; missing = it.missing; groups = it.groups.items } };
}

impl Rates {
    /// How many faults are counted.
    pub fn faults(&self) -> u32
        ensures { result ≡ self.now.faults }
    {
        self.faults
    }

    /// How many further lines there were of them.
    pub fn twice(&self) -> u32
        ensures { result ≡ self.now.twice }
    {
        self.twice
    }

    /// How many numbers up to the greatest have no line.
    pub fn missing(&self) -> u64
        ensures { result ≡ self.now.missing }
    {
        self.missing
    }

    /// The rates of each group that has faults, in the order of groups.
    pub fn groups(&self) -> &[GroupRates]
        ensures { result.now ≡ self.now.groups }
    {
        &self.groups
    }
}

impl Injections {
    /// The rates of the lines that are counted.
    #[tactic(auto, unfolding(crate::specs::Rates::rates_of))]
    pub fn rates(&self, alloc: Global) -> Result<Rates, AllocError>
        ensures { IfOk result (λ rates. rates ≡ rates_of self.now) }
    {
        let lines = self.lines();
        Ok(Rates {
            faults: lines.len() as u32,
            twice: self.twice(),
            missing: missing(lines),
            groups: groups_of(alloc, lines)?,
        })
    }
}

/// How many numbers up to the greatest have no line.
fn missing(lines: &[Injection]) -> u64
    ensures { result ≡ missing_of lines.now }
{
    greatest(lines).saturating_sub((lines.len() as u64).saturating_sub(1))
}

/// The greatest number of a fault, 0 if there is none.
fn greatest(lines: &[Injection]) -> u64
    ensures { result ≡ greatest lines.now }
{
    let mut greatest = 0;
    for line in lines {
        greatest = line.fault.max(greatest);
    }
    greatest
}

/// The rates of each group that has lines.
fn groups_of(alloc: Global, lines: &[Injection]) -> Result<Vec<GroupRates>, AllocError>
    requires { length lines.now < 2 ^ 32 }
    ensures { IfOk result (λ groups. groups.items ≡ groups_of lines.now) }
{
    let base = base(lines);
    let mut groups = Vec::new(alloc);
    for group in &GROUPS {
        push_group(alloc, &mut groups, base, *group, lines)?;
    }
    Ok(groups)
}

/// Appends the rates of a group, if it has lines.
fn push_group(
    alloc: Global,
    groups: &mut Vec<GroupRates>,
    base: Option<u64>,
    group: Group,
    lines: &[Injection],
) -> Result<(), AllocError>
    requires { length lines.now < 2 ^ 32 }
    ensures groups { OnOk result (groups.new.items ≡ groups.old.items ++ rates_if base lines.now group) }
    ensures few { OnOk result (length groups.new.items ≤ length groups.old.items + 1) }
{
    let members = group.lines_in(alloc, lines)?;
    if !members.is_empty() {
        groups.push(group_rates(alloc, base, group, &members)?)?;
    }
    Ok(())
}

/// The rates of a group that has these lines.
fn group_rates(
    alloc: Global,
    base: Option<u64>,
    group: Group,
    lines: &[Injection],
) -> Result<GroupRates, AllocError>
    requires some { 0 < length lines.now }
    requires few { length lines.now < 2 ^ 32 }
    ensures { IfOk result (λ rates. rates ≡ rates_in base group lines.now) }
{
    Ok(GroupRates {
        group,
        faults: lines.len() as u32,
        hit: What::Hit.share(lines),
        found: What::Found.share(lines),
        same: What::Same.share(lines),
        masked: What::Ended(OpenEnding::Masked).share(lines),
        silent: What::Ended(OpenEnding::Silent).share(lines),
        trap: What::Ended(OpenEnding::Trap).share(lines),
        hang: What::Ended(OpenEnding::Hang).share(lines),
        stray: What::Ended(OpenEnding::Stray).share(lines),
        latencies: latencies_in(alloc, lines)?,
        extra: extra_of(base, lines),
    })
}

/// The mean of the cycles of some lines over the base, if there is one.
fn extra_of(base: Option<u64>, lines: &[Injection]) -> Option<Extra>
    requires some { 0 < length lines.now }
    requires few { length lines.now < 2 ^ 32 }
    ensures { result ≡ extra_if base lines.now }
{
    match base {
        Some(base) => Some(extra_over_base(base, lines)),
        None => None,
    }
}
