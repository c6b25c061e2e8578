// What is seen of a machine between two cycles.
ghost use Rattle.std.specs.Prelude.{◌≡◌, ◌≤◌, ◌<◌, ◌^◌, length, map, option_map};
ghost use Rattle.diva_drawing.specs.Snapshot.{IsSnapshot, solo_since, snapshot_claim_of};

use arrayvec::ArrayVec;
use diva_core::{Diff, FlushRow};
use diva_isa::{Record, record_of};
use diva_machine::Machine;
use std::marker::Model;

/// An instruction that runs solo.
#[derive(Clone, Copy, Debug, PartialEq, Eq)]
pub struct SnapshotSolo {
    /// The cycle in which it was started, that of the flush.
    pub since: u64,
    /// The record that is due, with which it will commit.
    pub due: Record,
}

/// A pending claim.
#[derive(Clone, Copy, Debug, Default, PartialEq, Eq)]
pub struct SnapshotClaim {
    /// What the core claims.
    pub claim: Record,
    /// The cycle in which it was accepted.
    pub cycle: u64,
    /// Its verdict: the first field in which it differs from what is due, as far as it is checked.
    pub verdict: Option<Diff>,
}

/// What is seen of a machine between two cycles, by its observers.
#[derive(Drop)]
pub struct Snapshot {
    /// How many instructions have committed.
    pub(crate) count: u64,
    /// How many cycles have run.
    pub(crate) cycles: u64,
    /// How many flushes came.
    pub(crate) flushes: u64,
    /// The newest of them.
    pub(crate) newest: Option<FlushRow>,
    /// Whether the machine has not ended.
    pub(crate) goes_on: bool,
    /// The instruction that runs solo, if one does.
    pub(crate) solo: Option<SnapshotSolo>,
    /// The pending claims, the oldest first.
    pub(crate) claims: ArrayVec<SnapshotClaim, 64>,
}

impl Model for Snapshot {
    ghost use Rattle.std.specs.Prelude.{length, ◌≤◌, ◌<◌, ◌^◌};
    ghost use Rattle.diva_drawing.specs.Snapshot.{Snapshot};

    ghost Value = { Snapshot };

    ghost view = { λ s. record {
      count = s.count;
      cycles = s.cycles;
      flushes = s.flushes;
      newest = s.newest;
      goes_on = s.goes_on;
      solo = s.solo;
      claims = s.claims.items;
    } };

    ghost invariant = { λ s. length s.claims.items ≤ 64 };
}

impl Snapshot {
    /// What is seen of a machine now.
    pub fn of(m: &Machine) -> Snapshot
        ensures { IsSnapshot m.now.timed result }
    {
        m.recall();
        Snapshot {
            count: m.count(),
            cycles: m.cycles(),
            flushes: m.flushes(),
            newest: m.newest(),
            goes_on: m.goes_on(),
            solo: running_solo(m),
            claims: claims(m),
        }
    }

    /// How many instructions have committed.
    pub(crate) fn count(&self) -> u64
        ensures { result ≡ self.now.count }
    {
        self.count
    }

    /// How many cycles have run.
    pub(crate) fn cycles(&self) -> u64
        ensures { result ≡ self.now.cycles }
    {
        self.cycles
    }

    /// The instruction that runs solo, if one does.
    pub(crate) fn solo(&self) -> Option<SnapshotSolo>
        ensures { result ≡ self.now.solo }
    {
        self.solo
    }

    /// The pending claims, the oldest first.
    pub(crate) fn claims(&self) -> &[SnapshotClaim]
        ensures claims { result.now ≡ self.now.claims }
        ensures few { length result.now ≤ 64 }
    {
        self.claims.as_slice()
    }
}

/// The instruction that runs solo, if one does.
fn running_solo(m: &Machine) -> Option<SnapshotSolo>
    ensures { result ≡ option_map (solo_since m.now.timed.arch) m.now.timed.under.solo }
{
    let start = m.solo()?;
    Some(SnapshotSolo {
        since: start,
        due: record_of(&m.view()),
    })
}

/// The pending claims, the oldest first.
fn claims(m: &Machine) -> ArrayVec<SnapshotClaim, 64>
    ensures { result.items ≡ map snapshot_claim_of m.now.entries }
{
    let mut claims = ArrayVec::new();
    for at in 0..pending(m) {
        let entry = m.entry(at);
        claims.push(SnapshotClaim {
            claim: entry.claim,
            cycle: entry.cycle,
            verdict: entry.verdict,
        });
    }
    claims
}

/// How many claims are pending.
fn pending(m: &Machine) -> usize
    ensures pending { result ≡ length m.now.timed.under.pending }
    ensures entries { result ≡ length m.now.entries }
    ensures few { result ≤ 64 }
{
    m.recall();
    let _ = m.goes_on();
    m.told().pending as usize
}
