// The registers as the oldest pending claims leave them.
ghost use Rattle.std.specs.Prelude.{◌≡◌, ◌<◌, length, replicate};
ghost use Rattle.diva_core.specs.Entries.{IsDecoded};
ghost use Rattle.diva_core.specs.Future.{committed_file, with_result, without_oldest};

use crate::pending::Entry;
use diva_isa::Regs;
use std::marker::Model;

/// A future file: the registers as the oldest of the pending claims leave them, right ones and wrong ones (Smith and
/// Pleszkun, "Implementation of Precise Interrupts in Pipelined Processors", ISCA-12, 1985).
///
/// A claim's result is put here as the claim passes the stage of operands, so the next claim that comes there reads what it
/// is due without a look at the older ones. What commits is here already.
#[derive(Drop)]
pub struct FutureFile {
    regs: Regs,
    claims: usize,
}

impl Model for FutureFile {
    ghost use Rattle.diva_core.specs.Future.{FutureFile};

    ghost Value = { FutureFile };

    ghost view = { λ f. record { regs = f.regs; claims = f.claims } };
}

impl FutureFile {
    /// The file of a machine that is new: all registers are 0.
    pub fn new() -> Self
        ensures { result ≡ committed_file (replicate 32 0) }
    {
        FutureFile {
            regs: Regs::new(),
            claims: 0,
        }
    }

    /// Becomes a copy of a file.
    pub fn copy_from(&mut self, other: &FutureFile)
        ensures { self.new ≡ other.now }
    {
        self.regs = other.regs;
        self.claims = other.claims;
    }

    /// The registers.
    #[inline(always)]
    pub fn regs(&self) -> &Regs
        ensures { result.now ≡ self.now.regs }
    {
        &self.regs
    }

    /// How many of the pending claims, the oldest, have left their results here.
    #[inline(always)]
    pub fn claims(&self) -> usize
        ensures { result ≡ self.now.claims }
    {
        self.claims
    }

    /// The next claim leaves its result.
    #[inline(always)]
    pub fn keep(&mut self, entry: &Entry)
        requires decoded { IsDecoded entry.now }
        requires few { self.old.claims < 64 }
        ensures { self.new ≡ with_result self.old entry.now.claim }
    {
        let rd = match entry.decoded() {
            Some(decoded) => decoded.rd,
            None => 0,
        };
        self.regs.set(rd, entry.claim.value);
        self.claims += 1;
    }

    /// The oldest claim has committed: `committed` are the registers behind it.
    #[inline(always)]
    pub fn leave(&mut self, committed: &Regs)
        ensures { self.new ≡ without_oldest committed.now self.old }
    {
        if self.claims == 0 {
            self.reset(committed);
        } else {
            self.claims -= 1;
        }
    }

    /// No claim is pending: the registers are the committed ones.
    #[cold]
    #[inline(never)]
    pub fn reset(&mut self, committed: &Regs)
        ensures { self.new ≡ committed_file committed.now }
    {
        self.regs = *committed;
        self.claims = 0;
    }
}
