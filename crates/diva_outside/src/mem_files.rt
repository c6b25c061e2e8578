// Files in memory, where loads fail as a test asks for it.
ghost use Rattle.std.specs.Prelude.{◌≡◌, ◌==◌, ◌≤◌, ◌≢◌, ◌⊎◌, List, ℕ, Some, Ok, Err, IfOk, IfErr, IsErrOf, length, false};
ghost use Rattle.diva_outside.specs.Causes.{Rose};
ghost use Rattle.diva_outside.specs.Files.{Has, HasNotFailed, IsMissing, IsLonger};
ghost use Rattle.std.specs.List.{list_any};
ghost use Rattle.std.specs.Option.{option_copied};
ghost use Rattle.diva_outside.specs.Named.{named_bytes, answer_to};

use crate::faults::Faults;
use crate::mem_file::{copy, find};
use crate::{Files, LoadFault, MemFile, What};
use std::alloc::Global;
use std::marker::Model;

/// Files in memory whose contents are known, for tests of what a program does when a load fails.
///
/// Calls of `load` are counted from 1. A call whose number is listed fails, if there is a file of its name.
#[derive(Drop)]
pub struct MemFiles {
    files: Vec<MemFile>,
    fails: Vec<u64>,
    calls: u64,
    faults: Faults,
}

impl Model for MemFiles {
    ghost use Rattle.diva_outside.specs.MemFiles.{MemFiles};

    ghost Value = { MemFiles };

    ghost view = { λ m. record { files = m.files.items; fails = m.fails.items; calls = m.calls; faults = m.faults } };
}

impl MemFiles {
    ghost use Rattle.diva_outside.specs.Faults.{no_faults};

    /// These files, and the numbers of the calls of `load` that fail. No call has been made so far.
    pub fn new(files: Vec<MemFile>, fails: Vec<u64>) -> Self
        ensures { result ≡ record { files = files.items; fails = fails.items; calls = 0; faults = no_faults } }
    {
        MemFiles {
            files,
            fails,
            calls: 0,
            faults: Faults::none(),
        }
    }
}

impl Files for MemFiles {
    ghost use Rattle.diva_outside.specs.declared.files.What.{What};
    ghost use Rattle.diva_outside.specs.MemFiles.{account_of, load_of, after_load};

    ghost account = { account_of };

    fn load(
        &mut self,
        alloc: Global,
        what: What,
        name: &str,
        limit: usize,
    ) -> Result<Vec<u8>, LoadFault>
        ensures stays { (account_of self.new).contents ≡ (account_of self.old).contents }
        ensures later { (w : What) → (account_of self.old).faults w ≤ (account_of self.new).faults w }
        ensures others { (w : What) → w ≢ what → (account_of self.new).faults w ≡ (account_of self.old).faults w }
        ensures whole { IfOk result (λ v. Has (account_of self.old).contents name.now v.items) }
        ensures within { IfOk result (λ v. length v.items ≤ limit) }
        ensures too_long { IsErrOf result LoadFault.TooLong
            → IsLonger (account_of self.old).contents name.now limit }
        ensures failed { IsErrOf result LoadFault.Failed
            → Rose ((account_of self.old).faults what) ((account_of self.new).faults what) ⊎ IsMissing (account_of self.old).contents name.now }
        ensures counted { HasNotFailed result → (w : What) → (account_of self.new).faults w ≡ (account_of self.old).faults w }
        ensures missing { IsMissing (account_of self.old).contents name.now
            → IsErrOf result LoadFault.Failed ⊎ IsErrOf result LoadFault.Memory }
        ensures uncounted { IsMissing (account_of self.old).contents name.now
            → (w : What) → (account_of self.new).faults w ≡ (account_of self.old).faults w }

        // The answer is that of the definition, unless memory runs out.
        ensures ok { IfOk result (λ v. load_of self.old name.now limit ≡ Ok v.items) }
        ensures err { IfErr result (λ fault. fault ≢ LoadFault.Memory
            → load_of self.old name.now limit ≡ Err fault) }
        ensures after { self.new ≡ after_load self.old what name.now }
    {
        self.calls = self.calls.saturating_add(1);
        let bytes = find(&self.files, name);
        let fails = is_listed(&self.fails, self.calls);
        if fails && bytes.is_some() {
            self.faults.raise(what);
        }
        answer(alloc, bytes, fails, limit)
    }
}

/// Whether the call is one of these.
fn is_listed(calls: &[u64], call: u64) -> bool
    ensures { result ≡ list_any (λ c. c == call) calls.now }
{
    calls.iter().any(|c| *c == call)
}

/// What a call answers that found these bytes.
fn answer(
    alloc: Global,
    found: Option<&[u8]>,
    fails: bool,
    limit: usize,
) -> Result<Vec<u8>, LoadFault>
    ensures ok { IfOk result (λ v. answer_to (option_copied found.entry) fails limit ≡ Ok v.items) }
    ensures err { IfErr result (λ fault. fault ≢ LoadFault.Memory
        → answer_to (option_copied found.entry) fails limit ≡ Err fault) }
    ensures fails { HasNotFailed result → fails ≡ false }
{
    match found {
        Some(bytes) if !fails => copy(alloc, bytes, limit),
        _ => Err(LoadFault::Failed),
    }
}
