// The files of the operating system.
ghost use Rattle.std.specs.Prelude.{◌≡◌, ◌≤◌, ◌<◌, ◌≢◌, ◌⊎◌, IfOk, IfErr, IfSome, IsErrOf, length};
ghost use Rattle.std.specs.Io.KnownBytes.{ReadConsumes};
ghost use Rattle.diva_outside.specs.Causes.{Rose};
ghost use Rattle.diva_outside.specs.Files.{unknown, Has, HasNotFailed, IsMissing, IsLonger};

use crate::faults::Faults;
use crate::{Files, LoadFault, What};
use std::alloc::Global;
use std::io::{ErrorKind, Read};
use std::marker::Model;
use std::{fs, rt};

/// The files of the operating system, by path. Their contents are not known. Each error of the system is a fault.
#[derive(Drop)]
pub struct DiskFiles<'a, R: rt::Files> {
    rt: &'a R,
    faults: Faults,
}

impl<'a, R: rt::Files> Model for DiskFiles<'a, R> {
    ghost use Rattle.diva_outside.specs.declared.faults.Faults.{Faults};

    ghost Value = { Faults };

    ghost view = { λ files. files.faults };
}

impl<'a, R: rt::Files> DiskFiles<'a, R> {
    ghost use Rattle.diva_outside.specs.Faults.{no_faults};

    /// The files that `rt` opens, with no fault so far.
    pub fn new(rt: &'a R) -> Self
        ensures { result ≡ no_faults }
    {
        DiskFiles {
            rt,
            faults: Faults::none(),
        }
    }
}

impl<R: rt::Files> Files for DiskFiles<'_, R> {
    ghost use Rattle.diva_outside.specs.declared.files.What.{What};
    ghost use Rattle.diva_outside.specs.Faults.{account_of, faults_of, Counts};

    ghost account = { account_of };

    fn load(
        &mut self,
        alloc: Global,
        what: What,
        name: &str,
        limit: usize,
    ) -> Result<Vec<u8>, LoadFault>
        ensures stays { unknown ≡ unknown }
        ensures later { (w : What) → faults_of self.old w ≤ faults_of self.new w }
        ensures others { (w : What) → w ≢ what → faults_of self.new w ≡ faults_of self.old w }
        ensures whole { IfOk result (λ v. Has unknown name.now v.items) }
        ensures within { IfOk result (λ v. length v.items ≤ limit) }
        ensures too_long { IsErrOf result LoadFault.TooLong
            → IsLonger unknown name.now limit }
        ensures failed { IsErrOf result LoadFault.Failed
            → Rose (faults_of self.old what) (faults_of self.new what) ⊎ IsMissing unknown name.now }
        ensures counted { HasNotFailed result → (w : What) → faults_of self.new w ≡ faults_of self.old w }
        ensures missing { IsMissing unknown name.now
            → IsErrOf result LoadFault.Failed ⊎ IsErrOf result LoadFault.Memory }
        ensures uncounted { IsMissing unknown name.now
            → (w : What) → faults_of self.new w ≡ faults_of self.old w }

        // A fault is counted exactly where the load answers `Failed`, and for its kind alone.
        ensures counts { Counts self.old self.new what result }
    {
        let answer = read_file(self.rt, alloc, name, limit);
        self.faults.count(what, &answer);
        answer
    }
}

/// Opens the file and reads it.
fn read_file<R: rt::Files>(
    rt: &R,
    alloc: Global,
    name: &str,
    limit: usize,
) -> Result<Vec<u8>, LoadFault>
    ensures { IfOk result (λ v. length v.items ≤ limit) }
{
    let mut file = open_file(rt, name)?;
    read_whole(&mut file, alloc, limit)
}

/// Opens the file. One that can't be opened has failed.
fn open_file<R: rt::Files>(rt: &R, name: &str) -> Result<R::File, LoadFault>
    ensures { IfErr result (λ fault. fault ≡ LoadFault.Failed) }
{
    fs::open(rt, name).map_err(|_| LoadFault::Failed)
}

/// Reads to the end, or until there are more bytes than `limit`.
fn read_whole<R: Read>(file: &mut R, alloc: Global, limit: usize) -> Result<Vec<u8>, LoadFault>
    ensures within { IfOk result (λ v. length v.items ≤ limit) }
    ensures whole { IfOk result (λ v. IfSome (R.remaining file.old) (λ bytes. v.items ≡ bytes)) }
    ensures too_long { IsErrOf result LoadFault.TooLong
        → IfSome (R.remaining file.old) (λ bytes. limit < length bytes) }
{
    let mut bytes = Vec::new(alloc);
    let mut buffer = [0; 4096];
    loop {
        let count = read_some(file, &mut buffer)?;
        if count == 0 {
            return Ok(bytes);
        }
        if count > limit - bytes.len() {
            return Err(LoadFault::TooLong);
        }
        bytes.extend_from_slice(&buffer[..count])?;
    }
}

/// Reads bytes that come next, none only at the end. A read that a signal interrupted is tried again; a file that can't be
/// read otherwise has failed.
fn read_some<R: Read>(file: &mut R, buffer: &mut [u8]) -> Result<usize, LoadFault>
    ensures bound { IfOk result (λ count. count ≤ length buffer.new) }
    ensures bytes { ReadConsumes (R.remaining file.old) (R.remaining file.new) result buffer.new }
    ensures failed { IfErr result (λ fault. fault ≡ LoadFault.Failed) }
{
    for _ in 0..u64::MAX {
        match file.read(buffer) {
            Ok(count) => return Ok(count),
            Err(error) if error.kind() == ErrorKind::Interrupted => {}
            Err(_) => return Err(LoadFault::Failed),
        }
    }
    Err(LoadFault::Failed)
}
