// A file in memory, and how it is found and loaded.
ghost use Rattle.std.specs.Prelude.{◌≡◌, IfOk, IfErr, OnErr, Ok, Err, ◌≢◌};
ghost use Rattle.std.specs.Option.{option_copied};
ghost use Rattle.diva_outside.specs.Named.{named_bytes, answer_of};

use crate::LoadFault;
use std::alloc::Global;
use std::marker::Model;

/// A file in memory: a name and its bytes.
#[derive(Drop)]
pub struct MemFile {
    name: String,
    bytes: Vec<u8>,
}

impl Model for MemFile {
    ghost use Rattle.std.specs.Prelude.{List, ℕ, string_bytes};

    ghost Value = { List ℕ × List ℕ };

    ghost view = { λ file. (string_bytes file.name, file.bytes.items) };
}

impl MemFile {
    ghost use Rattle.std.specs.Prelude.{string_bytes};

    /// The file of that name with these bytes.
    pub fn new(name: String, bytes: Vec<u8>) -> Self
        ensures { result ≡ (string_bytes name, bytes.items) }
    {
        MemFile { name, bytes }
    }

    /// The file's name.
    pub fn name(&self) -> &str
        ensures { result.now ≡ self.now.0 }
    {
        self.name.as_str()
    }

    /// The file's bytes.
    pub fn bytes(&self) -> &[u8]
        ensures { result.now ≡ self.now.1 }
    {
        &self.bytes
    }
}

/// The bytes of the first file of that name, `None` where no file has it.
pub(crate) fn find<'a>(files: &'a [MemFile], name: &str) -> Option<&'a [u8]>
    ensures { option_copied result ≡ named_bytes files.now name.now }
{
    for file in files {
        if file.name() == name {
            return Some(file.bytes());
        }
    }
    None
}

/// A copy of the bytes. The error is `TooLong` where there are more than `limit`, and else `Memory`.
pub(crate) fn copy(alloc: Global, bytes: &[u8], limit: usize) -> Result<Vec<u8>, LoadFault>
    ensures ok { IfOk result (λ v. answer_of bytes.now limit ≡ Ok v.items) }
    ensures err { IfErr result (λ fault. fault ≢ LoadFault.Memory
        → answer_of bytes.now limit ≡ Err fault) }
{
    if bytes.len() > limit {
        return Err(LoadFault::TooLong);
    }
    Ok(bytes.to_vec(alloc)?)
}
