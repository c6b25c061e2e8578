// Files in memory that never fail.
ghost use Rattle.std.specs.Prelude.{◌≡◌, List, ℕ, Some};
ghost use Rattle.diva_outside.specs.Named.{named_bytes, or_empty};

use crate::mem_file::{copy, find};
use crate::{Files, LoadFault, MemFile, What};
use std::alloc::Global;
use std::marker::Model;

/// Files in memory whose contents are known, and which never fail. A name that none of them has is an empty file.
#[derive(Drop)]
pub struct SureFiles {
    files: Vec<MemFile>,
}

impl Model for SureFiles {
    ghost Value = { List (List ℕ × List ℕ) };

    ghost view = { λ s. s.files.items };
}

impl SureFiles {
    /// These files.
    pub fn new(files: Vec<MemFile>) -> Self
        ensures { result ≡ files.items }
    {
        SureFiles { files }
    }
}

impl Files for SureFiles {
    ghost account = { λ files. record { contents = Some (λ name. Some (or_empty (named_bytes files name))); faults = λ _. 0 } };

    fn load(
        &mut self,
        alloc: Global,
        _what: What,
        name: &str,
        limit: usize,
    ) -> Result<Vec<u8>, LoadFault> {
        match find(&self.files, name) {
            Some(bytes) => copy(alloc, bytes, limit),
            None => Ok(Vec::new(alloc)),
        }
    }
}
