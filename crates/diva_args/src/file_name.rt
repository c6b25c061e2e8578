// The name of a file.
ghost use Rattle.std.specs.Prelude.{◌≡◌, List, ℕ, IfOk};
ghost use Rattle.std.specs.String.{string_bytes};

use std::alloc::{AllocError, Global};
use std::marker::Model;

/// The name of a file, which contracts see as the list of its bytes.
#[derive(Debug, Drop)]
pub struct FileName {
    text: String,
}

impl Model for FileName {
    ghost Value = { List ℕ };

    ghost view = { λ name. string_bytes name.text };
}

impl FileName {
    /// A copy of the text. The error: out of memory.
    pub fn new(alloc: Global, text: &str) -> Result<FileName, AllocError>
        ensures { IfOk result (λ name. name ≡ text.now) }
    {
        Ok(FileName {
            text: String::from_str(alloc, text)?,
        })
    }

    /// The name as text.
    pub fn as_str(&self) -> &str
        ensures { result.now ≡ self.now }
    {
        self.text.as_str()
    }
}
