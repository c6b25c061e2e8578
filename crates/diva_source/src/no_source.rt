// A source without texts.
ghost use Rattle.std.specs.Prelude.{◌≡◌};
ghost use Rattle.diva_outside.specs.Lent.{lent};
ghost use Rattle.diva_source.specs.NoSource.{account_of};
ghost use Rattle.diva_source.specs.Source.{Opens, Reads};

use crate::{Source, SourceFailed};
use std::marker::Model;

/// A source without texts, for a program that reads none: each call fails.
#[derive(Drop)]
pub struct NoSource {
    faults: u64,
}

impl Model for NoSource {
    ghost use Rattle.std.specs.Prelude.{ℕ};

    ghost Value = { ℕ };

    ghost view = { λ source. source.faults };
}

impl NoSource {
    /// No texts, and no fault so far.
    pub fn new() -> Self
        ensures { result ≡ 0 }
    {
        NoSource { faults: 0 }
    }
}

impl Source for NoSource {
    ghost account = { account_of };

    fn open(&mut self, _name: &str) -> Result<(), SourceFailed> {
        Err(SourceFailed)
    }

    fn read(&mut self, _buffer: &mut [u8]) -> Result<usize, SourceFailed> {
        self.faults = self.faults.saturating_add(1);
        Err(SourceFailed)
    }
}
