// Texts in memory, which are read in pieces of a given size, and where calls fail as a test asks for it.
ghost use Rattle.std.specs.Prelude.{◌≡◌, ◌==◌, ◌<◌, None, is_some, is_ok, length, option_map};
ghost use Rattle.std.specs.List.{list_any};
ghost use Rattle.std.specs.Option.{option_copied};
ghost use Rattle.std.specs.Result.{result_ok};
ghost use Rattle.diva_outside.specs.Lent.{lent};
ghost use Rattle.diva_outside.specs.Named.{named_bytes};
ghost use Rattle.diva_source.specs.Source.{Opens, Reads};

use crate::{Source, SourceFailed};
use diva_outside::MemFile;
use std::marker::Model;

/// Texts in memory whose contents are known, for tests of what a program does with pieces of any size, and if a call fails.
///
/// Calls of `open` and `read` are counted together, from 1. A call whose number is listed fails; one of `open` only if there is a text of
/// its name.
#[derive(Drop)]
pub struct MemSource<'a> {
    texts: &'a [MemFile],
    fails: &'a [u64],
    piece: usize,
    rest: Option<&'a [u8]>,
    calls: u64,
    faults: u64,
}

impl<'a> Model for MemSource<'a> {
    ghost use Rattle.std.specs.Prelude.{◌<◌, IfSome, length};
    ghost use Rattle.std.specs.Option.{option_copied};
    ghost use Rattle.diva_source.specs.MemSource.{MemSource};

    ghost Value = { MemSource };

    ghost view = { λ s. record { texts = s.texts.now; fails = s.fails.now; piece = s.piece; rest = option_copied s.rest; calls = s.calls; faults = s.faults } };

    ghost invariant = { λ s. 0 < s.piece };
}

impl<'a> MemSource<'a> {
    /// These texts, a read of which gives at most `piece` bytes, and the numbers of the calls that fail. Nothing is open, and no call has
    /// been made so far.
    pub fn new(texts: &'a [MemFile], piece: usize, fails: &'a [u64]) -> Self
        requires { 0 < piece }
        ensures { result ≡ record { texts = texts.now; fails = fails.now; piece = piece; rest = None; calls = 0; faults = 0 } }
    {
        MemSource {
            texts,
            fails,
            piece,
            rest: None,
            calls: 0,
            faults: 0,
        }
    }
}

impl Source for MemSource<'_> {
    ghost use Rattle.diva_source.specs.MemSource.{account_of, after_open, after_read, count_read, opened_by};

    ghost account = { account_of };

    fn open(&mut self, name: &str) -> Result<(), SourceFailed>
        ensures opens { Opens (lent account_of self.old self.new) name.now result }
        ensures answer { is_ok result ≡ is_some (opened_by self.old name.now) }
        ensures after { self.new ≡ after_open self.old name.now }
    {
        self.calls = self.calls.saturating_add(1);
        let found = find(self.texts, name);
        let fails = is_listed(self.fails, self.calls);
        if fails && found.is_some() {
            self.faults = self.faults.saturating_add(1);
        }
        self.rest = if fails { None } else { found };
        if self.rest.is_none() {
            return Err(SourceFailed);
        }
        Ok(())
    }

    fn read(&mut self, buffer: &mut [u8]) -> Result<usize, SourceFailed>
        ensures reads { Reads (lent account_of self.old self.new) buffer.new result }
        ensures answer { result_ok result ≡ count_read self.old (length buffer.new) }
        ensures after { self.new ≡ after_read self.old (count_read self.old (length buffer.new)) }
    {
        self.calls = self.calls.saturating_add(1);
        let fails = is_listed(self.fails, self.calls);
        match self.rest {
            Some(rest) if !fails => {
                let count = rest.len().min(self.piece).min(buffer.len());
                buffer[..count].copy_from_slice(&rest[..count]);
                self.rest = Some(&rest[count..]);
                Ok(count)
            }
            _ => {
                self.faults = self.faults.saturating_add(1);
                Err(SourceFailed)
            }
        }
    }
}

/// Whether the call is one of these.
fn is_listed(calls: &[u64], call: u64) -> bool
    ensures { result ≡ list_any (λ c. c == call) calls.now }
{
    calls.iter().any(|c| *c == call)
}

/// The bytes of the first text of that name, `None` if no text has it.
fn find<'a>(texts: &'a [MemFile], name: &str) -> Option<&'a [u8]>
    ensures { option_copied result ≡ named_bytes texts.now name.now }
{
    for text in texts {
        if text.name() == name {
            return Some(text.bytes());
        }
    }
    None
}
