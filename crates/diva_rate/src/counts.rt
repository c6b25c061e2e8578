// How many lines of a group are such as are counted.
ghost use Rattle.std.specs.Prelude.{◌≡◌, ◌≤◌, ◌<◌, ◌^◌, length};
ghost use Rattle.diva_rate.specs.Counts.{count_of, counts_as, share_in, what_name};

use crate::injection::{Injection, OpenEnding};
use crate::shares::{Share, share_of};
use diva_outside::is_word;

/// What is counted of the lines of a group.
#[derive(Clone, Copy, Debug, PartialEq, Eq)]
pub enum What {
    /// The fault changed what the core handed over.
    Hit,
    /// The fault caused a flush.
    Found,
    /// The program came out as without the fault.
    Same,
    /// The run without a checker came out so.
    Ended(OpenEnding),
}

impl What {
    /// How texts call it: in lower case, at most six bytes.
    pub fn name(self) -> &'static [u8]
        ensures name { result.now ≡ what_name self }
        ensures short { length result.now ≤ 6 }
    {
        match self {
            What::Hit => b"hit",
            What::Found => b"found",
            What::Same => b"same",
            What::Ended(ending) => ending.name(),
        }
    }

    /// Whether the line counts.
    fn counts(self, line: &Injection) -> bool
        ensures { result ≡ counts_as self line.now }
    {
        match self {
            What::Hit => line.effect.hit,
            What::Found => line.effect.latency.is_some(),
            What::Same => line.effect.same,
            What::Ended(ending) => is_word(line.effect.ending.name(), ending.name()),
        }
    }

    /// How many lines count.
    fn count(self, lines: &[Injection]) -> u32
        requires { length lines.now < 2 ^ 32 }
        ensures count { result ≡ count_of self lines.now }
        ensures few { result ≤ length lines.now }
    {
        let mut count = 0;
        for line in lines {
            if self.counts(line) {
                count += 1;
            }
        }
        count
    }

    /// The share of the lines that count.
    pub(crate) fn share(self, lines: &[Injection]) -> Share
        requires some { 0 < length lines.now }
        requires few { length lines.now < 2 ^ 32 }
        ensures { result ≡ share_in lines.now self }
    {
        share_of(self.count(lines), lines.len() as u32)
    }
}
