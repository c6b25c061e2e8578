// Lines of injections that are read, and what is kept of them.
ghost use Rattle.std.specs.Prelude.{◌≡◌, ◌<◌, ◌+◌, ◌-◌, ◌^◌, IfOk, length};
ghost use Rattle.diva_outside.specs.TextFaults.{GivesText};
ghost use Rattle.diva_rate.specs.Injections.{no_injections, with_injection, with_text, is_skipped, has_room};

use crate::fault::{Kind, RateFault};
use crate::injection::Injection;
use crate::reading::injection_of;
use diva_outside::{LineReader, LineStop, fold_lines, is_word};
use std::alloc::{AllocError, Global};
use std::collections::HashSet;
use std::marker::Model;

/// The first line of a text of injections. It says nothing wherever it stands, so that texts can be put together.
const HEAD: &[u8] =
    b"fault,model,cycle,lane,field,bit,hit,flushes,latency,cycles,same,open,open_place,open_end";

/// The most lines.
const MOST_LINES: u64 = 4_294_967_294;

/// Lines of injections: those that are counted, which are the first of each fault; and how many further lines there were.
#[derive(Debug, Drop)]
pub struct Injections {
    lines: Vec<Injection>,
    /// The faults of the lines.
    faults: HashSet<u64>,
    twice: u32,
}

impl Model for Injections {
    ghost use Rattle.diva_rate.specs.Injections.{Injections};
    ghost use Rattle.diva_rate.specs.Inner.{IsKept};

    ghost Value = { Injections };

    ghost view = { λ it. record { lines = it.lines.items; twice = it.twice } };

    ghost invariant = { λ it. IsKept it.lines.items it.faults it.twice };
}

impl Injections {
    /// No lines.
    pub fn new(alloc: Global) -> Self
        ensures { result ≡ no_injections }
    {
        Injections {
            lines: Vec::new(alloc),
            faults: HashSet::new(alloc),
            twice: 0,
        }
    }

    /// With the lines of one more text. The error is its first fault, or that memory ran out.
    #[tactic(auto, unfolding(crate::specs::Injections::with_text))]
    pub fn read(self, text: &[u8]) -> Result<Self, RateFault>
        ensures { GivesText (with_text self text.now) result }
    {
        fold_lines(&InjectionReader, self, text)
    }

    /// The lines that are counted, in their order: fewer than 2^32.
    pub fn lines(&self) -> &[Injection]
        ensures lines { result.now ≡ self.now.lines }
        ensures few { length result.now < 2 ^ 32 }
    {
        &self.lines
    }

    /// How many further lines there were of their faults.
    pub fn twice(&self) -> u32
        ensures { result ≡ self.now.twice }
    {
        self.twice
    }

    /// Whether there is room for one more line.
    fn has_room(&self) -> bool
        ensures { result ≡ has_room self.now }
    {
        self.lines.len() as u64 + u64::from(self.twice) < MOST_LINES
    }

    /// With one more line.
    fn with_injection(self, line: Injection) -> Result<Self, AllocError>
        requires { length self.lines + self.twice < 2 ^ 32 - 2 }
        ensures { IfOk result (λ kept. kept ≡ with_injection self line) }
    {
        let Injections {
            mut lines,
            mut faults,
            mut twice,
        } = self;
        if faults.insert(line.fault)? {
            lines.push(line)?;
        } else {
            twice += 1;
        }
        Ok(Injections {
            lines,
            faults,
            twice,
        })
    }
}

/// Reads an injection of each line that says one.
struct InjectionReader;

impl LineReader<'_> for InjectionReader {
    ghost use Rattle.diva_rate.specs.Injections.{with_line};

    type Kept = Injections;

    type Kind = Kind;

    ghost step = { λ reader. with_line };

    #[tactic(auto, unfolding(crate::specs::Injections::with_line))]
    fn line(&self, kept: Injections, line: &[u8]) -> Result<Injections, LineStop<Kind>> {
        if is_skipped(line) {
            return Ok(kept);
        }
        let injection = injection_of(line)?;
        if !kept.has_room() {
            return Err(LineStop::Fault(Kind::LineCount));
        }
        Ok(kept.with_injection(injection)?)
    }
}

/// Whether a line says nothing: it is empty, or names the columns.
fn is_skipped(line: &[u8]) -> bool
    ensures { result ≡ is_skipped line.now }
{
    line.is_empty() || is_word(line, HEAD)
}
