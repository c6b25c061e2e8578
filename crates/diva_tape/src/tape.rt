// A tape, as it is read.
ghost use Rattle.std.specs.Prelude.{◌≡◌, Ok, IfOk, IfErr};
ghost use Rattle.diva_outside.specs.TextFaults.{IsFirstFault};
ghost use Rattle.diva_tape.specs.Tapes.{tape_of};

use crate::fault::{Kind, TapeFault};
use crate::reading::list_in;
use diva_core::Claim;
use diva_outside::{LineReader, LineStop, fold_lines, lines};
use std::alloc::Global;
use std::marker::Model;

/// The lists of a tape: line n has what is handed over in the n-th call.
///
/// A list takes one byte of memory, and a claim 32. Reading takes at most ten bytes for a byte of the text.
#[derive(Debug, Drop)]
pub struct Tape {
    /// The claims of all lists, one after another.
    pub(crate) claims: Vec<Claim>,
    /// How many claims each list has: at most eight.
    pub(crate) counts: Vec<u8>,
}

impl Model for Tape {
    ghost use Rattle.std.specs.Prelude.{List};
    ghost use Rattle.diva_isa.specs.declared.record.Record.{Record};
    ghost use Rattle.diva_tape.specs.TapeParts.{parted, IsParted};

    ghost Value = { List (List Record) };

    ghost view = { λ t. parted t.counts.items t.claims.items };

    ghost invariant = { λ t. IsParted t.counts.items t.claims.items };
}

impl Tape {
    /// The tape of a text. The error is its first fault, or `Memory` where memory runs out.
    ///
    /// A line without words is an empty list. Every other line is at most eight claims with `;` between them, each of
    /// eight hex numbers in the order of [`Claim`]'s fields.
    #[tactic(auto, unfolding(crate::specs::Tapes::tape_of))]
    pub fn read(alloc: Global, bytes: &[u8]) -> Result<Self, TapeFault>
        ensures lists { IfOk result (λ tape. tape_of bytes.now ≡ Ok tape) }
        ensures fault { IfErr result (IsFirstFault (tape_of bytes.now)) }
    {
        let none = Tape {
            claims: Vec::new(alloc),
            // A byte for each line, and no more.
            counts: Vec::with_capacity(alloc, lines(bytes).count())?,
        };
        fold_lines(&TapeReader, none, bytes)
    }
}

/// Reads a list of each line.
struct TapeReader;

impl LineReader<'_> for TapeReader {
    ghost use Rattle.diva_tape.specs.Tapes.{with_line};

    type Kept = Tape;

    type Kind = Kind;

    ghost step = { λ reader. with_line };

    #[tactic(auto, using(crate::proofs::Keeping::still_parted, crate::proofs::Keeping::parted_push))]
    fn line(&self, tape: Tape, line: &[u8]) -> Result<Tape, LineStop<Kind>> {
        let list = list_in(line)?;
        let mut claims = tape.claims;
        let mut counts = tape.counts;
        claims.extend_from_slice(list.as_slice())?;
        counts.push(list.len() as u8)?;
        Ok(Tape { claims, counts })
    }
}
