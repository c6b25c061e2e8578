// An instruction under way.
ghost use Rattle.std.specs.Prelude.{◌≡◌};
ghost use Rattle.diva_ooo.specs.Issue.{is_done};

use crate::profile::Profile;
use diva_decode::Instr;
use diva_isa::{Effect, Record};
use std::marker::Model;

/// How far an instruction is.
#[derive(Clone, Copy, Debug, PartialEq, Eq)]
pub enum Progress {
    /// It has not begun.
    Waiting,
    /// It runs for so many cycles more, one at least.
    Running(u8),
    /// It is to be handed over.
    Done,
}

impl Progress {
    /// Whether it is to be handed over.
    pub fn is_done(self) -> bool
        ensures { result ≡ is_done self }
    {
        matches!(self, Progress::Done)
    }
}

/// An instruction under way. What follows from its word and its result is noted beside them, so that it is worked out once.
#[derive(Clone, Copy)]
pub struct WindowEntry {
    /// The address where it was fetched.
    pub pc: u32,
    /// What the word says, `None` where it says nothing.
    pub decoded: Option<Instr>,
    /// The word that was fetched, none outside memory.
    pub word: Option<u32>,
    /// What it waits for, and how long it runs.
    pub profile: Profile,
    /// Where the next instruction was fetched.
    pub predicted: u32,
    /// How far it is.
    pub progress: Progress,
    /// Its record, once it has begun; until then all zeros.
    pub result: Record,
    /// What that does besides moving the pc and being counted: nothing where it ends, or where it has not begun.
    pub effect: Effect,
}

impl Model for WindowEntry {
    ghost use Rattle.diva_ooo.specs.WindowEntry.{WindowEntry};

    ghost Value = { WindowEntry };

    ghost use Rattle.diva_ooo.specs.Known.{IsKnown};

    ghost view = { λ e. record { pc = e.pc; word = e.word; predicted = e.predicted; progress = e.progress; result = e.result } };

    ghost invariant = { IsKnown };

    ghost use Rattle.diva_ooo.specs.Known.{noted};

    ghost inverse = { noted };
}
