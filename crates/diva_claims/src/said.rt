// What a line of a log says of an instruction.
ghost use Rattle.std.specs.Prelude.{◌≡◌, ◌≤◌, ◌-◌, ◌^◌};
ghost use Rattle.diva_isa.specs.Kind.{size};
ghost use Rattle.diva_claims.specs.Said.{contradicts, differs, done_by, end_said, filled, mask_stored, register_written};

use diva_isa::{Effect, End, Record, Width, effect_of};

/// What a line of a log says of an instruction: a number for each field of its record, or nothing; and what the instruction did to a
/// register and to memory, or nothing.
#[derive(Clone, Copy, Debug, Default, PartialEq, Eq)]
pub struct Said {
    /// As [`Record::pc`], or nothing; so are the others.
    pub pc: Option<u32>,
    /// As [`Record::word`].
    pub word: Option<u32>,
    /// As [`Record::src1`].
    pub src1: Option<u32>,
    /// As [`Record::src2`].
    pub src2: Option<u32>,
    /// As [`Record::addr`].
    pub addr: Option<u32>,
    /// As [`Record::value`].
    pub value: Option<u32>,
    /// As [`Record::next`].
    pub next: Option<u32>,
    /// As [`Record::end`], or some trap.
    pub end: Option<SaidEnd>,
    /// The register that was written, 0 if none was.
    pub rd: Option<u32>,
    /// The bytes that were written of the word in which the store lies, the lowest in bit 0; 0 if none were.
    pub mask: Option<u32>,
}

/// What a line says of an instruction's end.
#[derive(Clone, Copy, Debug, PartialEq, Eq)]
pub enum SaidEnd {
    /// As [`Record::end`].
    Number(u32),
    /// Some trap, whichever.
    SomeTrap,
}

/// An end that is never due.
const NEVER: u32 = 0xffff_ffff;

impl Said {
    /// The record that has what is said, and all else of the record that is due. If the register, the bytes or the trap that is said
    /// contradicts the due record, the end is one that is never due.
    pub fn filled(self, due: Record) -> Record
        ensures { result ≡ filled self due }
    {
        Record {
            pc: self.pc.unwrap_or(due.pc),
            word: self.word.unwrap_or(due.word),
            src1: self.src1.unwrap_or(due.src1),
            src2: self.src2.unwrap_or(due.src2),
            addr: self.addr.unwrap_or(due.addr),
            value: self.value.unwrap_or(due.value),
            next: self.next.unwrap_or(due.next),
            end: if self.contradicts(&due) {
                NEVER
            } else {
                end_said(self.end, due.end)
            },
        }
    }

    /// Whether another register is said to have been written, or other bytes.
    fn contradicts(self, due: &Record) -> bool
        ensures { result ≡ contradicts self due.now }
    {
        let effect = done_by(due);
        differs(self.rd, register_written(effect)) || differs(self.mask, mask_stored(effect))
    }
}

/// The end that is said; some trap is the one that is due, if one is.
fn end_said(said: Option<SaidEnd>, due: u32) -> u32
    ensures { result ≡ end_said said due }
{
    match said {
        None => due,
        Some(SaidEnd::Number(end)) => end,
        Some(SaidEnd::SomeTrap) => match End::of(due) {
            End::Trap(_) => due,
            End::GoesOn | End::Halt(_) => NEVER,
        },
    }
}

/// What a record does; one that ends does nothing.
pub(crate) fn done_by(due: &Record) -> Effect
    ensures { result ≡ done_by due.now }
{
    if due.end == 0 {
        effect_of(due)
    } else {
        Effect::Nothing
    }
}

/// Whether a number is said, and is another one.
fn differs(said: Option<u32>, due: u32) -> bool
    ensures { result ≡ differs said due }
{
    match said {
        Some(number) => number != due,
        None => false,
    }
}

/// The register that is written, 0 if none is.
pub(crate) fn register_written(effect: Effect) -> u32
    ensures { result ≡ register_written effect }
{
    match effect {
        Effect::Writes { rd, .. } => u32::from(rd),
        Effect::Nothing | Effect::Stores { .. } | Effect::Puts(_) => 0,
    }
}

/// The bytes that are stored of the word in which they lie, the lowest in bit 0.
pub(crate) fn mask_stored(effect: Effect) -> u32
    ensures { result ≡ mask_stored effect }
{
    match effect {
        Effect::Stores { width, addr, .. } => lowest(width) << (addr % 4),
        Effect::Nothing | Effect::Writes { .. } | Effect::Puts(_) => 0,
    }
}

/// The lowest bytes of a word, as many as a width is.
fn lowest(width: Width) -> u32
    ensures value { result ≡ 2 ^ size width - 1 }
    ensures few { result ≤ 15 }
{
    match width {
        Width::Byte => 0b0001,
        Width::Half => 0b0011,
        Width::Word => 0b1111,
    }
}
