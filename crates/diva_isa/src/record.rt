// The record of one instruction, and its parts.

ghost use Rattle.std.specs.Prelude.{◌≡◌};

/// How many bytes the output of a machine holds at most.
pub const OUTPUT_LIMIT: u32 = 65_536;

/// One instruction: its place and word, what it read, what it computed, and where it leads. A field that the
/// instruction does not use is 0. (RISC-V Unprivileged ISA, chapters RV32I 2.1 and M 2.0; `specs/Step.antt` has a row
/// for each kind of instruction.)
#[derive(Clone, Copy, Debug, Default, PartialEq, Eq)]
pub struct Record {
    /// The address where the instruction stands.
    pub pc: u32,
    /// The instruction's word, 0 where there is none.
    pub word: u32,
    /// The word of the first register that it reads; of ECALL, x17.
    pub src1: u32,
    /// The word of the second register that it reads; of ECALL, x10.
    pub src2: u32,
    /// The address of a load or a store.
    pub addr: u32,
    /// What it computes, loads, stores or puts.
    pub value: u32,
    /// The address where the next instruction stands; `pc` where the machine ends.
    pub next: u32,
    /// 0 where the machine goes on, 1 + a trap's number, or 256 + the status of a halt.
    pub end: u32,
}

/// The words that an instruction reads.
#[derive(Clone, Copy, Debug, PartialEq, Eq)]
pub struct Operands {
    /// As [`Record::src1`].
    pub first: u32,
    /// As [`Record::src2`].
    pub second: u32,
}

/// What an instruction comes to: the last three fields of its record.
#[derive(Clone, Copy, Debug, PartialEq, Eq)]
pub struct Outcome {
    /// As [`Record::value`].
    pub value: u32,
    /// As [`Record::next`].
    pub next: u32,
    /// As [`Record::end`].
    pub end: u32,
}

impl Record {
    /// The record with another outcome.
    pub fn ending_in(self, outcome: Outcome) -> Record
        ensures { result ≡ record self { value = outcome.value; next = outcome.next; end = outcome.end } }
    {
        Record {
            value: outcome.value,
            next: outcome.next,
            end: outcome.end,
            ..self
        }
    }
}
