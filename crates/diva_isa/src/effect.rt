// What a record does besides moving the pc and being counted.

ghost use Rattle.std.specs.Prelude.{◌≡◌, IfSome};
ghost use Rattle.diva_decode.specs.Table.{HasRegisters};
ghost use Rattle.diva_isa.specs.Step.{effect, effect_by, effect_of, HasRegister};

use crate::kind::{Kind, Width, kind_of};
use crate::record::Record;
use diva_decode::{Instr, decode};

/// The service that puts a byte, as ECALL asks for it by x17.
pub(crate) const PUT: u32 = 1;

/// What a record does to a state besides moving its pc and being counted.
#[derive(Clone, Copy, Debug, PartialEq, Eq)]
pub enum Effect {
    /// Nothing else.
    Nothing,
    /// Puts a word into a register; x0 ignores it.
    Writes {
        /// The register, 0 to 31.
        rd: u8,
        /// The word.
        value: u32,
    },
    /// Stores the low bytes of a word, the lowest at the address.
    Stores {
        /// How many of them.
        width: Width,
        /// The address of the lowest.
        addr: u32,
        /// The word.
        value: u32,
    },
    /// Puts a byte to the output.
    Puts(u8),
}

/// What a record does besides moving the pc and being counted, whether the record is right or wrong, by the instruction that its
/// word says; `Nothing` where the word says none. It is done only where the record goes on: one that ends is counted, and only
/// ends the machine.
/// (RISC-V Unprivileged ISA, chapters RV32I 2.1 and M 2.0.)
pub fn effect_of(r: &Record) -> Effect
    ensures effect { result ≡ effect_of r.now }
    ensures register { HasRegister result }
{
    effect_by(decode(r.word), r)
}

/// What a record does besides moving the pc and being counted, as [`effect_of`] has it, but decodes nothing: `decoded` is what the
/// record's word says, and where that is `None` the effect is `Nothing`.
#[inline]
pub fn effect_by(decoded: Option<Instr>, r: &Record) -> Effect
    ensures effect { result ≡ effect_by decoded r.now }
    ensures register { IfSome decoded HasRegisters → HasRegister result }
{
    match decoded {
        Some(i) => effect_as(&i, r, kind_of(i.op)),
        None => Effect::Nothing,
    }
}

/// The same of a record of an instruction of a kind.
#[inline(always)]
pub(crate) fn effect_as(i: &Instr, r: &Record, kind: Kind) -> Effect
    ensures effect { result ≡ effect kind i.now r.now }
    ensures register { HasRegisters i.now → HasRegister result }
{
    match kind {
        Kind::Lui
        | Kind::Auipc
        | Kind::Jal
        | Kind::Jalr
        | Kind::Load(_)
        | Kind::OpImm
        | Kind::OpReg
        | Kind::Counter => Effect::Writes {
            rd: i.rd,
            value: r.value,
        },
        Kind::Store(width) => Effect::Stores {
            width,
            addr: r.addr,
            value: r.value,
        },
        Kind::Ecall if r.src1 == PUT => Effect::Puts((r.value & 0xff) as u8),
        Kind::Ecall | Kind::Branch | Kind::Fence | Kind::Ebreak => Effect::Nothing,
    }
}
