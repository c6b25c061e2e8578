// The instructions of a statement.
ghost use Rattle.std.specs.Prelude.{◌≡◌, ◌<◌, ℤ, pos, [], ◌∷◌, IfOk};
ghost use Rattle.std.specs.Int.{cast_signed, w32};
ghost use Rattle.diva_decode.specs.Table.{format, IsValid, FitsBits};
ghost use Rattle.diva_asm.specs.Mnemonics.{format_operands};
ghost use Rattle.diva_asm.specs.Reads.{Keeps, uses, unused};
ghost use Rattle.diva_asm.specs.Building.{imm_of, reaches, offset_to, addi, jalr, lui_of, addi_of, instruction};

use crate::fault::Kind;
use crate::operands::{Operands, word_from};
use diva_decode::{Instr, Op};

/// From pc to an address.
pub(crate) fn offset_to(address: u32, pc: u32) -> u32
    ensures { result ≡ offset_to address pc }
{
    address.wrapping_sub(pc)
}

/// An instruction of the table, a branch or a jump by its offset.
#[tactic(auto, unfolding(crate::specs::Building::instruction))]
pub(crate) fn instruction(op: Op, v: &Operands<'_>, offset: u32) -> Result<Instr, Kind>
    requires { Keeps (uses (format_operands (format op)) unused) v.now }
    ensures value { result ≡ instruction op v.now offset }
    ensures valid { IfOk result (λ i. IsValid i) }
{
    let imm = imm_of(op, v, offset);
    if !reaches(op, imm) {
        return Err(Kind::BadOffset);
    }
    Ok(Instr {
        op,
        rd: v.rd,
        rs1: v.rs1,
        rs2: v.rs2,
        imm,
    })
}

fn imm_of(op: Op, v: &Operands<'_>, offset: u32) -> i32
    ensures { result ≡ imm_of (format op) v.now offset }
{
    match op {
        Op::Lui | Op::Auipc => (word_from(v.number) << 12).cast_signed(),
        Op::Jal | Op::Beq | Op::Bne | Op::Blt | Op::Bge | Op::Bltu | Op::Bgeu => {
            offset.cast_signed()
        }
        _ => word_from(v.number).cast_signed(),
    }
}

/// Whether an offset is even and within its format's range.
fn reaches(op: Op, imm: i32) -> bool
    ensures { result ≡ reaches (format op) imm }
{
    match op {
        Op::Jal => imm.cast_unsigned() % 2 == 0 && -0x10_0000 <= imm && imm <= 0xf_fffe,
        Op::Beq | Op::Bne | Op::Blt | Op::Bge | Op::Bltu | Op::Bgeu => {
            imm.cast_unsigned() % 2 == 0 && -4096 <= imm && imm <= 4094
        }
        _ => true,
    }
}

pub(crate) fn addi(rd: u8, rs1: u8, imm: i32) -> Instr
    requires registers { (rd < 32) × (rs1 < 32) }
    requires number { FitsBits 12 imm }
    ensures value { result ≡ addi rd rs1 imm }
    ensures valid { IsValid result }
{
    Instr {
        op: Op::Addi,
        rd,
        rs1,
        rs2: 0,
        imm,
    }
}

pub(crate) fn jalr(rd: u8, rs1: u8) -> Instr
    requires { (rd < 32) × (rs1 < 32) }
    ensures value { result ≡ jalr rd rs1 }
    ensures valid { IsValid result }
{
    Instr {
        op: Op::Jalr,
        rd,
        rs1,
        rs2: 0,
        imm: 0,
    }
}

/// The first of two words for a value: LUI of its upper 20 bits, rounded.
pub(crate) fn lui_of(rd: u8, value: u32) -> Instr
    requires { rd < 32 }
    ensures value { result ≡ lui_of rd value }
    ensures valid { IsValid result }
{
    Instr {
        op: Op::Lui,
        rd,
        rs1: 0,
        rs2: 0,
        imm: (((u64::from(value) + 2048) / 4096 % (1 << 20)) as u32 * 4096).cast_signed(),
    }
}

/// The second: ADDI of its low 12 bits, read signed.
pub(crate) fn addi_of(rd: u8, value: u32) -> Instr
    requires { rd < 32 }
    ensures value { result ≡ addi_of rd value }
    ensures valid { IsValid result }
{
    let low = (value % 4096).cast_signed();
    addi(rd, rd, if low < 2048 { low } else { low - 4096 })
}
