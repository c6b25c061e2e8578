// Which instructions have a word.

ghost use Rattle.std.specs.Prelude.{IsTrue, ◌↔◌, ◌<◌, pos, neg_ℤ, ◌≤ℤ◌, ◌<ℤ◌};
ghost use Rattle.diva_decode.specs.Table.{IsValid, LowBitsZero};
ghost use Rattle.diva_decode.specs.Inner.{FitsUse};

use crate::instr::Instr;
use crate::op::Op;

/// Whether an instruction has a word: its registers are below 32, the fields that its format lacks are 0, and the
/// format can hold its immediate. (RISC-V Unprivileged ISA, RV32I 2.1, "Base Instruction Formats".)
pub fn valid(i: &Instr) -> bool
    ensures { IsTrue result ↔ IsValid i.now }
{
    match i.op {
        Op::Lui | Op::Auipc => has(i, true, false, false) && i.imm.cast_unsigned() & 0xfff == 0,
        Op::Jal => has(i, true, false, false) && is_within(i.imm, 1 << 20) && is_even(i.imm),
        Op::Jalr
        | Op::Lb
        | Op::Lh
        | Op::Lw
        | Op::Lbu
        | Op::Lhu
        | Op::Addi
        | Op::Slti
        | Op::Sltiu
        | Op::Xori
        | Op::Ori
        | Op::Andi => { has(i, true, true, false) && is_within(i.imm, 1 << 11) }
        Op::Beq | Op::Bne | Op::Blt | Op::Bge | Op::Bltu | Op::Bgeu => {
            has(i, false, true, true) && is_within(i.imm, 1 << 12) && is_even(i.imm)
        }
        Op::Sb | Op::Sh | Op::Sw => has(i, false, true, true) && is_within(i.imm, 1 << 11),
        Op::Slli | Op::Srli | Op::Srai => { has(i, true, true, false) && 0 <= i.imm && i.imm < 32 }
        Op::Fence | Op::Ecall | Op::Ebreak => has(i, false, false, false) && i.imm == 0,
        Op::Rdinstret | Op::Rdinstreth => has(i, true, false, false) && i.imm == 0,
        // the 18 operations on two registers
        _ => has(i, true, true, true) && i.imm == 0,
    }
}

/// Whether the registers are below 32, and those that are not used are 0.
fn has(i: &Instr, rd: bool, rs1: bool, rs2: bool) -> bool
    ensures { IsTrue result ↔ (FitsUse rd i.now.rd × FitsUse rs1 i.now.rs1 × FitsUse rs2 i.now.rs2) }
{
    fits_use(rd, i.rd) && fits_use(rs1, i.rs1) && fits_use(rs2, i.rs2)
}

fn fits_use(used: bool, register: u8) -> bool
    ensures { IsTrue result ↔ FitsUse used register }
{
    if used { register < 32 } else { register == 0 }
}

fn is_within(z: i32, limit: i32) -> bool
    requires { pos 0 <ℤ limit }
    ensures { IsTrue result ↔ ((neg_ℤ limit ≤ℤ z) × (z <ℤ limit)) }
{
    -limit <= z && z < limit
}

fn is_even(z: i32) -> bool
    ensures { IsTrue result ↔ LowBitsZero 1 z }
{
    z & 1 == 0
}
