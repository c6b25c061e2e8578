// The instruction that a number draws.
ghost use Rattle.std.specs.Prelude.{◌≡◌};
ghost use Rattle.diva_decode.specs.Table.{IsValid};
ghost use Rattle.diva_soak.specs.Soak.{drawn, of_immediate, of_registers, of_sources};

use diva_decode::{Instr, Op};

/// The instruction that a number draws.
#[tactic(auto, unfolding(crate::specs::Soak::drawn))]
pub(crate) fn drawn(x: u32) -> Instr
    ensures drawn { result ≡ drawn x }
    ensures valid { IsValid result }
{
    let rd = (1 + (x >> 26 & 7)) as u8;
    let rs1 = (1 + (x >> 23 & 7)) as u8;
    let rs2 = (1 + (x >> 20 & 7)) as u8;
    let m = x >> 9 & 0x7ff;
    let q = (m - m % 4) as i32;
    match x >> 29 {
        0 => of_immediate(Op::Addi, rd, rs1, m as i32),
        1 => of_registers(Op::Sub, rd, rs1, rs2),
        2 => of_registers(Op::Xor, rd, rs1, rs2),
        3 => of_registers(Op::Mul, rd, rs1, rs2),
        4 => of_registers(Op::Rem, rd, rs1, rs2),
        5 => of_sources(Op::Blt, rs1, rs2, 8),
        6 => of_sources(Op::Sw, 0, rs2, q),
        _ => of_immediate(Op::Lw, rd, 0, q),
    }
}

/// An operation on two registers.
fn of_registers(op: Op, rd: u8, rs1: u8, rs2: u8) -> Instr
    ensures { result ≡ of_registers op rd rs1 rs2 }
{
    let imm = 0;
    Instr {
        op,
        rd,
        rs1,
        rs2,
        imm,
    }
}

/// An operation on a register and an immediate.
pub(crate) fn of_immediate(op: Op, rd: u8, rs1: u8, imm: i32) -> Instr
    ensures { result ≡ of_immediate op rd rs1 imm }
{
    Instr {
        imm,
        ..of_registers(op, rd, rs1, 0)
    }
}

/// An operation that reads two registers and writes none.
pub(crate) fn of_sources(op: Op, rs1: u8, rs2: u8, imm: i32) -> Instr
    ensures { result ≡ of_sources op rs1 rs2 imm }
{
    Instr {
        imm,
        ..of_registers(op, 0, rs1, rs2)
    }
}
