// The operation of a word by its funct3 and funct7, for each opcode that has several.

ghost use Rattle.std.specs.Prelude.{◌≡◌, ◌≢◌, ◌⊎◌};
ghost use Rattle.diva_decode.specs.Inner.{op_at};

use crate::op::Op;
use crate::opcodes::{BRANCH, LOAD, OP, OP_IMM, STORE};

pub(super) fn branch_op(funct3: u32) -> Option<Op>
    ensures { result ≡ op_at BRANCH funct3 0 }
{
    match funct3 {
        0 => Some(Op::Beq),
        1 => Some(Op::Bne),
        4 => Some(Op::Blt),
        5 => Some(Op::Bge),
        6 => Some(Op::Bltu),
        7 => Some(Op::Bgeu),
        _ => None,
    }
}

pub(super) fn load_op(funct3: u32) -> Option<Op>
    ensures { result ≡ op_at LOAD funct3 0 }
{
    match funct3 {
        0 => Some(Op::Lb),
        1 => Some(Op::Lh),
        2 => Some(Op::Lw),
        4 => Some(Op::Lbu),
        5 => Some(Op::Lhu),
        _ => None,
    }
}

pub(super) fn store_op(funct3: u32) -> Option<Op>
    ensures { result ≡ op_at STORE funct3 0 }
{
    match funct3 {
        0 => Some(Op::Sb),
        1 => Some(Op::Sh),
        2 => Some(Op::Sw),
        _ => None,
    }
}

pub(super) fn immediate_op(funct3: u32) -> Option<Op>
    requires { (funct3 ≢ 1) × (funct3 ≢ 5) }
    ensures { result ≡ op_at OP_IMM funct3 0 }
{
    match funct3 {
        0 => Some(Op::Addi),
        2 => Some(Op::Slti),
        3 => Some(Op::Sltiu),
        4 => Some(Op::Xori),
        6 => Some(Op::Ori),
        7 => Some(Op::Andi),
        _ => None,
    }
}

pub(super) fn shift_op(funct3: u32, funct7: u32) -> Option<Op>
    requires { (funct3 ≡ 1) ⊎ (funct3 ≡ 5) }
    ensures { result ≡ op_at OP_IMM funct3 funct7 }
{
    match (funct3, funct7) {
        (1, 0x00) => Some(Op::Slli),
        (5, 0x00) => Some(Op::Srli),
        (5, 0x20) => Some(Op::Srai),
        _ => None,
    }
}

pub(super) fn register_op(funct3: u32, funct7: u32) -> Option<Op>
    ensures { result ≡ op_at OP funct3 funct7 }
{
    match (funct7, funct3) {
        (0x00, 0) => Some(Op::Add),
        (0x20, 0) => Some(Op::Sub),
        (0x00, 1) => Some(Op::Sll),
        (0x00, 2) => Some(Op::Slt),
        (0x00, 3) => Some(Op::Sltu),
        (0x00, 4) => Some(Op::Xor),
        (0x00, 5) => Some(Op::Srl),
        (0x20, 5) => Some(Op::Sra),
        (0x00, 6) => Some(Op::Or),
        (0x00, 7) => Some(Op::And),
        (0x01, 0) => Some(Op::Mul),
        (0x01, 1) => Some(Op::Mulh),
        (0x01, 2) => Some(Op::Mulhsu),
        (0x01, 3) => Some(Op::Mulhu),
        (0x01, 4) => Some(Op::Div),
        (0x01, 5) => Some(Op::Divu),
        (0x01, 6) => Some(Op::Rem),
        (0x01, 7) => Some(Op::Remu),
        _ => None,
    }
}
