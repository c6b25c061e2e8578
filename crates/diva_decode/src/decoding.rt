// From a word to the instruction that it is: one function for each opcode.

mod operations;

ghost use Rattle.std.specs.Prelude.{IfSome, Some, pos, ◌≡◌, ◌≢◌, ◌⊎◌};
ghost use Rattle.diva_decode.specs.Fields.{opcode, funct3, rd, rs1, imm_i, imm_u};
ghost use Rattle.diva_decode.specs.Table.{row_of, encoding_of, IsValid, HasRegisters};

use crate::fields::{csr, funct3, funct7, opcode, rd, rs1, rs2};
use crate::immediates::{imm_b, imm_i, imm_j, imm_s, imm_u};
use crate::instr::Instr;
use crate::op::Op;
use crate::opcodes::{AUIPC, BRANCH, JAL, JALR, LOAD, LUI, MISC_MEM, OP, OP_IMM, STORE, SYSTEM};
use operations::{branch_op, immediate_op, load_op, register_op, shift_op, store_op};

/// The instruction that a word is, `None` exactly where the word stands outside the table. (RISC-V Unprivileged ISA,
/// chapter "RV32/64G Instruction Set Listings": RV32I 2.1 and M 2.0; chapter "Zicntr".)
///
/// What comes out is valid, so [`encode`](crate::encode) may be asked for its word: that is this word again, unless the
/// instruction is FENCE, which has several words.
#[inline(never)]
pub fn decode(word: u32) -> Option<Instr>
    ensures row_of { result ≡ row_of word }
    ensures encodes { IfSome result (λ i. i.op ≢ Op.Fence → encoding_of i ≡ word) }
    ensures valid { IfSome result IsValid }
    ensures registers { IfSome result HasRegisters }
{
    decode_here(word)
}

/// The same as [`decode`], made part of its caller: for the places where each instruction is decoded.
#[inline(always)]
#[tactic(auto, using(crate::proofs::Unique::valid_if, crate::proofs::Unique::registers_by, crate::proofs::Unique::encodes_if))]
pub fn decode_here(word: u32) -> Option<Instr>
    ensures row_of { result ≡ row_of word }
    ensures encodes { IfSome result (λ i. i.op ≢ Op.Fence → encoding_of i ≡ word) }
    ensures valid { IfSome result IsValid }
    ensures registers { IfSome result HasRegisters }
{
    by_opcode(word)
}

#[inline(always)]
#[tactic(auto, using(crate::proofs::Rows::row_none))]
fn by_opcode(word: u32) -> Option<Instr>
    ensures { result ≡ row_of word }
{
    match opcode(word) {
        LUI => Some(load_upper(word)),
        AUIPC => Some(add_upper(word)),
        JAL => Some(jump(word)),
        JALR => jump_register(word),
        BRANCH => branch(word),
        LOAD => load(word),
        STORE => store(word),
        OP_IMM if matches!(funct3(word), 1 | 5) => shift(word),
        OP_IMM => immediate(word),
        OP => register(word),
        MISC_MEM => fence(word),
        SYSTEM => system(word),
        _ => None,
    }
}

// ---- one opcode at a time

#[inline(always)]
#[tactic(auto, using(crate::proofs::Rows::row_lui))]
fn load_upper(word: u32) -> Instr
    requires { opcode word ≡ LUI }
    ensures { row_of word ≡ Some result }
{
    with_upper(Op::Lui, word)
}

#[inline(always)]
#[tactic(auto, using(crate::proofs::Rows::row_auipc))]
fn add_upper(word: u32) -> Instr
    requires { opcode word ≡ AUIPC }
    ensures { row_of word ≡ Some result }
{
    with_upper(Op::Auipc, word)
}

#[inline(always)]
#[tactic(auto, using(crate::proofs::Rows::row_jal))]
fn jump(word: u32) -> Instr
    requires { opcode word ≡ JAL }
    ensures { row_of word ≡ Some result }
{
    Instr {
        op: Op::Jal,
        rd: rd(word),
        rs1: 0,
        rs2: 0,
        imm: imm_j(word),
    }
}

#[inline(always)]
#[tactic(auto, using(crate::proofs::Rows::row_jalr))]
fn jump_register(word: u32) -> Option<Instr>
    requires { opcode word ≡ JALR }
    ensures { result ≡ row_of word }
{
    if funct3(word) != 0 {
        return None;
    }
    Some(with_immediate(Op::Jalr, word))
}

#[inline(always)]
#[tactic(auto, using(crate::proofs::Rows::row_branch))]
fn branch(word: u32) -> Option<Instr>
    requires { opcode word ≡ BRANCH }
    ensures { result ≡ row_of word }
{
    let op = branch_op(funct3(word))?;
    Some(Instr {
        op,
        rd: 0,
        rs1: rs1(word),
        rs2: rs2(word),
        imm: imm_b(word),
    })
}

#[inline(always)]
#[tactic(auto, using(crate::proofs::Rows::row_load))]
fn load(word: u32) -> Option<Instr>
    requires { opcode word ≡ LOAD }
    ensures { result ≡ row_of word }
{
    let op = load_op(funct3(word))?;
    Some(with_immediate(op, word))
}

#[inline(always)]
#[tactic(auto, using(crate::proofs::Rows::row_store))]
fn store(word: u32) -> Option<Instr>
    requires { opcode word ≡ STORE }
    ensures { result ≡ row_of word }
{
    let op = store_op(funct3(word))?;
    Some(Instr {
        op,
        rd: 0,
        rs1: rs1(word),
        rs2: rs2(word),
        imm: imm_s(word),
    })
}

#[inline(always)]
#[tactic(auto, using(crate::proofs::Rows::row_immediate))]
fn immediate(word: u32) -> Option<Instr>
    requires code { opcode word ≡ OP_IMM }
    requires no_shift { (funct3 word ≢ 1) × (funct3 word ≢ 5) }
    ensures { result ≡ row_of word }
{
    let op = immediate_op(funct3(word))?;
    Some(with_immediate(op, word))
}

#[inline(always)]
#[tactic(auto, using(crate::proofs::Rows::row_shift))]
fn shift(word: u32) -> Option<Instr>
    requires code { opcode word ≡ OP_IMM }
    requires is_shift { (funct3 word ≡ 1) ⊎ (funct3 word ≡ 5) }
    ensures { result ≡ row_of word }
{
    let op = shift_op(funct3(word), funct7(word))?;
    Some(Instr {
        op,
        rd: rd(word),
        rs1: rs1(word),
        rs2: 0,
        imm: rs2(word) as i32,
    })
}

#[inline(always)]
#[tactic(auto, using(crate::proofs::Rows::row_register))]
fn register(word: u32) -> Option<Instr>
    requires { opcode word ≡ OP }
    ensures { result ≡ row_of word }
{
    let op = register_op(funct3(word), funct7(word))?;
    Some(Instr {
        op,
        rd: rd(word),
        rs1: rs1(word),
        rs2: rs2(word),
        imm: 0,
    })
}

#[tactic(auto, using(crate::proofs::Rows::row_fence))]
fn fence(word: u32) -> Option<Instr>
    requires { opcode word ≡ MISC_MEM }
    ensures { result ≡ row_of word }
{
    if funct3(word) != 0 {
        return None;
    }
    Some(bare(Op::Fence))
}

#[tactic(auto, using(crate::proofs::Rows::row_ecall, crate::proofs::Rows::row_ebreak))]
fn system(word: u32) -> Option<Instr>
    requires { opcode word ≡ SYSTEM }
    ensures { result ≡ row_of word }
{
    match word {
        0x0000_0073 => Some(bare(Op::Ecall)),
        0x0010_0073 => Some(bare(Op::Ebreak)),
        _ => read(word),
    }
}

/// A read of a control and status register: CSRRS with x0. The table has those of instret and instreth.
#[tactic(auto, using(crate::proofs::Rows::row_read))]
fn read(word: u32) -> Option<Instr>
    requires code { opcode word ≡ SYSTEM }
    requires not_exact { (word ≢ 0x0000_0073) × (word ≢ 0x0010_0073) }
    ensures { result ≡ row_of word }
{
    if funct3(word) != 2 || rs1(word) != 0 {
        return None;
    }
    let op = match csr(word) {
        0xc02 => Op::Rdinstret,
        0xc82 => Op::Rdinstreth,
        _ => return None,
    };
    Some(Instr {
        op,
        rd: rd(word),
        rs1: 0,
        rs2: 0,
        imm: 0,
    })
}

// ---- the instruction of a format

/// An instruction with the upper bits of a word, and a register that is written.
#[inline(always)]
fn with_upper(op: Op, word: u32) -> Instr
    ensures { result ≡ record { op = op; rd = rd word; rs1 = 0; rs2 = 0; imm = imm_u word } }
{
    Instr {
        op,
        rd: rd(word),
        rs1: 0,
        rs2: 0,
        imm: imm_u(word),
    }
}

/// An instruction with an immediate of 12 bits, a register that is written and one that is read.
#[inline(always)]
fn with_immediate(op: Op, word: u32) -> Instr
    ensures { result ≡ record { op = op; rd = rd word; rs1 = rs1 word; rs2 = 0; imm = imm_i word } }
{
    Instr {
        op,
        rd: rd(word),
        rs1: rs1(word),
        rs2: 0,
        imm: imm_i(word),
    }
}

/// An instruction that has neither registers nor an immediate.
fn bare(op: Op) -> Instr
    ensures { result ≡ record { op = op; rd = 0; rs1 = 0; rs2 = 0; imm = pos 0 } }
{
    Instr {
        op,
        rd: 0,
        rs1: 0,
        rs2: 0,
        imm: 0,
    }
}
