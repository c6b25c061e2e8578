// From an instruction to its word: one function for each format.

ghost use Rattle.std.specs.Prelude.{IsTrue, Some, ◌≡◌, ◌≢◌, ◌+◌, ◌*◌, ◌^◌, ◌<◌};
ghost use Rattle.diva_decode.specs.Fields.{field};
ghost use Rattle.diva_decode.specs.Table.{row_of, encoding_of, word_in, IsOnlyWordOf, IsValid, FitsFormat, format, U, J, I, B, S, R, Shift, Csr};
ghost use Rattle.diva_decode.specs.Inner.{is_r, is_system};

use crate::instr::Instr;
use crate::op::Op;
use crate::opcodes::{AUIPC, BRANCH, JAL, JALR, LOAD, LUI, OP, OP_IMM, STORE, SYSTEM};

/// The word of a valid instruction, in which each field stands in the place that its format has for it. (RISC-V
/// Unprivileged ISA, RV32I 2.1, "Base Instruction Formats" and "Immediate Encoding Variants".)
///
/// [`decode`](crate::decode) of it gives the instruction back, and no other word decodes to that. Only FENCE has
/// several words, since most of their bits are ignored: it gets the one that orders all accesses, as assemblers write
/// it.
///
/// Which instructions are valid is what [`valid`](crate::valid) says.
#[tactic(auto, using(crate::proofs::Unique::one_word, crate::proofs::Words::row_word_of))]
pub fn encode(i: &Instr) -> u32
    requires { IsValid i.now }
    ensures word { result ≡ encoding_of i.now }
    ensures decodes { row_of result ≡ Some i.now }
    ensures only_word { i.now.op ≢ Op.Fence → IsOnlyWordOf i.now result }
    ensures fence { i.now.op ≡ Op.Fence → result ≡ 0x0ff0000f }
{
    by_operation(i)
}

/// The word by the table's rows.
#[tactic(auto, unfolding(crate::specs::Table::encoding_of))]
fn by_operation(i: &Instr) -> u32
    requires { IsValid i.now }
    ensures word { result ≡ encoding_of i.now }
    ensures fence { i.now.op ≡ Op.Fence → result ≡ 0x0ff0000f }
{
    match i.op {
        Op::Lui => upper_word(i, LUI),
        Op::Auipc => upper_word(i, AUIPC),
        Op::Jal => jump_word(i),
        Op::Jalr => immediate_word(i, JALR, 0),
        Op::Beq => branch_word(i, 0),
        Op::Bne => branch_word(i, 1),
        Op::Blt => branch_word(i, 4),
        Op::Bge => branch_word(i, 5),
        Op::Bltu => branch_word(i, 6),
        Op::Bgeu => branch_word(i, 7),
        Op::Lb => immediate_word(i, LOAD, 0),
        Op::Lh => immediate_word(i, LOAD, 1),
        Op::Lw => immediate_word(i, LOAD, 2),
        Op::Lbu => immediate_word(i, LOAD, 4),
        Op::Lhu => immediate_word(i, LOAD, 5),
        Op::Sb => store_word(i, 0),
        Op::Sh => store_word(i, 1),
        Op::Sw => store_word(i, 2),
        Op::Addi => immediate_word(i, OP_IMM, 0),
        Op::Slti => immediate_word(i, OP_IMM, 2),
        Op::Sltiu => immediate_word(i, OP_IMM, 3),
        Op::Xori => immediate_word(i, OP_IMM, 4),
        Op::Ori => immediate_word(i, OP_IMM, 6),
        Op::Andi => immediate_word(i, OP_IMM, 7),
        Op::Slli => shift_word(i, 1, 0x00),
        Op::Srli => shift_word(i, 5, 0x00),
        Op::Srai => shift_word(i, 5, 0x20),
        Op::Fence => 0x0ff0_000f,
        Op::Ecall | Op::Ebreak | Op::Rdinstret | Op::Rdinstreth => system_word(i),
        _ => two_register_word(i),
    }
}

/// The word of an operation of opcode SYSTEM.
#[tactic(auto, unfolding(crate::specs::Table::encoding_of))]
fn system_word(i: &Instr) -> u32
    requires system { IsTrue (is_system (format i.now.op)) }
    requires valid { IsValid i.now }
    ensures { result ≡ encoding_of i.now }
{
    match i.op {
        Op::Ecall => 0x0000_0073,
        Op::Ebreak => 0x0010_0073,
        Op::Rdinstret => read_word(i, 0xc02),
        Op::Rdinstreth => read_word(i, 0xc82),
        _ => unreachable!(),
    }
}

/// The word of an operation on two registers.
#[tactic(auto, unfolding(crate::specs::Table::encoding_of))]
fn two_register_word(i: &Instr) -> u32
    requires two_registers { IsTrue (is_r (format i.now.op)) }
    requires valid { IsValid i.now }
    ensures { result ≡ encoding_of i.now }
{
    match i.op {
        Op::Add => register_word(i, 0, 0x00),
        Op::Sub => register_word(i, 0, 0x20),
        Op::Sll => register_word(i, 1, 0x00),
        Op::Slt => register_word(i, 2, 0x00),
        Op::Sltu => register_word(i, 3, 0x00),
        Op::Xor => register_word(i, 4, 0x00),
        Op::Srl => register_word(i, 5, 0x00),
        Op::Sra => register_word(i, 5, 0x20),
        Op::Or => register_word(i, 6, 0x00),
        Op::And => register_word(i, 7, 0x00),
        Op::Mul => register_word(i, 0, 0x01),
        Op::Mulh => register_word(i, 1, 0x01),
        Op::Mulhsu => register_word(i, 2, 0x01),
        Op::Mulhu => register_word(i, 3, 0x01),
        Op::Div => register_word(i, 4, 0x01),
        Op::Divu => register_word(i, 5, 0x01),
        Op::Rem => register_word(i, 6, 0x01),
        Op::Remu => register_word(i, 7, 0x01),
        _ => unreachable!(),
    }
}

/// A word from its six fields.
fn pack(funct7: u32, rs2: u32, rs1: u32, funct3: u32, rd: u32, opcode: u32) -> u32
    requires high { (funct7 < 2 ^ 7) × (rs2 < 2 ^ 5) × (rs1 < 2 ^ 5) }
    requires low { (funct3 < 2 ^ 3) × (rd < 2 ^ 5) × (opcode < 2 ^ 7) }
    ensures { result ≡ funct7 * 2 ^ 25 + rs2 * 2 ^ 20 + rs1 * 2 ^ 15 + funct3 * 2 ^ 12 + rd * 2 ^ 7
        + opcode }
{
    funct7 << 25 | (rs2 << 20 | (rs1 << 15 | (funct3 << 12 | (rd << 7 | opcode))))
}

fn register_word(i: &Instr, funct3: u32, funct7: u32) -> u32
    requires valid { FitsFormat (R funct7 funct3 OP) i.now }
    requires fields { (funct3 < 2 ^ 3) × (funct7 < 2 ^ 7) }
    ensures { result ≡ word_in (R funct7 funct3 OP) i.now }
{
    pack(
        funct7,
        u32::from(i.rs2),
        u32::from(i.rs1),
        funct3,
        u32::from(i.rd),
        OP,
    )
}

fn branch_word(i: &Instr, funct3: u32) -> u32
    requires valid { FitsFormat (B funct3 BRANCH) i.now }
    requires fields { funct3 < 2 ^ 3 }
    ensures { result ≡ word_in (B funct3 BRANCH) i.now }
{
    let imm = i.imm.cast_unsigned();
    pack(
        branch_high(imm),
        u32::from(i.rs2),
        u32::from(i.rs1),
        funct3,
        branch_low(imm),
        BRANCH,
    )
}

/// The bits of a branch's immediate that stand in the place of funct7: 12, then 10..5.
fn branch_high(imm: u32) -> u32
    ensures { result ≡ field 12 1 imm * 2 ^ 6 + field 5 6 imm }
{
    (imm >> 12 & 1) << 6 | imm >> 5 & 0x3f
}

/// The bits of a branch's immediate that stand in the place of rd: 4..1, then 11.
fn branch_low(imm: u32) -> u32
    ensures { result ≡ field 1 4 imm * 2 + field 11 1 imm }
{
    (imm >> 1 & 0xf) << 1 | imm >> 11 & 1
}

fn store_word(i: &Instr, funct3: u32) -> u32
    requires valid { FitsFormat (S funct3 STORE) i.now }
    requires fields { funct3 < 2 ^ 3 }
    ensures { result ≡ word_in (S funct3 STORE) i.now }
{
    let imm = i.imm.cast_unsigned();
    pack(
        imm >> 5 & 0x7f,
        u32::from(i.rs2),
        u32::from(i.rs1),
        funct3,
        imm & 0x1f,
        STORE,
    )
}

fn shift_word(i: &Instr, funct3: u32, funct7: u32) -> u32
    requires valid { FitsFormat (Shift funct7 funct3 OP_IMM) i.now }
    requires fields { (funct3 < 2 ^ 3) × (funct7 < 2 ^ 7) }
    ensures { result ≡ word_in (Shift funct7 funct3 OP_IMM) i.now }
{
    pack(
        funct7,
        i.imm.cast_unsigned(),
        u32::from(i.rs1),
        funct3,
        u32::from(i.rd),
        OP_IMM,
    )
}

/// A word of format I, of any opcode.
fn immediate_word(i: &Instr, opcode: u32, funct3: u32) -> u32
    requires valid { FitsFormat (I funct3 opcode) i.now }
    requires fields { (funct3 < 2 ^ 3) × (opcode < 2 ^ 7) }
    ensures { result ≡ word_in (I funct3 opcode) i.now }
{
    let imm = i.imm.cast_unsigned();
    pack(
        imm >> 5 & 0x7f,
        imm & 0x1f,
        u32::from(i.rs1),
        funct3,
        u32::from(i.rd),
        opcode,
    )
}

/// The word of a read of the control and status register with this number: CSRRS with x0.
fn read_word(i: &Instr, csr: u32) -> u32
    requires valid { FitsFormat (Csr csr 2 SYSTEM) i.now }
    requires fields { csr < 2 ^ 12 }
    ensures { result ≡ word_in (Csr csr 2 SYSTEM) i.now }
{
    pack(csr >> 5, csr & 0x1f, 0, 2, u32::from(i.rd), SYSTEM)
}

/// A word of the formats U and J from its three fields.
fn pack_upper(upper: u32, rd: u32, opcode: u32) -> u32
    requires { (upper < 2 ^ 20) × (rd < 2 ^ 5) × (opcode < 2 ^ 7) }
    ensures { result ≡ upper * 2 ^ 12 + rd * 2 ^ 7 + opcode }
{
    upper << 12 | (rd << 7 | opcode)
}

fn upper_word(i: &Instr, opcode: u32) -> u32
    requires valid { FitsFormat (U opcode) i.now }
    requires fields { opcode < 2 ^ 7 }
    ensures { result ≡ word_in (U opcode) i.now }
{
    pack_upper(i.imm.cast_unsigned() >> 12, u32::from(i.rd), opcode)
}

fn jump_word(i: &Instr) -> u32
    requires { FitsFormat (J JAL) i.now }
    ensures { result ≡ word_in (J JAL) i.now }
{
    pack_upper(jump_upper(i.imm.cast_unsigned()), u32::from(i.rd), JAL)
}

/// A jump's immediate as its word's upper 20 bits: 20, 10..1, 11, 19..12.
fn jump_upper(imm: u32) -> u32
    ensures { result ≡ field 20 1 imm * 2 ^ 19 + field 1 10 imm * 2 ^ 9 + field 11 1 imm * 2 ^ 8
        + field 12 8 imm }
{
    (imm >> 20 & 1) << 19 | ((imm >> 1 & 0x3ff) << 9 | ((imm >> 11 & 1) << 8 | imm >> 12 & 0xff))
}
