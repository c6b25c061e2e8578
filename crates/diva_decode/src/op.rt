// The operations of the table.

/// What an instruction does: the 50 operations, those of RV32IM in the order of the manual's listing, with the two reads
/// of `instret` behind RV32I.
///
/// Here `rs1`, `rs2` and `rd` are what those registers hold, `pc` is where the instruction stands,
/// and all numbers have 32 bits. (RISC-V Unprivileged ISA, chapters RV32I 2.1, M 2.0 and "Zicntr".)
#[derive(Clone, Copy, Debug, PartialEq, Eq)]
pub enum Op {
    // RV32I 2.1
    /// `rd = imm`, whose low 12 bits are 0.
    Lui,
    /// `rd = pc + imm`
    Auipc,
    /// `rd = pc + 4`, and goes on at `pc + imm`.
    Jal,
    /// `rd = pc + 4`, and goes on at `rs1 + imm` with bit 0 cleared.
    Jalr,
    /// Goes on at `pc + imm` where `rs1 = rs2`.
    Beq,
    /// Goes on at `pc + imm` where `rs1` differs from `rs2`.
    Bne,
    /// Goes on at `pc + imm` where `rs1 < rs2`, both signed.
    Blt,
    /// Goes on at `pc + imm` where `rs1 >= rs2`, both signed.
    Bge,
    /// Goes on at `pc + imm` where `rs1 < rs2`, both unsigned.
    Bltu,
    /// Goes on at `pc + imm` where `rs1 >= rs2`, both unsigned.
    Bgeu,
    /// `rd` = the byte at `rs1 + imm`, sign-extended.
    Lb,
    /// `rd` = the 2 bytes at `rs1 + imm`, sign-extended.
    Lh,
    /// `rd` = the 4 bytes at `rs1 + imm`.
    Lw,
    /// `rd` = the byte at `rs1 + imm`, zero-extended.
    Lbu,
    /// `rd` = the 2 bytes at `rs1 + imm`, zero-extended.
    Lhu,
    /// The byte at `rs1 + imm` = the low byte of `rs2`.
    Sb,
    /// The 2 bytes at `rs1 + imm` = the low 2 bytes of `rs2`.
    Sh,
    /// The 4 bytes at `rs1 + imm` = `rs2`.
    Sw,
    /// `rd = rs1 + imm`
    Addi,
    /// `rd` = 1 where `rs1 < imm`, both signed, else 0.
    Slti,
    /// `rd` = 1 where `rs1 < imm`, both unsigned, else 0.
    Sltiu,
    /// `rd = rs1 ^ imm`
    Xori,
    /// `rd = rs1 | imm`
    Ori,
    /// `rd = rs1 & imm`
    Andi,
    /// `rd = rs1 << imm`
    Slli,
    /// `rd = rs1 >> imm`, filled with zeros.
    Srli,
    /// `rd = rs1 >> imm`, filled with the sign.
    Srai,
    /// `rd = rs1 + rs2`
    Add,
    /// `rd = rs1 - rs2`
    Sub,
    /// `rd = rs1 << rs2 % 32`
    Sll,
    /// `rd` = 1 where `rs1 < rs2`, both signed, else 0.
    Slt,
    /// `rd` = 1 where `rs1 < rs2`, both unsigned, else 0.
    Sltu,
    /// `rd = rs1 ^ rs2`
    Xor,
    /// `rd = rs1 >> rs2 % 32`, filled with zeros.
    Srl,
    /// `rd = rs1 >> rs2 % 32`, filled with the sign.
    Sra,
    /// `rd = rs1 | rs2`
    Or,
    /// `rd = rs1 & rs2`
    And,
    /// Orders memory accesses.
    Fence,
    /// Calls the environment.
    Ecall,
    /// Hands over to a debugger.
    Ebreak,
    // the number of instructions
    /// `rd` = the low 32 bits of `instret`.
    Rdinstret,
    /// `rd` = the high 32 bits of `instret`.
    Rdinstreth,
    // M 2.0
    /// `rd` = the low 32 bits of `rs1 * rs2`.
    Mul,
    /// `rd` = the high 32 bits of `rs1 * rs2`, both signed.
    Mulh,
    /// `rd` = the high 32 bits of `rs1 * rs2`, `rs1` signed and `rs2` unsigned.
    Mulhsu,
    /// `rd` = the high 32 bits of `rs1 * rs2`, both unsigned.
    Mulhu,
    /// `rd = rs1 / rs2` toward zero, both signed.
    Div,
    /// `rd = rs1 / rs2`, both unsigned.
    Divu,
    /// `rd = rs1 % rs2` with the sign of `rs1`, both signed.
    Rem,
    /// `rd = rs1 % rs2`, both unsigned.
    Remu,
}
