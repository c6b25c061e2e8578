// An instruction of the table.

use crate::op::Op;

/// An instruction: an operation, its registers and its immediate. (RISC-V Unprivileged ISA, RV32I 2.1, "Base
/// Instruction Formats".)
///
/// What [`decode`](crate::decode) gives has registers below 32, 0 in each field that the operation's format lacks, and
/// 0 in all fields of FENCE. Any other numbers can be written here too: [`valid`](crate::valid) tells those that have a
/// word.
#[derive(Clone, Copy, Debug, PartialEq, Eq)]
pub struct Instr {
    /// What it does.
    pub op: Op,
    /// The register that is written, 0 to 31.
    pub rd: u8,
    /// The first register that is read, 0 to 31.
    pub rs1: u8,
    /// The second register that is read, 0 to 31.
    pub rs2: u8,
    /// The immediate, sign-extended: -2048 to 2047 in the formats I and S; an even offset in bytes from -4096 to 4094
    /// in B and from -1048576 to 1048574 in J; 32 bits, of which the low 12 are 0, in U (LUI and AUIPC). SLLI, SRLI and
    /// SRAI have here how many places they shift, 0 to 31, and an operation with no immediate has 0.
    pub imm: i32,
}
