// The opcodes of the table, by the names of the manual's opcode map. (RISC-V Unprivileged ISA, chapter "RV32/64G
// Instruction Set Listings".)

pub(crate) const LOAD: u32 = 0x03;

pub(crate) const MISC_MEM: u32 = 0x0f;

pub(crate) const OP_IMM: u32 = 0x13;

pub(crate) const AUIPC: u32 = 0x17;

pub(crate) const STORE: u32 = 0x23;

pub(crate) const OP: u32 = 0x33;

pub(crate) const LUI: u32 = 0x37;

pub(crate) const BRANCH: u32 = 0x63;

pub(crate) const JALR: u32 = 0x67;

pub(crate) const JAL: u32 = 0x6f;

pub(crate) const SYSTEM: u32 = 0x73;
