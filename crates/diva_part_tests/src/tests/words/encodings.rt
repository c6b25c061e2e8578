// Words as the GNU assembler (binutils, for RISC-V of 32 bits) encodes them, each format at the edges of its registers
// and immediates, and some that stand outside the table. Beside each row stands the statement that was assembled, a
// branch or a jump by its offset from pc.

use diva_decode::Op;

/// A word, and the operation, rd, rs1, rs2 and immediate of its instruction.
pub(super) struct Encoding(
    pub(super) u32,
    pub(super) Op,
    pub(super) u8,
    pub(super) u8,
    pub(super) u8,
    pub(super) i32,
);

pub(super) static ENCODINGS: [Encoding; 209] = [
    Encoding(0x0000_0033, Op::Add, 0, 0, 0, 0), // add x0, x0, x0
    Encoding(0x01ff_8fb3, Op::Add, 31, 31, 31, 0), // add x31, x31, x31
    Encoding(0x002e_0f33, Op::Add, 30, 28, 2, 0), // add x30, x28, x2
    Encoding(0x0149_02b3, Op::Add, 5, 18, 20, 0), // add x5, x18, x20
    Encoding(0x4000_0033, Op::Sub, 0, 0, 0, 0), // sub x0, x0, x0
    Encoding(0x41ff_8fb3, Op::Sub, 31, 31, 31, 0), // sub x31, x31, x31
    Encoding(0x4069_0733, Op::Sub, 14, 18, 6, 0), // sub x14, x18, x6
    Encoding(0x40fb_0d33, Op::Sub, 26, 22, 15, 0), // sub x26, x22, x15
    Encoding(0x0000_1033, Op::Sll, 0, 0, 0, 0), // sll x0, x0, x0
    Encoding(0x01ff_9fb3, Op::Sll, 31, 31, 31, 0), // sll x31, x31, x31
    Encoding(0x019c_9433, Op::Sll, 8, 25, 25, 0), // sll x8, x25, x25
    Encoding(0x00db_9bb3, Op::Sll, 23, 23, 13, 0), // sll x23, x23, x13
    Encoding(0x0000_2033, Op::Slt, 0, 0, 0, 0), // slt x0, x0, x0
    Encoding(0x01ff_afb3, Op::Slt, 31, 31, 31, 0), // slt x31, x31, x31
    Encoding(0x00f2_2fb3, Op::Slt, 31, 4, 15, 0), // slt x31, x4, x15
    Encoding(0x019b_2333, Op::Slt, 6, 22, 25, 0), // slt x6, x22, x25
    Encoding(0x0000_3033, Op::Sltu, 0, 0, 0, 0), // sltu x0, x0, x0
    Encoding(0x01ff_bfb3, Op::Sltu, 31, 31, 31, 0), // sltu x31, x31, x31
    Encoding(0x010b_b833, Op::Sltu, 16, 23, 16, 0), // sltu x16, x23, x16
    Encoding(0x012d_3133, Op::Sltu, 2, 26, 18, 0), // sltu x2, x26, x18
    Encoding(0x0000_4033, Op::Xor, 0, 0, 0, 0), // xor x0, x0, x0
    Encoding(0x01ff_cfb3, Op::Xor, 31, 31, 31, 0), // xor x31, x31, x31
    Encoding(0x01d5_c0b3, Op::Xor, 1, 11, 29, 0), // xor x1, x11, x29
    Encoding(0x0085_cab3, Op::Xor, 21, 11, 8, 0), // xor x21, x11, x8
    Encoding(0x0000_5033, Op::Srl, 0, 0, 0, 0), // srl x0, x0, x0
    Encoding(0x01ff_dfb3, Op::Srl, 31, 31, 31, 0), // srl x31, x31, x31
    Encoding(0x0156_d433, Op::Srl, 8, 13, 21, 0), // srl x8, x13, x21
    Encoding(0x019a_deb3, Op::Srl, 29, 21, 25, 0), // srl x29, x21, x25
    Encoding(0x4000_5033, Op::Sra, 0, 0, 0, 0), // sra x0, x0, x0
    Encoding(0x41ff_dfb3, Op::Sra, 31, 31, 31, 0), // sra x31, x31, x31
    Encoding(0x405d_de33, Op::Sra, 28, 27, 5, 0), // sra x28, x27, x5
    Encoding(0x41f0_5db3, Op::Sra, 27, 0, 31, 0), // sra x27, x0, x31
    Encoding(0x0000_6033, Op::Or, 0, 0, 0, 0), // or x0, x0, x0
    Encoding(0x01ff_efb3, Op::Or, 31, 31, 31, 0), // or x31, x31, x31
    Encoding(0x00c1_6433, Op::Or, 8, 2, 12, 0), // or x8, x2, x12
    Encoding(0x011d_62b3, Op::Or, 5, 26, 17, 0), // or x5, x26, x17
    Encoding(0x0000_7033, Op::And, 0, 0, 0, 0), // and x0, x0, x0
    Encoding(0x01ff_ffb3, Op::And, 31, 31, 31, 0), // and x31, x31, x31
    Encoding(0x01e3_ffb3, Op::And, 31, 7, 30, 0), // and x31, x7, x30
    Encoding(0x019a_7db3, Op::And, 27, 20, 25, 0), // and x27, x20, x25
    Encoding(0x0200_0033, Op::Mul, 0, 0, 0, 0), // mul x0, x0, x0
    Encoding(0x03ff_8fb3, Op::Mul, 31, 31, 31, 0), // mul x31, x31, x31
    Encoding(0x0328_8333, Op::Mul, 6, 17, 18, 0), // mul x6, x17, x18
    Encoding(0x0355_8833, Op::Mul, 16, 11, 21, 0), // mul x16, x11, x21
    Encoding(0x0200_1033, Op::Mulh, 0, 0, 0, 0), // mulh x0, x0, x0
    Encoding(0x03ff_9fb3, Op::Mulh, 31, 31, 31, 0), // mulh x31, x31, x31
    Encoding(0x02d5_1833, Op::Mulh, 16, 10, 13, 0), // mulh x16, x10, x13
    Encoding(0x02d6_9b33, Op::Mulh, 22, 13, 13, 0), // mulh x22, x13, x13
    Encoding(0x0200_2033, Op::Mulhsu, 0, 0, 0, 0), // mulhsu x0, x0, x0
    Encoding(0x03ff_afb3, Op::Mulhsu, 31, 31, 31, 0), // mulhsu x31, x31, x31
    Encoding(0x0219_2c33, Op::Mulhsu, 24, 18, 1, 0), // mulhsu x24, x18, x1
    Encoding(0x03c4_ae33, Op::Mulhsu, 28, 9, 28, 0), // mulhsu x28, x9, x28
    Encoding(0x0200_3033, Op::Mulhu, 0, 0, 0, 0), // mulhu x0, x0, x0
    Encoding(0x03ff_bfb3, Op::Mulhu, 31, 31, 31, 0), // mulhu x31, x31, x31
    Encoding(0x03bd_bb33, Op::Mulhu, 22, 27, 27, 0), // mulhu x22, x27, x27
    Encoding(0x0203_38b3, Op::Mulhu, 17, 6, 0, 0), // mulhu x17, x6, x0
    Encoding(0x0200_4033, Op::Div, 0, 0, 0, 0), // div x0, x0, x0
    Encoding(0x03ff_cfb3, Op::Div, 31, 31, 31, 0), // div x31, x31, x31
    Encoding(0x0341_4cb3, Op::Div, 25, 2, 20, 0), // div x25, x2, x20
    Encoding(0x029c_c433, Op::Div, 8, 25, 9, 0), // div x8, x25, x9
    Encoding(0x0200_5033, Op::Divu, 0, 0, 0, 0), // divu x0, x0, x0
    Encoding(0x03ff_dfb3, Op::Divu, 31, 31, 31, 0), // divu x31, x31, x31
    Encoding(0x0257_5e33, Op::Divu, 28, 14, 5, 0), // divu x28, x14, x5
    Encoding(0x0314_5333, Op::Divu, 6, 8, 17, 0), // divu x6, x8, x17
    Encoding(0x0200_6033, Op::Rem, 0, 0, 0, 0), // rem x0, x0, x0
    Encoding(0x03ff_efb3, Op::Rem, 31, 31, 31, 0), // rem x31, x31, x31
    Encoding(0x0221_e133, Op::Rem, 2, 3, 2, 0), // rem x2, x3, x2
    Encoding(0x0230_6eb3, Op::Rem, 29, 0, 3, 0), // rem x29, x0, x3
    Encoding(0x0200_7033, Op::Remu, 0, 0, 0, 0), // remu x0, x0, x0
    Encoding(0x03ff_ffb3, Op::Remu, 31, 31, 31, 0), // remu x31, x31, x31
    Encoding(0x02b8_7433, Op::Remu, 8, 16, 11, 0), // remu x8, x16, x11
    Encoding(0x0245_7633, Op::Remu, 12, 10, 4, 0), // remu x12, x10, x4
    Encoding(0x000e_0f93, Op::Addi, 31, 28, 0, 0), // addi x31, x28, 0
    Encoding(0xfffa_0813, Op::Addi, 16, 20, 0, -1), // addi x16, x20, -1
    Encoding(0x7ff1_8893, Op::Addi, 17, 3, 0, 2_047), // addi x17, x3, 2047
    Encoding(0x800b_0093, Op::Addi, 1, 22, 0, -2_048), // addi x1, x22, -2048
    Encoding(0x0000_a993, Op::Slti, 19, 1, 0, 0), // slti x19, x1, 0
    Encoding(0xfffb_2e13, Op::Slti, 28, 22, 0, -1), // slti x28, x22, -1
    Encoding(0x7ff2_2913, Op::Slti, 18, 4, 0, 2_047), // slti x18, x4, 2047
    Encoding(0x8003_2813, Op::Slti, 16, 6, 0, -2_048), // slti x16, x6, -2048
    Encoding(0x000c_bb13, Op::Sltiu, 22, 25, 0, 0), // sltiu x22, x25, 0
    Encoding(0xfff5_3f13, Op::Sltiu, 30, 10, 0, -1), // sltiu x30, x10, -1
    Encoding(0x7ffa_3313, Op::Sltiu, 6, 20, 0, 2_047), // sltiu x6, x20, 2047
    Encoding(0x800f_3293, Op::Sltiu, 5, 30, 0, -2_048), // sltiu x5, x30, -2048
    Encoding(0x0000_4613, Op::Xori, 12, 0, 0, 0), // xori x12, x0, 0
    Encoding(0xfff9_c013, Op::Xori, 0, 19, 0, -1), // xori x0, x19, -1
    Encoding(0x7ffe_c093, Op::Xori, 1, 29, 0, 2_047), // xori x1, x29, 2047
    Encoding(0x800d_4513, Op::Xori, 10, 26, 0, -2_048), // xori x10, x26, -2048
    Encoding(0x0007_e213, Op::Ori, 4, 15, 0, 0), // ori x4, x15, 0
    Encoding(0xfff5_ef13, Op::Ori, 30, 11, 0, -1), // ori x30, x11, -1
    Encoding(0x7ff9_ee93, Op::Ori, 29, 19, 0, 2_047), // ori x29, x19, 2047
    Encoding(0x8004_6793, Op::Ori, 15, 8, 0, -2_048), // ori x15, x8, -2048
    Encoding(0x000c_7993, Op::Andi, 19, 24, 0, 0), // andi x19, x24, 0
    Encoding(0xfff8_fe93, Op::Andi, 29, 17, 0, -1), // andi x29, x17, -1
    Encoding(0x7ffb_7613, Op::Andi, 12, 22, 0, 2_047), // andi x12, x22, 2047
    Encoding(0x8007_f513, Op::Andi, 10, 15, 0, -2_048), // andi x10, x15, -2048
    Encoding(0x0009_1993, Op::Slli, 19, 18, 0, 0), // slli x19, x18, 0
    Encoding(0x0016_9513, Op::Slli, 10, 13, 0, 1), // slli x10, x13, 1
    Encoding(0x01fe_1913, Op::Slli, 18, 28, 0, 31), // slli x18, x28, 31
    Encoding(0x0004_dd93, Op::Srli, 27, 9, 0, 0), // srli x27, x9, 0
    Encoding(0x0017_da13, Op::Srli, 20, 15, 0, 1), // srli x20, x15, 1
    Encoding(0x01f7_dd13, Op::Srli, 26, 15, 0, 31), // srli x26, x15, 31
    Encoding(0x4001_5713, Op::Srai, 14, 2, 0, 0), // srai x14, x2, 0
    Encoding(0x401a_da93, Op::Srai, 21, 21, 0, 1), // srai x21, x21, 1
    Encoding(0x41fa_de93, Op::Srai, 29, 21, 0, 31), // srai x29, x21, 31
    Encoding(0x000c_8503, Op::Lb, 10, 25, 0, 0), // lb x10, 0(x25)
    Encoding(0xfff1_8503, Op::Lb, 10, 3, 0, -1), // lb x10, -1(x3)
    Encoding(0x7ffd_8283, Op::Lb, 5, 27, 0, 2_047), // lb x5, 2047(x27)
    Encoding(0x8000_0103, Op::Lb, 2, 0, 0, -2_048), // lb x2, -2048(x0)
    Encoding(0x0005_1f03, Op::Lh, 30, 10, 0, 0), // lh x30, 0(x10)
    Encoding(0xfffe_9383, Op::Lh, 7, 29, 0, -1), // lh x7, -1(x29)
    Encoding(0x7ff9_9203, Op::Lh, 4, 19, 0, 2_047), // lh x4, 2047(x19)
    Encoding(0x800d_1e83, Op::Lh, 29, 26, 0, -2_048), // lh x29, -2048(x26)
    Encoding(0x0005_2d83, Op::Lw, 27, 10, 0, 0), // lw x27, 0(x10)
    Encoding(0xfff3_a583, Op::Lw, 11, 7, 0, -1), // lw x11, -1(x7)
    Encoding(0x7ff4_a283, Op::Lw, 5, 9, 0, 2_047), // lw x5, 2047(x9)
    Encoding(0x8006_2e83, Op::Lw, 29, 12, 0, -2_048), // lw x29, -2048(x12)
    Encoding(0x000f_c003, Op::Lbu, 0, 31, 0, 0), // lbu x0, 0(x31)
    Encoding(0xfffb_4203, Op::Lbu, 4, 22, 0, -1), // lbu x4, -1(x22)
    Encoding(0x7ff5_4f83, Op::Lbu, 31, 10, 0, 2_047), // lbu x31, 2047(x10)
    Encoding(0x800e_cc83, Op::Lbu, 25, 29, 0, -2_048), // lbu x25, -2048(x29)
    Encoding(0x000e_5d03, Op::Lhu, 26, 28, 0, 0), // lhu x26, 0(x28)
    Encoding(0xffff_5b03, Op::Lhu, 22, 30, 0, -1), // lhu x22, -1(x30)
    Encoding(0x7ff3_d103, Op::Lhu, 2, 7, 0, 2_047), // lhu x2, 2047(x7)
    Encoding(0x8006_5603, Op::Lhu, 12, 12, 0, -2_048), // lhu x12, -2048(x12)
    Encoding(0x000e_09e7, Op::Jalr, 19, 28, 0, 0), // jalr x19, 0(x28)
    Encoding(0xfff3_0267, Op::Jalr, 4, 6, 0, -1), // jalr x4, -1(x6)
    Encoding(0x7ff1_0467, Op::Jalr, 8, 2, 0, 2_047), // jalr x8, 2047(x2)
    Encoding(0x8000_0967, Op::Jalr, 18, 0, 0, -2_048), // jalr x18, -2048(x0)
    Encoding(0x01da_0023, Op::Sb, 0, 20, 29, 0), // sb x29, 0(x20)
    Encoding(0xfeb6_8fa3, Op::Sb, 0, 13, 11, -1), // sb x11, -1(x13)
    Encoding(0x7f0d_8fa3, Op::Sb, 0, 27, 16, 2_047), // sb x16, 2047(x27)
    Encoding(0x813d_0023, Op::Sb, 0, 26, 19, -2_048), // sb x19, -2048(x26)
    Encoding(0x00c9_0fa3, Op::Sb, 0, 18, 12, 31), // sb x12, 31(x18)
    Encoding(0x022a_0023, Op::Sb, 0, 20, 2, 32), // sb x2, 32(x20)
    Encoding(0x0192_9023, Op::Sh, 0, 5, 25, 0), // sh x25, 0(x5)
    Encoding(0xff61_1fa3, Op::Sh, 0, 2, 22, -1), // sh x22, -1(x2)
    Encoding(0x7e69_1fa3, Op::Sh, 0, 18, 6, 2_047), // sh x6, 2047(x18)
    Encoding(0x81ff_1023, Op::Sh, 0, 30, 31, -2_048), // sh x31, -2048(x30)
    Encoding(0x0173_9fa3, Op::Sh, 0, 7, 23, 31), // sh x23, 31(x7)
    Encoding(0x0380_9023, Op::Sh, 0, 1, 24, 32), // sh x24, 32(x1)
    Encoding(0x00b1_a023, Op::Sw, 0, 3, 11, 0), // sw x11, 0(x3)
    Encoding(0xfed6_2fa3, Op::Sw, 0, 12, 13, -1), // sw x13, -1(x12)
    Encoding(0x7f1f_2fa3, Op::Sw, 0, 30, 17, 2_047), // sw x17, 2047(x30)
    Encoding(0x80a2_2023, Op::Sw, 0, 4, 10, -2_048), // sw x10, -2048(x4)
    Encoding(0x0043_2fa3, Op::Sw, 0, 6, 4, 31), // sw x4, 31(x6)
    Encoding(0x025f_2023, Op::Sw, 0, 30, 5, 32), // sw x5, 32(x30)
    Encoding(0x0000_01b7, Op::Lui, 3, 0, 0, 0), // lui x3, 0
    Encoding(0x0000_1bb7, Op::Lui, 23, 0, 0, 4_096), // lui x23, 1
    Encoding(0x8000_08b7, Op::Lui, 17, 0, 0, -2_147_483_648), // lui x17, 524288
    Encoding(0xffff_fab7, Op::Lui, 21, 0, 0, -4_096), // lui x21, 1048575
    Encoding(0x0000_0a97, Op::Auipc, 21, 0, 0, 0), // auipc x21, 0
    Encoding(0x0000_1f97, Op::Auipc, 31, 0, 0, 4_096), // auipc x31, 1
    Encoding(0x8000_0517, Op::Auipc, 10, 0, 0, -2_147_483_648), // auipc x10, 524288
    Encoding(0xffff_ff97, Op::Auipc, 31, 0, 0, -4_096), // auipc x31, 1048575
    Encoding(0x0000_0073, Op::Ecall, 0, 0, 0, 0), // ecall
    Encoding(0x0010_0073, Op::Ebreak, 0, 0, 0, 0), // ebreak
    Encoding(0x0ff0_000f, Op::Fence, 0, 0, 0, 0), // fence
    Encoding(0xc020_20f3, Op::Rdinstret, 1, 0, 0, 0), // rdinstret x1
    Encoding(0xc020_2073, Op::Rdinstret, 0, 0, 0, 0), // rdinstret x0
    Encoding(0xc020_2ff3, Op::Rdinstret, 31, 0, 0, 0), // rdinstret x31
    Encoding(0xc020_2573, Op::Rdinstret, 10, 0, 0, 0), // rdinstret x10
    Encoding(0xc820_20f3, Op::Rdinstreth, 1, 0, 0, 0), // rdinstreth x1
    Encoding(0xc820_2173, Op::Rdinstreth, 2, 0, 0, 0), // rdinstreth x2
    Encoding(0xc820_2073, Op::Rdinstreth, 0, 0, 0, 0), // rdinstreth x0
    Encoding(0xc820_2ff3, Op::Rdinstreth, 31, 0, 0, 0), // rdinstreth x31
    Encoding(0x01ba_8063, Op::Beq, 0, 21, 27, 0), // beq x21, x27, pc+0
    Encoding(0xffc4_0ee3, Op::Beq, 0, 8, 28, -4), // beq x8, x28, pc-4
    Encoding(0x7ea0_8fe3, Op::Beq, 0, 1, 10, 4_094), // beq x1, x10, pc+4094
    Encoding(0x807d_0063, Op::Beq, 0, 26, 7, -4_096), // beq x26, x7, pc-4096
    Encoding(0x0021_80e3, Op::Beq, 0, 3, 2, 2_048), // beq x3, x2, pc+2048
    Encoding(0x7e1f_8f63, Op::Beq, 0, 31, 1, 2_046), // beq x31, x1, pc+2046
    Encoding(0x0174_1063, Op::Bne, 0, 8, 23, 0), // bne x8, x23, pc+0
    Encoding(0xffba_9ee3, Op::Bne, 0, 21, 27, -4), // bne x21, x27, pc-4
    Encoding(0x7feb_1fe3, Op::Bne, 0, 22, 30, 4_094), // bne x22, x30, pc+4094
    Encoding(0x810b_9063, Op::Bne, 0, 23, 16, -4_096), // bne x23, x16, pc-4096
    Encoding(0x013e_10e3, Op::Bne, 0, 28, 19, 2_048), // bne x28, x19, pc+2048
    Encoding(0x7e53_1f63, Op::Bne, 0, 6, 5, 2_046), // bne x6, x5, pc+2046
    Encoding(0x01f3_4063, Op::Blt, 0, 6, 31, 0), // blt x6, x31, pc+0
    Encoding(0xff4b_4ee3, Op::Blt, 0, 22, 20, -4), // blt x22, x20, pc-4
    Encoding(0x7ef7_cfe3, Op::Blt, 0, 15, 15, 4_094), // blt x15, x15, pc+4094
    Encoding(0x8111_4063, Op::Blt, 0, 2, 17, -4_096), // blt x2, x17, pc-4096
    Encoding(0x00ef_c0e3, Op::Blt, 0, 31, 14, 2_048), // blt x31, x14, pc+2048
    Encoding(0x7fff_cf63, Op::Blt, 0, 31, 31, 2_046), // blt x31, x31, pc+2046
    Encoding(0x005d_d063, Op::Bge, 0, 27, 5, 0), // bge x27, x5, pc+0
    Encoding(0xfede_dee3, Op::Bge, 0, 29, 13, -4), // bge x29, x13, pc-4
    Encoding(0x7e10_5fe3, Op::Bge, 0, 0, 1, 4_094), // bge x0, x1, pc+4094
    Encoding(0x81d8_d063, Op::Bge, 0, 17, 29, -4_096), // bge x17, x29, pc-4096
    Encoding(0x0132_d0e3, Op::Bge, 0, 5, 19, 2_048), // bge x5, x19, pc+2048
    Encoding(0x7e4b_5f63, Op::Bge, 0, 22, 4, 2_046), // bge x22, x4, pc+2046
    Encoding(0x00ce_e063, Op::Bltu, 0, 29, 12, 0), // bltu x29, x12, pc+0
    Encoding(0xff34_6ee3, Op::Bltu, 0, 8, 19, -4), // bltu x8, x19, pc-4
    Encoding(0x7fd6_6fe3, Op::Bltu, 0, 12, 29, 4_094), // bltu x12, x29, pc+4094
    Encoding(0x815d_e063, Op::Bltu, 0, 27, 21, -4_096), // bltu x27, x21, pc-4096
    Encoding(0x01f0_60e3, Op::Bltu, 0, 0, 31, 2_048), // bltu x0, x31, pc+2048
    Encoding(0x7f1a_ef63, Op::Bltu, 0, 21, 17, 2_046), // bltu x21, x17, pc+2046
    Encoding(0x006e_7063, Op::Bgeu, 0, 28, 6, 0), // bgeu x28, x6, pc+0
    Encoding(0xff94_fee3, Op::Bgeu, 0, 9, 25, -4), // bgeu x9, x25, pc-4
    Encoding(0x7e99_7fe3, Op::Bgeu, 0, 18, 9, 4_094), // bgeu x18, x9, pc+4094
    Encoding(0x81d0_7063, Op::Bgeu, 0, 0, 29, -4_096), // bgeu x0, x29, pc-4096
    Encoding(0x0095_70e3, Op::Bgeu, 0, 10, 9, 2_048), // bgeu x10, x9, pc+2048
    Encoding(0x7e2f_7f63, Op::Bgeu, 0, 30, 2, 2_046), // bgeu x30, x2, pc+2046
    Encoding(0x0000_096f, Op::Jal, 18, 0, 0, 0), // jal x18, pc+0
    Encoding(0xffdf_f6ef, Op::Jal, 13, 0, 0, -4), // jal x13, pc-4
    Encoding(0x7fff_f46f, Op::Jal, 8, 0, 0, 1_048_574), // jal x8, pc+1048574
    Encoding(0x8000_0def, Op::Jal, 27, 0, 0, -1_048_576), // jal x27, pc-1048576
    Encoding(0x0010_0bef, Op::Jal, 23, 0, 0, 2_048), // jal x23, pc+2048
    Encoding(0x7fe0_02ef, Op::Jal, 5, 0, 0, 2_046), // jal x5, pc+2046
    Encoding(0x0000_1cef, Op::Jal, 25, 0, 0, 4_096), // jal x25, pc+4096
];

/// Words that are none of the table: of no instruction, and of instructions that the table lacks.
pub(super) static OUTSIDE: [u32; 10] = [
    0x0000_0000,
    0x0000_100f, // fence.i
    0xc000_20f3, // rdcycle x1
    0xc010_20f3, // rdtime x1
    0xc800_20f3, // rdcycleh x1
    0xc020_a0f3, // csrrs x1, instret, x1
    0xc020_10f3, // csrrw x1, instret, x0
    0xc020_60f3, // csrrsi x1, instret, 0
    0xc020_30f3, // csrrc x1, instret, x0
    0xb020_20f3, // csrr x1, minstret
];
