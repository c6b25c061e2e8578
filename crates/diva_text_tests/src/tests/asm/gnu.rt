// Statements with their words, and programs with the bytes that they lay, as the GNU assembler (binutils, for RISC-V of 32
use diva_test_programs::laid;
// bits) made them.

/// A statement of each instruction, one that goes to an offset behind the label `pc`.
pub(super) static STATEMENTS: [(&str, u32); 50] = laid! {
    ("add x31, x31, x31", 0x01ff8fb3), ("sub x31, x31, x31", 0x41ff8fb3), ("sll x31, x31, x31", 0x01ff9fb3),
    ("slt x31, x31, x31", 0x01ffafb3), ("sltu x31, x31, x31", 0x01ffbfb3), ("xor x31, x31, x31", 0x01ffcfb3),
    ("srl x31, x31, x31", 0x01ffdfb3), ("sra x31, x31, x31", 0x41ffdfb3), ("or x31, x31, x31", 0x01ffefb3),
    ("and x31, x31, x31", 0x01ffffb3), ("mul x31, x31, x31", 0x03ff8fb3), ("mulh x31, x31, x31", 0x03ff9fb3),
    ("mulhsu x31, x31, x31", 0x03ffafb3), ("mulhu x31, x31, x31", 0x03ffbfb3), ("div x31, x31, x31", 0x03ffcfb3),
    ("divu x31, x31, x31", 0x03ffdfb3), ("rem x31, x31, x31", 0x03ffefb3), ("remu x31, x31, x31", 0x03ffffb3),
    ("addi x16, x20, -1", 0xfffa0813), ("slti x28, x22, -1", 0xfffb2e13), ("sltiu x30, x10, -1", 0xfff53f13),
    ("xori x0, x19, -1", 0xfff9c013), ("ori x30, x11, -1", 0xfff5ef13), ("andi x29, x17, -1", 0xfff8fe93), ("slli x10, x13, 1", 0x00169513),
    ("srli x20, x15, 1", 0x0017da13), ("srai x21, x21, 1", 0x401ada93), ("lb x10, -1(x3)", 0xfff18503), ("lh x7, -1(x29)", 0xfffe9383),
    ("lw x11, -1(x7)", 0xfff3a583), ("lbu x4, -1(x22)", 0xfffb4203), ("lhu x22, -1(x30)", 0xffff5b03), ("jalr x4, -1(x6)", 0xfff30267),
    ("sb x11, -1(x13)", 0xfeb68fa3), ("sh x22, -1(x2)", 0xff611fa3), ("sw x13, -1(x12)", 0xfed62fa3), ("lui x23, 1", 0x00001bb7),
    ("auipc x31, 1", 0x00001f97), ("ecall", 0x00000073), ("ebreak", 0x00100073), ("fence", 0x0ff0000f), ("rdinstret x31", 0xc0202ff3),
    ("rdinstreth x31", 0xc8202ff3), ("pc: beq x8, x28, pc-4", 0xffc40ee3), ("pc: bne x21, x27, pc-4", 0xffba9ee3),
    ("pc: blt x22, x20, pc-4", 0xff4b4ee3), ("pc: bge x29, x13, pc-4", 0xfededee3), ("pc: bltu x8, x19, pc-4", 0xff346ee3),
    ("pc: bgeu x9, x25, pc-4", 0xff94fee3), ("pc: jal x13, pc-4", 0xffdff6ef),
};

/// Programs, with the words that are laid from 65536 on.
pub(super) static PROGRAMS: [(&str, &[u32]); 2] = [
    (
        "# Euclid with rem\n\
        .base 65536\n\
        .size 4096\n\
        li a0, 123456\n\
        li a1, 7854\n\
        next: beq a1, zero, done\n\
        rem t0, a0, a1\n\
        mv a0, a1\n\
        mv a1, t0\n\
        j next\n\
        done:\n\
        li a7, 93\n\
        ecall",
        &[
            0x0001e537, 0x24050513, 0x000025b7, 0xeae58593, 0x00058a63, 0x02b562b3, 0x00058513,
            0x00028593, 0xff1ff06f, 0x05d00893, 0x00000073,
        ],
    ),
    (
        "# the factorial of 5 by calls, with a stack\n\
        .base 65536\n\
        .size 8192\n\
        li sp, 69633\n\
        addi sp, sp, -1\n\
        li a0, 5\n\
        jal ra, factorial\n\
        li a7, 93\n\
        ecall\n\
        factorial:\n\
        addi sp, sp, -8\n\
        sw ra, 4(sp)\n\
        sw s0, 0(sp)\n\
        mv s0, a0\n\
        li t0, 1\n\
        bge t0, a0, base_case\n\
        addi a0, a0, -1\n\
        jal ra, factorial\n\
        mul a0, a0, s0\n\
        j back\n\
        base_case:\n\
        li a0, 1\n\
        back:\n\
        lw s0, 0(sp)\n\
        lw ra, 4(sp)\n\
        addi sp, sp, 8\n\
        ret",
        &[
            0x00011137, 0x00110113, 0xfff10113, 0x00500513, 0x00c000ef, 0x05d00893, 0x00000073,
            0xff810113, 0x00112223, 0x00812023, 0x00050413, 0x00100293, 0x00a2da63, 0xfff50513,
            0xfe5ff0ef, 0x02850533, 0x0080006f, 0x00100513, 0x00012403, 0x00412083, 0x00810113,
            0x00008067,
        ],
    ),
];
