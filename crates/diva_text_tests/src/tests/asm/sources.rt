// Sources that were worked out by hand from the manual's formats, with what they become.
use diva_test_programs::laid;

/// Each form of operands at its bounds, statements that stand for others, and labels, with the words that they lay from base on.
pub(super) static WORDS: [(&str, &[u32]); 70] = laid! {
    ("", &[]),
    // three registers, by both names
    ("add x1, x2, x3", &[0x003100b3]), ("sub a0, a1, a2", &[0x40c58533]), ("mul t0, t1, t2", &[0x027302b3]),
    ("remu t6, x31, t6", &[0x03ffffb3]), ("and zero, s11, fp", &[0x008df033]),
    // a register and a number of 12 bits
    ("addi x1, x0, 2047", &[0x7ff00093]), ("addi x1, x0, -2048", &[0x80000093]), ("andi x5, x6, 0xFf", &[0x0ff37293]),
    ("sltiu x1, x2, -0x1", &[0xfff13093]), ("xori x1, x2, 0000000009", &[0x00914093]), ("ori x1, x2, -0", &[0x00016093]),
    // a number of 5 bits
    ("slli x1, x2, 31", &[0x01f11093]), ("srai x1, x2, 0", &[0x40015093]), ("srli x3, x4, 0x1f", &[0x01f25193]),
    // a number and a register in parentheses
    ("lw x2, -2048(x3)", &[0x8001a103]), ("lb x1, 2047(x2)", &[0x7ff10083]), ("lhu x1, 0( x2 )", &[0x00015083]),
    ("lbu x1 , 4\t(x2)", &[0x00414083]), ("jalr x1, 0(x5)", &[0x000280e7]), ("sw x5, 2047(x6)", &[0x7e532fa3]),
    ("sb x5, -2048(x6)", &[0x80530023]), ("sh x0, 2(ra)", &[0x00009123]),
    // a place that a branch reaches, from pc 0
    ("beq x1, x2, 4094", &[0x7e208fe3]), ("bgeu x1, x2, -4096", &[0x8020f063]), ("bltu x1, x2, 4294963200", &[0x8020e063]),
    // a place that a jump reaches
    ("jal x1, 1048574", &[0x7ffff0ef]), ("jal x0, -1048576", &[0x8000006f]),
    // 20 bits
    ("lui x1, 1048575", &[0xfffff0b7]), ("lui x0, 0x80000", &[0x80000037]), ("auipc x2, 0", &[0x00000117]),
    // one register
    ("rdinstret a0", &[0xc0202573]), ("rdinstreth zero", &[0xc8202073]),
    // none
    ("fence", &[0x0ff0000f]), ("ecall", &[0x00000073]), ("ebreak", &[0x00100073]),
    // statements that stand for others: addi x0, x0, 0; jalr x0, 0(x1); addi x1, x2, 0; jalr x0, 0(x5); jal x0, 8
    ("nop", &[0x00000013]), ("ret", &[0x00008067]), ("mv x1, x2", &[0x00010093]), ("jr t0", &[0x00028067]), ("j 8", &[0x0080006f]),
    // 12 bits hold the number, from 0xfffff800 on again
    ("li x1, 0", &[0x00000093]), ("li x1, 2047", &[0x7ff00093]), ("li x1, -2048", &[0x80000093]), ("li x1, 0xfffff800", &[0x80000093]),
    ("li x1, 4294967295", &[0xfff00093]),
    // and these they do not hold: lui x1, (n + 2048) / 4096; addi x1, x1, the low 12 bits read signed
    ("li x1, 2048", &[0x000010b7, 0x80008093]), ("li x1, -2049", &[0xfffff0b7, 0x7ff08093]),
    ("li x1, 0x7fffffff", &[0x800000b7, 0xfff08093]), ("li x1, -2147483648", &[0x800000b7, 0x00008093]),
    // two words, whatever the place: 0xffffffff + 2048 is past 2^32, so lui loads 0
    ("la x1, 5", &[0x000000b7, 0x00508093]), ("la x1, 2047", &[0x000000b7, 0x7ff08093]), ("la x1, 2048", &[0x000010b7, 0x80008093]),
    ("la x1, 0xffffffff", &[0x000000b7, 0xfff08093]), (".base 0x10000\nnop\na: la a0, a", &[0x00000013, 0x00010537, 0x00450513]),
    // words
    (".word 1\n.word -1", &[1, 0xffffffff]), (".word b\nb: .word b- 4", &[4, 0]), (".word a\na:.word a+4 \nb :", &[4, 8]),
    // labels before and after, several in a line, alone in one, named as registers and mnemonics are
    ("a: j b\nb: bne x1, x0, a", &[0x0040006f, 0xfe009ee3]), ("a:b: _c9 :j a\nj b\nj _c9", &[0x0000006f, 0xffdff06f, 0xff9ff06f]),
    ("a:\n\n  b:\nj b", &[0x0000006f]), ("x1: j x1\nnop: j nop", &[0x0000006f, 0x0000006f]), ("j end+4\nend:", &[0x0080006f]),
    ("end: j end+0x8", &[0x0080006f]), ("nop\na: j a- 4", &[0x00000013, 0xffdff06f]),
    // the place of a jump is modulo 2^32
    (".base 0xfffffffc\nj 0", &[0x0040006f]), (".base 4\nj 4", &[0x0000006f]),
    // blanks and comments
    ("\t addi\tx1 ,x0,5 # five: ü\r", &[0x00500093]), ("nop\r\n\r\n# a: j\nnop", &[0x00000013, 0x00000013]), ("nop#", &[0x00000013]),
};

/// Directives, with base, size, entry and the bytes that are laid.
pub(super) static IMAGES: [(&str, u32, u32, u32, &[u8]); 12] = laid! {
    // the least size is 4
    ("", 0, 4, 0, &[]),
    (".byte 1", 0, 4, 0, &[1]),
    ("nop\n.byte 1", 0, 8, 0, &[0x13, 0, 0, 0, 1]),
    // a number's low byte
    (".byte -128\n.byte 255\n.byte -1", 0, 4, 0, &[0x80, 0xff, 0xff]),
    // zeros
    (".space 0\n.byte 7\n.space 3\n.byte 0x7", 0, 8, 0, &[7, 0, 0, 0, 7]),
    // the lowest byte first, behind what fills a word
    (".byte 1\n.space 3\n.word 0x12345678", 0, 8, 0, &[1, 0, 0, 0, 0x78, 0x56, 0x34, 0x12]),
    // base is entered where no place is said
    (".base 256", 256, 4, 256, &[]),
    (".space 0\n.base 256\n.size 0x10", 256, 16, 256, &[]),
    (".size 16777216\n.base 0xff000000", 0xff000000, 1 << 24, 0xff000000, &[]),
    // an entry before and behind its label, and one by number
    (".entry b\n.byte 1\n.space 3\nb: .byte 2", 0, 8, 4, &[1, 0, 0, 0, 2]),
    ("a: .byte 1\n.entry a+4\n.size 8", 0, 8, 4, &[1]),
    (".base 4096\n.entry 4100\n.size 8", 4096, 8, 4100, &[]),
};

/// Sources with their first fault: line and kind. Those with two show which comes first.
pub(super) static FAULTS: [(&str, u64, u8); 103] = laid! {
    // 1: no mnemonic or directive; it ends before a blank or a comma
    ("foo", 1, 1), ("\nADDI x1, x0, 1", 2, 1), (".words 1", 1, 1), ("1a: nop", 1, 1), ("a:a", 1, 1), (", nop", 1, 1),
    // 2: a colon without a label, and operands of another number or shape
    (": nop", 1, 2), ("a: : nop", 1, 2), ("nop x1", 1, 2), ("nop,", 1, 2), ("addi x1, x0", 1, 2), ("addi x1, x0, 5,", 1, 2),
    ("addi x1,, 5", 1, 2), ("addi, x1, x0, 5", 1, 2), ("lw x1, 4", 1, 2), ("lw x1, 4(x2", 1, 2), ("lw x1, 4((x2))", 1, 2),
    ("lw x1, 4(x2) 5", 1, 2), (".word", 1, 2), ("rdinstret", 1, 2), ("rdinstreth x1, x0", 1, 2),
    // 3: no register
    ("mv x32, x0", 1, 3), ("mv x01, x0", 1, 3), ("mv X1, x0", 1, 3), ("mv x1, 5", 1, 3), ("rdinstret x32", 1, 3), ("lw x1, 4()", 1, 3),
    // 4: a number out of range
    ("addi x1, x0, 2048", 1, 4), ("addi x1, x0, -2049", 1, 4), ("slli x1, x0, 32", 1, 4), ("srai x1, x0, -1", 1, 4),
    ("lw x1, 2048(x0)", 1, 4), ("sb x1, -2049(x0)", 1, 4), ("lui x1, 1048576", 1, 4), ("auipc x1, -1", 1, 4), ("li x1, 4294967296", 1, 4),
    ("li x1, -2147483649", 1, 4), ("j 4294967296", 1, 4), ("j a+4294967296", 1, 4), (".byte 256", 1, 4), (".byte -129", 1, 4),
    (".space 16777217", 1, 4), (".space -1", 1, 4), (".base -1", 1, 4), (".size 4294967296", 1, 4),
    // 4: or unreadable
    ("addi x1, x0, 0x", 1, 4), ("addi x1, x0, 0x000000001", 1, 4), ("addi x1, x0, 00000000001", 1, 4), ("addi x1, x0, 5 6", 1, 4),
    ("addi x1, x0, - 5", 1, 4), ("addi x1, x0, +5", 1, 4), ("addi x1, x0, a", 1, 4), ("lw x1, (x2)", 1, 4), ("j 4x", 1, 4), ("j zz+", 1, 4),
    ("j zz+-4", 1, 4), ("j zz +4", 1, 4),
    // 5: a name that no label defines
    ("j c", 1, 5), ("c: j C", 1, 5), (".word c", 1, 5), ("nop\n.entry c+4", 2, 5),
    // 6: a label that an earlier place defines
    ("a: a:", 1, 6), ("a: nop\nb:\na: nop", 3, 6),
    // 7: an offset that is odd or out of range
    ("j 3", 1, 7), ("beq x1, x2, 4096", 1, 7), ("beq x1, x2, -4098", 1, 7), ("nop\nblt x1, x2, 7", 2, 7), ("jal x1, 1048576", 1, 7),
    ("jal x1, -1048578", 1, 7),
    // 8: an address that is no multiple of 4
    (".byte 1\nnop", 2, 8), (".space 2\n.word 1", 2, 8), (".base 2\nla x1, 0", 2, 8),
    // 9: a directive repeated, or .base behind a label or a byte
    (".size 4\n.size 4", 2, 9), (".base 0\n.base 0", 2, 9), (".entry 0\n.entry 0", 2, 9), ("a: .base 4", 1, 9), (".byte 1\n.base 4", 2, 9),
    // 10: more than 16,777,216 bytes
    (".space 16777216\n.byte 1", 2, 10), (".space 16777212\nli x1, 2048", 2, 10),
    // 11: the rules of an image
    (".size 0", 0, 11), (".size 6", 0, 11), (".size 16777220", 0, 11), (".base 2", 0, 11), (".base 0xfffffffc\nnop\nnop", 0, 11),
    (".entry 2\nnop", 0, 11), (".entry 4\nnop", 0, 11), (".base 8\n.entry 4", 0, 11), (".size 4\nnop\nnop", 0, 11),
    // labels, mnemonic, shape, operands from the left, directive, address, total
    ("a: a: foo", 1, 6), ("foo x99,,", 1, 1), ("addi x99,, 5", 1, 2), ("lw x99, 4", 1, 2), ("addi x1, x99, 2048", 1, 3),
    ("sw x99, 2048(x0)", 1, 3), ("lw x1, 2048(x99)", 1, 4), ("nop\n.base 4294967296", 2, 4), (".byte 1\naddi x1, x0, 2048", 2, 4),
    (".space 16777214\nnop", 2, 8),
    // the first pass before the second, and the lines in their order
    ("j c\nfoo", 2, 1), ("j c\nj 3", 1, 5), ("j 3\nj c", 1, 7), ("j c\n.size 0", 1, 5), ("foo\nnop x1", 1, 1),
};

/// Words at addresses, with the line that lists them.
pub(super) static LISTED: [(u32, u32, &str); 26] = laid! {
    (0, 0x00500093, "00000000 00500093 addi x1, x0, 5\n"),
    (4, 0xfe009ee3, "00000004 fe009ee3 bne x1, x0, 0x00000000\n"),
    (0xfffffffc, 0x0080006f, "fffffffc 0080006f jal x0, 0x00000004\n"),
    (8, 0x00000073, "00000008 00000073 ecall\n"),
    (8, 0x00100073, "00000008 00100073 ebreak\n"),
    (8, 0x0000000f, "00000008 0000000f fence\n"),
    (8, 0xc02020f3, "00000008 c02020f3 rdinstret x1\n"),
    (8, 0xc8202173, "00000008 c8202173 rdinstreth x2\n"),
    (0x1_0000, 0, "00010000 00000000 .word 0x00000000\n"),
    (0, 0xabcdef00, "00000000 abcdef00 .word 0xabcdef00\n"),
    (0, 0xc00020f3, "00000000 c00020f3 .word 0xc00020f3\n"),
    // rdcycle x1
    (0, 0xc01020f3, "00000000 c01020f3 .word 0xc01020f3\n"),
    // rdtime x1
    (0, 0xc80020f3, "00000000 c80020f3 .word 0xc80020f3\n"),
    // rdcycleh x1
    (0, 0xc020a0f3, "00000000 c020a0f3 .word 0xc020a0f3\n"),
    // csrrs x1, instret, x1
    (0, 0xc02010f3, "00000000 c02010f3 .word 0xc02010f3\n"),
    // csrrw x1, instret, x0
    (0, 0xc02060f3, "00000000 c02060f3 .word 0xc02060f3\n"),
    // csrrsi x1, instret, 0
    (0, 0xc02030f3, "00000000 c02030f3 .word 0xc02030f3\n"),
    // csrrc x1, instret, x0
    (0, 0xb02020f3, "00000000 b02020f3 .word 0xb02020f3\n"),
    // csrr x1, minstret
    (0, 0xfffff0b7, "00000000 fffff0b7 lui x1, 0xfffff\n"),
    (0, 0x00000097, "00000000 00000097 auipc x1, 0x0\n"),
    (0, 0x0001f0b7, "00000000 0001f0b7 lui x1, 0x1f\n"),
    (0, 0xff012503, "00000000 ff012503 lw x10, -16(x2)\n"),
    (0, 0x7e532fa3, "00000000 7e532fa3 sw x5, 2047(x6)\n"),
    (0, 0x800000e7, "00000000 800000e7 jalr x1, -2048(x0)\n"),
    (0, 0x40515093, "00000000 40515093 srai x1, x2, 5\n"),
    (0, 0x03ffffb3, "00000000 03ffffb3 remu x31, x31, x31\n"),
};
