// Branches, as qemu-riscv32 took them.
use diva_decode::Op;
use diva_test_programs::laid;

/// A branch, and whether it is taken.
pub(super) struct Branch {
    pub op: Op,
    /// For each first operand, with each of the second ones.
    pub grid: &'static [[bool; 5]],
    /// With both operands the same; the emulator said so of each first operand.
    pub equal: bool,
}

pub(super) static BRANCHES: [Branch; 6] = laid! {
    Branch { op: Op::Beq, equal: true, grid: &[
        [true, false, false, false, false], [false, true, false, false, false], [false, false, false, false, false],
        [false, false, false, false, false], [false, false, false, false, false], [false, false, false, false, false],
        [false, false, false, false, false], [false, false, false, false, false], [false, false, true, false, false],
        [false, false, false, true, false], [false, false, false, false, false], [false, false, false, false, false],
        [false, false, false, false, true],
    ] },
    Branch { op: Op::Bne, equal: false, grid: &[
        [false, true, true, true, true], [true, false, true, true, true], [true, true, true, true, true],
        [true, true, true, true, true], [true, true, true, true, true], [true, true, true, true, true],
        [true, true, true, true, true], [true, true, true, true, true], [true, true, false, true, true],
        [true, true, true, false, true], [true, true, true, true, true], [true, true, true, true, true],
        [true, true, true, true, false],
    ] },
    Branch { op: Op::Blt, equal: false, grid: &[
        [false, true, true, false, false], [false, false, true, false, false], [false, false, true, false, false],
        [false, false, true, false, false], [false, false, true, false, false], [false, false, true, false, false],
        [false, false, true, false, false], [false, false, true, false, false], [false, false, false, false, false],
        [true, true, true, false, true], [true, true, true, false, true], [true, true, true, false, true],
        [true, true, true, false, false],
    ] },
    Branch { op: Op::Bge, equal: true, grid: &[
        [true, false, false, true, true], [true, true, false, true, true], [true, true, false, true, true],
        [true, true, false, true, true], [true, true, false, true, true], [true, true, false, true, true],
        [true, true, false, true, true], [true, true, false, true, true], [true, true, true, true, true],
        [false, false, false, true, false], [false, false, false, true, false], [false, false, false, true, false],
        [false, false, false, true, true],
    ] },
    Branch { op: Op::Bltu, equal: false, grid: &[
        [false, true, true, true, true], [false, false, true, true, true], [false, false, true, true, true],
        [false, false, true, true, true], [false, false, true, true, true], [false, false, true, true, true],
        [false, false, true, true, true], [false, false, true, true, true], [false, false, false, true, true],
        [false, false, false, false, true], [false, false, false, false, true], [false, false, false, false, true],
        [false, false, false, false, false],
    ] },
    Branch { op: Op::Bgeu, equal: true, grid: &[
        [true, false, false, false, false], [true, true, false, false, false], [true, true, false, false, false],
        [true, true, false, false, false], [true, true, false, false, false], [true, true, false, false, false],
        [true, true, false, false, false], [true, true, false, false, false], [true, true, true, false, false],
        [true, true, true, true, false], [true, true, true, true, false], [true, true, true, true, false],
        [true, true, true, true, true],
    ] },
};
