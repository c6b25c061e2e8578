// What arithmetic, branches and loads came to in `qemu-riscv32`, an emulator of the RISC-V
// instruction set that is independent of this repository. None of the numbers comes from our code.
mod branches;
mod immediates;
mod loads;
mod registers;

use branches::BRANCHES;
use diva_decode::Op;
use diva_isa::{alu, branch_taken, load_value};
use immediates::{IMMEDIATES, SHIFTS};
use loads::LOADS;
use registers::REGISTERS;
use std::process::Abort;

/// The first operands of the grids: the edges of bytes, halves and words.
const FIRSTS: [u32; 13] = [
    0x00000000, 0x00000001, 0x00000002, 0x0000001f, 0x00000020, 0x000000ff, 0x00007fff, 0x00008000,
    0x7fffffff, 0x80000000, 0x80000001, 0xfffffffe, 0xffffffff,
];

/// The second operands of the branches.
const COMPARED: [u32; 5] = [0, 1, 0x7fffffff, 0x80000000, 0xffffffff];

/// The results of one operation.
struct Sheet {
    op: Op,
    /// For each first operand, the results with each second one.
    grid: &'static [u32],
    /// Two operands at random, and their result.
    others: &'static [(u32, u32, u32)],
}

/// Compares what `alu` answers with the results; the second operands are those of the grids.
fn compare(rt: &impl Abort, sheets: &[Sheet], seconds: &[u32]) {
    for sheet in sheets {
        compare_grid(rt, sheet.op, sheet.grid, seconds);
        for &(a, b, result) in sheet.others {
            compare_alu(rt, sheet.op, a, b, Some(result));
        }
    }
}

/// Compares the results of an operation on each first operand with each second one.
fn compare_grid(rt: &impl Abort, op: Op, grid: &[u32], seconds: &[u32]) {
    let mut results = grid.iter();
    for &a in &FIRSTS {
        for &b in seconds {
            compare_alu(rt, op, a, b, results.next().copied());
        }
    }
    assert_eq!(rt; results.next(), None, "{op:?}");
}

fn compare_alu(rt: &impl Abort, op: Op, a: u32, b: u32, due: Option<u32>) {
    assert_eq!(rt; Some(alu(op, a, b)), due, "{op:?} {a:08x} {b:08x}");
}

#[test]
fn results_of_an_emulator(rt: HostRuntime) {
    compare(
        &rt,
        &REGISTERS,
        &[0, 1, 0x1f, 0x7fffffff, 0x80000000, 0xffffffff],
    );
    compare(&rt, &IMMEDIATES, &[0, 0xffffffff, 0x7ff, 0xfffff800]);
    compare(&rt, &SHIFTS, &[0, 1, 0x1f]);
}

#[test]
fn branches_of_an_emulator(rt: HostRuntime) {
    for branch in &BRANCHES {
        assert_eq!(rt; branch.grid.len(), FIRSTS.len(), "{:?}", branch.op);
        for (&a, row) in FIRSTS.iter().zip(branch.grid) {
            compare_branches(&rt, branch.op, a, row);
            compare_branch(&rt, branch.op, a, a, branch.equal);
        }
    }
}

/// Compares where branches go of a first operand with each second one.
fn compare_branches(rt: &impl Abort, op: Op, a: u32, row: &[bool; 5]) {
    for (&b, &taken) in COMPARED.iter().zip(row) {
        compare_branch(rt, op, a, b, taken);
    }
}

fn compare_branch(rt: &impl Abort, op: Op, a: u32, b: u32, taken: bool) {
    assert_eq!(rt; branch_taken(op, a, b), taken, "{op:?} {a:08x} {b:08x}");
}

#[test]
fn loads_of_an_emulator(rt: HostRuntime) {
    for &(op, bytes, value) in &LOADS {
        assert_eq!(rt; load_value(op, bytes), value, "{op:?} {bytes:08x}");
    }
}
