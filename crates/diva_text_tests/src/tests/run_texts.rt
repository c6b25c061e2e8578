// The text of a run, that of two harts, and some lines.
use diva_core::{Cause, FlushRow, Output, View};
use diva_isa::{End, Regs};
use diva_memory::Memory;
use diva_outside::{MemSink, SinkFailed, put_line, put_lines};
use diva_storeq::StoreQueue;
use diva_test_programs::{ADDS, WRONG_VALUE, laid, registers_text};
use diva_trace::{
    Dump, HartReport, Report, SoakCore, Tally, commit_line, cycles_line, end_line, flushes_line,
    soak_line, write_dump, write_hart, write_run, write_tally,
};
use std::test::Fail;

/// A flush of each cause.
const ROWS: [FlushRow; 2] = [
    WRONG_VALUE,
    FlushRow {
        cycle: 64,
        at: 0,
        cause: Cause::Silent(64),
    },
];

/// The text of a run with these flushes, before its registers and behind them.
const RUN: [&str; 2] = [
    "\
flush 7 at 0 value claimed 00000004 due 00000005
flush 64 at 0 silent 64
end halt 0
count 3
cycles 27
flushes 2 silent 1
output 2
out 410a
",
    "pc 00000008\nmem 0000003c 00000000........\n",
];

/// The text of two harts, before, between and behind their registers: one that halted, with an output that takes two lines, and one
/// that trapped. Of memory the last byte is not 0, and what is shown goes on behind it.
const HARTS: [&str; 3] = [
    "\
cycles 41
hart 0
end halt 7
count 3
flushes 2 silent 1
output 33
out 3031323334353637383961626364656630313233343536373839616263646566
out 0a
",
    "pc 00000008\nhart 1\nend trap 4\ncount 30\nflushes 0 silent 0\noutput 0\n",
    "\
pc 00000010
mem 00000038 00000000000000ab................
mem 00000048 ........
",
];

/// Lines that this run does not have.
const LINES: &str = "\
0 00000000 00500093 00000000 00000000 00000000 00000005 00000004 00000000
end trap 4
end none
flushes 1 silent 0
scalar count 4 cycles 10 flushes 0
own count 4 cycles 11 flushes 2
";

#[test]
fn text_of_a_run(rt: HostRuntime) -> Result<(), Fail> {
    let alloc = rt.alloc();
    let mut regs = Regs::new();
    regs.set(1, 5);
    regs.set(17, 0x5d);
    let memory = Memory::new(alloc, 0, 64, &[])?;
    let queue = StoreQueue::new(alloc, 4)?;
    let output = Output::new(alloc)?;
    let report = Report {
        rows: &ROWS,
        end: End::Halt(0),
        count: 3,
        cycles: 27,
        flushes: 2,
        silent: 1,
        output: b"A\n",
        view: &View::new(&regs, 8, &memory, &queue, &output, 0),
        dump: Some(Dump { addr: 0x3c, len: 8 }),
    };
    let mut run = MemSink::new(alloc, 2048, Vec::new(alloc))?;
    assert_eq!(rt; write_run(&report, &mut run), Ok(()));
    let [before, behind] = RUN;
    let registers = registers_text(alloc, &[(1, 5), (17, 0x5d)])?;
    let due = format!(in alloc; "{before}{registers}{behind}")?;
    assert_eq!(rt; run.bytes(), due.as_str().as_bytes());
    Ok(())
}

#[test]
fn text_of_two_harts(rt: HostRuntime) -> Result<(), Fail> {
    let alloc = rt.alloc();
    let mut memory = Memory::new(alloc, 0, 64, &[])?;
    memory.put(0x3f, 0xab);
    let queue = StoreQueue::new(alloc, 4)?;
    let output = Output::new(alloc)?;
    let (mut first, mut second) = (Regs::new(), Regs::new());
    first.set(1, 5);
    first.set(17, 0x5d);
    second.set(10, 1);
    let views = [
        View::new(&first, 8, &memory, &queue, &output, 0),
        View::new(&second, 16, &memory, &queue, &output, 0),
    ];
    let mut harts = MemSink::new(alloc, 2048, Vec::new(alloc))?;
    assert_eq!(rt; put_harts(&views, &memory, &mut harts), Ok(()));
    let [before, between, behind] = HARTS;
    let halted = registers_text(alloc, &[(1, 5), (17, 0x5d)])?;
    let trapped = registers_text(alloc, &[(10, 1)])?;
    let due = format!(in alloc; "{before}{halted}{between}{trapped}{behind}")?;
    assert_eq!(rt; harts.bytes(), due.as_str().as_bytes());
    Ok(())
}

/// Puts the text of two harts over this memory, after 41 cycles: one that halted, and one that trapped.
fn put_harts(views: &[View<'_>; 2], memory: &Memory, sink: &mut MemSink) -> Result<(), SinkFailed> {
    put_line(&cycles_line(41), sink)?;
    let output = b"0123456789abcdef0123456789abcdef\n";
    let (halted, trapped) = (End::Halt(7), End::Trap(4));
    let reports = laid! {
        HartReport { end: halted, count: 3, flushes: 2, silent: 1, output, view: &views[0] },
        HartReport { end: trapped, count: 30, flushes: 0, silent: 0, output: b"", view: &views[1] },
    };
    write_hart(0, &reports[0], sink)?;
    write_hart(1, &reports[1], sink)?;
    let dump = Dump {
        addr: 0x38,
        len: 20,
    };
    write_dump(memory, dump, sink)
}

#[test]
fn other_lines(rt: HostRuntime) -> Result<(), Fail> {
    let mut lines = MemSink::new(rt.alloc(), 2048, Vec::new(rt.alloc()))?;
    let made = [
        commit_line(0, &ADDS),
        end_line(5),
        end_line(0),
        flushes_line(1, 0),
        soak_line(SoakCore::Scalar, 4, 10, 0),
        soak_line(SoakCore::Own, 4, 11, 2),
    ];
    assert_eq!(rt; put_lines(&made, &mut lines), Ok(()));
    assert_eq!(rt; lines.bytes(), LINES.as_bytes());
    Ok(())
}

#[test]
fn tallies(rt: HostRuntime) -> Result<(), Fail> {
    let mut lines = MemSink::new(rt.alloc(), 64, Vec::new(rt.alloc()))?;
    let tally = Tally {
        runs: 8192,
        same: 1000,
        flushed: 999,
        silent: 0,
    };
    assert_eq!(rt; write_tally(&tally, &mut lines), Ok(()));
    let due = "runs 8192\nsame 1000\nflushed 999\nsilent 0\n";
    assert_eq!(rt; lines.bytes(), due.as_bytes());
    Ok(())
}
