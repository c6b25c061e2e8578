// Tests of runs under one fault. The lines were worked out by hand, by the rules of `docs/MACHINE.md`.
//
// The core hands over the due record if nothing is pending and there is room. A claim that is accepted in the cycle c commits in c + 6, if no
// other is in its way. So the instruction k, from 0, is handed over in the cycle 7k + 1 and commits in 7k + 7. If its claim is wrong, the machine
// with its checker flushes in 7k + 7, commits the instruction in 7k + 13, and accepts the next one in 7k + 14: six cycles later than without
// the fault. The machine without its checker commits what was claimed, in 7k + 7.
ghost use Rattle.std.specs.Prelude.{◌≡◌, true, IfOk};
ghost use Rattle.diva_faults.specs.Rows.{IsChange, IsCycle, IsRow};
ghost use Rattle.diva_trial.specs.Begun.{AreReady};

use crate::Trials;
use diva_core::{Claims, Config, CopyCore, Core, Field, Told, View};
use diva_faults::{Change, Row, Script};
use diva_image::Image;
use diva_inject::outcome_line;
use diva_isa::record_of;
use std::alloc::{AllocError, Global};
use std::process::Abort;
use std::test::Fail;

/// Hands over the due record if nothing is pending and there is room.
#[derive(Clone, Copy, Debug, Drop)]
struct OneByOne;

impl Core for OneByOne {
    ghost use Rattle.std.specs.Prelude.{⊤};

    ghost gives = { λ before told state list after. ⊤ };

    fn cycle(&mut self, told: &Told, view: &View<'_>, out: &mut Claims) {
        if told.pending == 0 && told.room > 0 {
            out.push(record_of(view));
        }
    }
}

impl CopyCore for OneByOne {
    fn copied(&self, _alloc: Global) -> Result<Self, AllocError> {
        Ok(*self)
    }

    fn copy_from(&mut self, other: &Self) {
        *self = *other;
    }
}

/// The runs of a program of these words, in 64 bytes at 0, until so many cycles have run.
fn trials<'s>(
    alloc: Global,
    words: &[u32],
    script: &'s Script,
    until: u32,
) -> Result<Trials<'s, OneByOne>, Fail>
    ensures { IfOk result AreReady }
{
    let mut payload = Vec::new(alloc);
    for word in words {
        payload.extend_from_slice(&word.to_le_bytes())?;
    }
    let Some(image) = Image::new(0, 64, 0, payload) else {
        return Err(Fail::new("no image"));
    };
    let config = Config::default();
    Ok(Trials::new(alloc, &image, config, &OneByOne, script, until)?)
}

/// A change of the claim in a lane.
fn lane(cycle: u32, lane: u8, change: Change) -> Row {
    Row::Lane {
        cycle,
        lane,
        change,
    }
}

fn flip(field: Field, bit: u8) -> Change {
    Change::Flip { field, bit }
}

fn set(field: Field, value: u32) -> Change {
    Change::Set { field, value }
}

fn hush(cycle: u32, cycles: u32) -> Row {
    Row::Hush { cycle, cycles }
}

/// A bit of the claim in lane 0 that is 0 from a cycle on.
fn stuck(cycle: u32, field: Field, bit: u8) -> Row {
    Row::Lasting {
        cycle,
        cycles: 1_000_000_000,
        lane: 0,
        change: Change::Force {
            field,
            bit,
            high: false,
        },
    }
}

/// Whether the numbers of a row are in their ranges.
fn is_row(row: &Row) -> bool
    ensures { result ≡ true → IsRow row.now }
{
    match *row {
        Row::Lane {
            cycle,
            lane,
            change,
        } => is_cycle(cycle) && lane <= 7 && is_change(change),
        Row::Hush { cycle, cycles } => is_cycle(cycle) && is_cycle(cycles),
        Row::Lasting {
            cycle,
            cycles,
            lane,
            change,
        } => is_cycle(cycle) && is_cycle(cycles) && lane <= 7 && is_change(change),
    }
}

fn is_cycle(number: u32) -> bool
    ensures { result ≡ true → IsCycle number }
{
    1 <= number && number <= 1_000_000_000
}

fn is_change(change: Change) -> bool
    ensures { result ≡ true → IsChange change }
{
    match change {
        Change::Flip { bit, .. } | Change::Force { bit, .. } => bit <= 31,
        Change::Set { .. } | Change::Lose | Change::Double => true,
    }
}

/// Puts a letter: `addi x10, x0, 65`, `sw x10, 60(x0)`, `addi x17, x0, 1`, `ecall`, which puts it, `addi x10, x0, 0`, `addi x17, x0, 93`, and
/// `ecall`, which halts with status 0: in the cycle 49.
static LETTER: [u32; 7] = [
    0x0410_0513,
    0x02a0_2e23,
    0x0010_0893,
    0x0000_0073,
    0x0000_0513,
    0x05d0_0893,
    0x0000_0073,
];

/// Faults of `LETTER` that change a field of one claim, and their lines.
fn letters() -> [(Row, &'static [u8]); 6] {
    [
        // Lane 1 is empty.
        (
            lane(1, 1, flip(Field::Value, 0)),
            b"7,flip,1,1,value,0,no,0,,49,yes,masked,,halt 0\n",
        ),
        // x10 is 64, so another letter is stored and put.
        (
            lane(1, 0, flip(Field::Value, 0)),
            b"7,flip,1,0,value,0,yes,1,6,55,yes,silent,0,halt 0\n",
        ),
        // What a claim says of its first source is not used if it commits as it stands.
        (
            lane(8, 0, flip(Field::Src1, 3)),
            b"7,flip,8,0,src1,3,yes,1,6,55,yes,masked,1,halt 0\n",
        ),
        // x17 is 0, a service that there is not.
        (
            lane(15, 0, flip(Field::Value, 0)),
            b"7,flip,15,0,value,0,yes,1,6,55,yes,trap,2,trap 8\n",
        ),
        // The store lies after the last byte.
        (
            lane(8, 0, set(Field::Addr, 64)),
            b"7,set,8,0,addr,,yes,1,6,55,yes,stray,1,stray\n",
        ),
        // The program halts with status 1.
        (
            lane(43, 0, flip(Field::End, 0)),
            b"7,flip,43,0,end,0,yes,1,6,55,yes,silent,6,halt 1\n",
        ),
    ]
}

/// Other faults of `LETTER`, and their lines.
fn other_letters() -> [(Row, &'static [u8]); 4] {
    [
        // Instruction 3 leads to 0 in place of 16, and so on for ever. With the checker it is handed over in the cycle 22, flushed in 28, and
        // commits in 34; so do the three that follow, at 16, 20 and 24, after 13 cycles each: the last one in 73.
        (
            stuck(20, Field::Next, 4),
            b"7,stuck0,20,0,next,4,yes,4,8,73,yes,hang,3,none\n",
        ),
        // After the commit in the cycle 7 there is none in 64 cycles: the watchdog flushes in 71, instruction 1 commits in 77, and the next
        // one is handed over in 78, 63 cycles later than without a fault. No watchdog is awake without the checker.
        (
            hush(8, 70),
            b"7,hush,8,,,,yes,1,63,112,yes,masked,,halt 0\n",
        ),
        // In the cycle 7 instruction 0 commits, and its copy is wrong, so instruction 1 commits in 13, one cycle earlier than without a
        // fault. Without the checker the copy commits too: one instruction more has been counted.
        (
            lane(1, 0, Change::Double),
            b"7,double,1,0,,,yes,1,6,48,yes,silent,1,halt 0\n",
        ),
        // The program halts, and the copy is dropped.
        (
            lane(43, 0, Change::Double),
            b"7,double,43,0,,,yes,0,,49,yes,masked,,halt 0\n",
        ),
    ]
}

/// Compares what becomes of the runs under some faults, each of which has the number 7, with their lines.
fn compare(rt: &impl Abort, trials: &mut Trials<'_, OneByOne>, rows: &[(Row, &'static [u8])])
    requires { AreReady trials.old }
    ensures { AreReady trials.new }
{
    for (fault, line) in rows {
        assert!(rt; is_row(fault));
        let outcome = trials.run(7, fault);
        assert_eq!(rt; outcome_line(&outcome).bytes(), *line);
    }
}

/// Makes the runs of a program under some faults twice, one after the other, so that a fault comes after each other one, later or earlier. Also
/// compares how many cycles the run without a fault has.
fn compare_runs(
    rt: &impl Abort,
    alloc: Global,
    words: &[u32],
    until: u32,
    cycles: u64,
    rows: &[(Row, &'static [u8])],
) -> Result<(), Fail> {
    let script = Script::none(alloc);
    let mut trials = trials(alloc, words, &script, until)?;
    compare(rt, &mut trials, rows);
    compare(rt, &mut trials, rows);
    assert_eq!(rt; trials.free().cycles(), cycles);
    Ok(())
}

#[test]
fn faults_of_a_letter(rt: HostRuntime) -> Result<(), Fail> {
    compare_runs(&rt, rt.alloc(), &LETTER, 200, 49, &letters())?;
    compare_runs(&rt, rt.alloc(), &LETTER, 200, 49, &other_letters())
}

/// `addi x1, x0, 5`, and `ebreak`, which traps with number 3: in the cycle 14.
static BREAK: [u32; 2] = [0x0050_0093, 0x0010_0073];

/// Faults of `BREAK`, and their lines.
fn breaks() -> [(Row, &'static [u8]); 2] {
    [
        // It traps as the run without a fault does, and x1 is another.
        (
            lane(1, 0, flip(Field::Value, 0)),
            b"7,flip,1,0,value,0,yes,1,6,20,yes,silent,0,trap 3\n",
        ),
        // It traps by another number: `ebreak` was to end with 4, which is trap 3, and ends with 5.
        (
            lane(8, 0, flip(Field::End, 0)),
            b"7,flip,8,0,end,0,yes,1,6,20,yes,trap,1,trap 4\n",
        ),
    ]
}

/// A fault of `LETTER` in 47 cycles. The run without a fault has committed six instructions by then, the last one in 42, and the one with the
/// checker five, the last one in 41. The run without the checker goes on, as the one without a fault does.
fn cut() -> [(Row, &'static [u8]); 1] {
    [(
        lane(1, 0, flip(Field::Value, 0)),
        b"7,flip,1,0,value,0,yes,1,6,47,no,silent,0,none\n",
    )]
}

#[test]
fn faults_of_runs_that_do_not_halt(rt: HostRuntime) -> Result<(), Fail> {
    compare_runs(&rt, rt.alloc(), &BREAK, 200, 14, &breaks())?;
    compare_runs(&rt, rt.alloc(), &LETTER, 47, 47, &cut())
}

/// Adds 3 to x2 and stores it, in a hundred turns: `addi x1, x0, 100`, then `addi x2, x2, 3`, `sw x2, 60(x0)`, `addi x1, x1, -1`, and
/// `bne x1, x0, -12`; then `addi x17, x0, 93`, and `ecall`, which halts with status 0: after 403 instructions, in the cycle 2821. The turn t, from
/// 1, begins with the instruction 4t - 3.
static TURNS: [u32; 7] = [
    0x0640_0093,
    0x0031_0113,
    0x0220_2e23,
    0xfff0_8093,
    0xfe00_9ae3,
    0x05d0_0893,
    0x0000_0073,
];

/// Faults of `TURNS`, and their lines. Machines are kept that have run 0, 44, 88 cycles, and so on: 2821 by 64 is 44.
fn turns() -> [(Row, &'static [u8]); 7] {
    [
        // In the turn 100 x2 is 301.
        (
            lane(2780, 0, flip(Field::Value, 0)),
            b"7,flip,2780,0,value,0,yes,1,6,2827,yes,silent,397,halt 0\n",
        ),
        // In the turn 50 x2 is 151 in place of 150.
        (
            lane(1380, 0, flip(Field::Value, 0)),
            b"7,flip,1380,0,value,0,yes,1,6,2827,yes,silent,197,halt 0\n",
        ),
        // In the turn 100 x1 is 1 in place of 0: there is one turn more.
        (
            lane(2794, 0, flip(Field::Value, 0)),
            b"7,flip,2794,0,value,0,yes,1,6,2827,yes,silent,399,halt 0\n",
        ),
        // In the turn 10 x1 is 2^31 and 90: so many turns are not run.
        (
            lane(274, 0, flip(Field::Value, 31)),
            b"7,flip,274,0,value,31,yes,1,6,2827,yes,hang,39,none\n",
        ),
        // In the turn 7 x2 is 20 in place of 21. A machine is kept that has run 176 cycles, and so has this claim already.
        (
            lane(176, 0, flip(Field::Value, 0)),
            b"7,flip,176,0,value,0,yes,1,6,2827,yes,silent,25,halt 0\n",
        ),
        // The branch of the turn 11 leads to 0 in place of 4, so a hundred turns follow. A machine is kept that has run 308 cycles.
        (
            lane(309, 0, flip(Field::Next, 2)),
            b"7,flip,309,0,next,2,yes,1,6,2827,yes,silent,44,halt 0\n",
        ),
        // The program has halted before.
        (
            lane(3000, 0, flip(Field::Value, 0)),
            b"7,flip,3000,0,value,0,no,0,,2821,yes,masked,,halt 0\n",
        ),
    ]
}

/// Runs under the same fault come to the same, after others and by themselves.
#[test]
fn faults_of_a_hundred_turns(rt: HostRuntime) -> Result<(), Fail> {
    compare_runs(&rt, rt.alloc(), &TURNS, 4000, 2821, &turns())?;
    for row in turns().chunks(1) {
        compare_runs(&rt, rt.alloc(), &TURNS, 4000, 2821, row)?;
    }
    Ok(())
}
