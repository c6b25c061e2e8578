// Sessions that go back: commands, and the replies to them.
ghost use Rattle.std.specs.Prelude.{◌≡◌, ◌≤◌, IfOk};
ghost use Rattle.diva_debug.specs.Sessions.{machine_of};

use diva_core::Core;
use diva_debug::{Session, commands};
use diva_machine::{Config, Machine};
use diva_tape::{Scalar, Silent};
use diva_test_programs::{FIVE, LOOP, Program, image_file, laid};
use std::alloc::Global;
use std::process::Abort;
use std::test::Fail;

/// A session over one program.
#[derive(Clone, Copy)]
struct Back {
    program: Program,
    /// How many undos it keeps.
    keep: u32,
    commands: &'static str,
    /// The replies.
    text: &'static str,
}

/// `addi x1, x0, 5`, `sw x1, 32(x0)`, and one word that is no instruction.
const STORES: Program = Program {
    size: 36,
    words: &[0x00500093, 0x02102023, 0],
};

static BACK: [Back; 7] = laid! {
    // As many as are kept.
    Back { program: FIVE, keep: 4096, commands: "step 2\nback 1\nreg 17\nstep 1\nback 5\nstep 5\nback 1",
        text: "at 2 pc 00000008\nat 1 pc 00000004\nx17 00000000\nat 2 pc 00000008\nkept 2\nended 3 halt 0\nat 2 pc 00000008\n" },
    // To the very start, and to the end again.
    Back { program: FIVE, keep: 4096, commands: "back 1\nstep 1000000\nback 4\nback 3\nreg 1\nback 1\nuntil 8\nreg 1\nuntil 8",
        text: "kept 0\nended 3 halt 0\nkept 3\nat 0 pc 00000000\nx1 00000000\nkept 0\nat 2 pc 00000008\nx1 00000005\nended 3 halt 0\n" },
    // Room for one: each instruction drops the undo of the one before.
    Back { program: FIVE, keep: 1, commands: "step 2\nback 2\nback 1\nback 1\nreg 1\nreg 17\nstep 1\nback 1",
        text: "at 2 pc 00000008\nkept 1\nat 1 pc 00000004\nkept 0\nx1 00000005\nx17 00000000\nat 2 pc 00000008\nat 1 pc 00000004\n" },
    // Room for two: the third drops the first.
    Back { program: FIVE, keep: 2, commands: "step 3\nback 3\nback 2\nback 1\nstep 5",
        text: "ended 3 halt 0\nkept 2\nat 1 pc 00000004\nkept 0\nended 3 halt 0\n" },
    // More instructions than there is room for.
    Back { program: LOOP, keep: 4096, commands: "step 5000\nback 1000000\nback 4096\nback 1\nstep 1",
        text: "at 5000 pc 00000000\nkept 4096\nat 904 pc 00000000\nkept 0\nat 905 pc 00000000\n" },
    // A word that was stored is what it was before, and a trap has not come.
    Back { program: STORES, keep: 3, commands: "step 2\nmem 20 4\nstep 1\nback 1\nmem 20 4\nback 1\nmem 20 4\nstep 5",
        text: "at 2 pc 00000008\nmem 00000020 05000000\nended 3 trap 2\nat 2 pc 00000008\nmem 00000020 05000000\nat 1 pc 00000004\n\
            mem 00000020 00000000\nended 3 trap 2\n" },
    // No flush comes where the pipeline runs ahead again.
    Back { program: FIVE, keep: 4, commands: "step 2\nback 2\nstep 2\nwhy",
        text: "at 2 pc 00000008\nat 0 pc 00000000\nat 2 pc 00000008\nno flush\n" },
};

/// A machine of one claim a cycle that begins with the program.
fn machine(alloc: Global, program: Program) -> Result<Machine, Fail>
    ensures width { IfOk result (λ m. m.timed.config.width ≡ 1) }
    ensures limit { IfOk result (λ m. m.timed.config.limit ≡ 64) }
    ensures count { IfOk result (λ m. m.timed.count ≡ 0) }
{
    let image = diva_image::read(alloc, &image_file(alloc, program)?)?;
    let config = Config::new(1, 16, 4, 64).ok_or("a number out of its range")?;
    Ok(Machine::new(alloc, &image, config)?)
}

/// Does the commands of a text in turn, and compares the replies.
fn compare<C: Core>(
    rt: &impl Abort,
    alloc: Global,
    mut session: Session<'_, C>,
    text: &str,
    due: &str,
) -> Result<(), Fail>
    requires { (machine_of session).timed.config.limit ≤ 64 }
{
    let read = commands(alloc, text.as_bytes())?;
    let mut replies = Vec::new(alloc);
    for command in &read {
        assert!(rt; session.cycles() < 1_000_000_000);
        let line = session.reply(command);
        replies.extend_from_slice(line.bytes())?;
    }
    assert_eq!(rt; replies.as_slice(), due.as_bytes(), "{text}");
    Ok(())
}

#[test]
fn sessions_that_go_back(rt: HostRuntime) -> Result<(), Fail> {
    let alloc = rt.alloc();
    for row in &BACK {
        assert!(rt; 1 <= row.keep && row.keep <= 4096);
        let mut core = Scalar::new(alloc)?;
        let session = Session::with_back(alloc, machine(alloc, row.program)?, &mut core, row.keep)?;
        compare(&rt, alloc, session, row.commands, row.text)?;
    }
    Ok(())
}

/// Cycles and flushes are not taken back. The second instruction commits in cycle 140, six cycles after a flush. It is taken
/// back, and 64 cycles later comes the next flush.
#[test]
fn flushes_behind_an_undo(rt: HostRuntime) -> Result<(), Fail> {
    let alloc = rt.alloc();
    let mut core = Silent;
    let session = Session::with_back(alloc, machine(alloc, FIVE)?, &mut core, 8)?;
    compare(
        &rt,
        alloc,
        session,
        "step 2\nback 1\nwhy\nstep 1\nwhy",
        "at 2 pc 00000008\nat 1 pc 00000004\nflush 134 at 1 silent 64\nat 2 pc 00000008\n\
            flush 204 at 1 silent 64\n",
    )
}

/// A session that was made to keep none.
#[test]
fn a_session_that_cannot_go_back(rt: HostRuntime) -> Result<(), Fail> {
    let alloc = rt.alloc();
    let mut core = Scalar::new(alloc)?;
    let session = Session::new(machine(alloc, FIVE)?, &mut core);
    compare(
        &rt,
        alloc,
        session,
        "step 2\nback 1\nstep 1",
        "at 2 pc 00000008\nkept 0\nended 3 halt 0\n",
    )
}
