// Sessions: commands, and the replies to them.
use super::{Outside, compare, compare_unasked};
use diva_test_programs::{FIVE, FIVE_FILE, LOOP, Program, image_file, rows};
use std::alloc::Global;
use std::test::Fail;

/// A session over one program.
#[derive(Clone, Copy)]
struct Session {
    /// The options of `debug`.
    options: &'static str,
    program: Program,
    commands: &'static str,
    /// The replies.
    text: &'static str,
}

/// Commands that go through `FIVE`, step by step.
pub(super) const STEPS_COMMANDS: &str = "step 2\nreg 1\nwhy\nstep 5\n";

/// The replies to them in the pipeline.
pub(super) const STEPS_TEXT: &str = "at 2 pc 00000008\nx1 00000005\nno flush\nended 3 halt 0\n";

const STEPS: Session = Session {
    options: "--core scalar",
    program: FIVE,
    commands: STEPS_COMMANDS,
    text: STEPS_TEXT,
};

static SESSIONS: [Session; 8] = rows! { Session:
    STEPS {}
    // Each instruction commits 6 cycles after a flush, and 64 cycles later comes the next one: 64 and 70, 134 and 140,
    // 204 and 210.
    STEPS { options: "--core silent", commands: "step 2\nwhy", text: "at 2 pc 00000008\nflush 134 at 1 silent 64\n" }
    STEPS { options: "--core silent --watchdog 16", commands: "step 3\nwhy", text: "ended 3 halt 0\nflush 60 at 2 silent 16\n" }
    // The first claim of the core that is handed in is wrong.
    STEPS { options: "", commands: "step 1\nwhy\nreg 1",
        text: "at 1 pc 00000004\nflush 7 at 0 value claimed 00000004 due 00000005\nx1 00000005\n" }
    // Memory ends at 40. The third command stands at its pc, so it steps on, to the end.
    STEPS { options: "--core lockstep", commands: "until 8 # the call\n\nmem 30 32\nuntil 8\n",
        text: "at 2 pc 00000008\nmem 00000030 00000000000000000000000000000000................................\nended 3 halt 0\n" }
    // Each command at the end.
    STEPS { options: "--core lockstep", commands: "step 1000000\nstep 1\nuntil 0\nreg 17\nmem 0 4\nwhy",
        text: "ended 3 halt 0\nended 3 halt 0\nended 3 halt 0\nx17 0000005d\nmem 00000000 93005000\nno flush\n" }
    // A jump to itself: one step at least, and 100,000 at most.
    STEPS { program: LOOP, commands: "until 0\nuntil 4\nstep 3", text: "at 1 pc 00000000\nfar 100001 pc 00000000\nat 100004 pc 00000000\n" }
    // No instruction.
    STEPS { program: Program { size: 4, words: &[0] }, commands: "step 2\nmem fffffff0 16",
        text: "ended 1 trap 2\nmem fffffff0 ................................\n" }
};

/// An image and commands.
pub(super) fn with_commands(
    alloc: Global,
    program: Program,
    commands: &str,
) -> Result<Outside, Fail> {
    Ok(Outside {
        commands: Vec::from_slice(alloc, commands.as_bytes())?,
        ..Outside::sound(alloc, image_file(alloc, program)?)
    })
}

#[test]
fn sessions_that_reply(rt: HostRuntime) -> Result<(), Fail> {
    let alloc = rt.alloc();
    for session in &SESSIONS {
        let line = format!(in alloc; "debug a.diva a.commands {}", session.options)?;
        let outside = with_commands(alloc, session.program, session.commands)?;
        compare(&rt, line.as_str(), outside, 0, session.text)?;
    }
    Ok(())
}

#[test]
fn commands_that_are_refused(rt: HostRuntime) -> Result<(), Fail> {
    let alloc = rt.alloc();
    for (commands, text) in [
        ("jump 1", "refused commands 1 at 1\n"),
        ("why\n\nmem 0 33\njump", "refused commands 2 at 3\n"),
        ("# step\nstep 1 2\n", "refused commands 3 at 2\n"),
    ] {
        let outside = with_commands(alloc, FIVE, commands)?;
        compare_unasked(&rt, "debug a.diva a.commands", outside, 5, text)?;
    }
    Ok(())
}

/// The image is loaded first and the commands last.
#[test]
fn commands_that_are_not_there(rt: HostRuntime) -> Result<(), Fail> {
    let alloc = rt.alloc();
    for (line, text) in [
        ("debug a.diva b.commands", "unreadable commands\n"),
        (
            "debug a.diva b.commands --core tape --tape b.tape",
            "unreadable tape\n",
        ),
        ("debug b.diva b.commands", "unreadable image\n"),
    ] {
        let outside = Outside::sound(alloc, Vec::from_slice(alloc, &FIVE_FILE)?);
        compare_unasked(&rt, line, outside, 8, text)?;
    }
    Ok(())
}
