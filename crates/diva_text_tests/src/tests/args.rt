// Lines that are taken, and lines that are refused. A line is one string, whose words blanks part.
mod lab;

use diva_args::{
    ArgsFault, CampaignOptions, DebugOptions, DuoOptions, Job, MigrateOptions, RunOptions, Setup,
    SoakOptions, TapeOptions, read_words,
};
use diva_core::Config;
use diva_test_programs::laid;
use std::alloc::{AllocError, Global};
use std::test::Fail;

/// Lines with what they ask for: the command, then the names and numbers. Behind an image stand its room, its core, its script,
/// width, window, stores, limit and port; last come of `run` the cycles, the commit lines, the dump and the place of the voting
/// lane that lies, and of `tape` the cycles. `duo` has no script, no commit lines and no such place. Behind the image of `campaign`
/// stand the last cycle and the cycles of each run.
static TAKEN: [(&str, &str); 71] = laid! {
    ("run p1.diva", r#"run "p1.diva" 0 Own None 2 16 4 64 1 1000000 false None None"#),
    ("run p1.diva --dump 3c:8 --cycles 1000000000 --stores 6 --trace --core silent --script faults.txt --watchdog 1024 --width 1 --window 08",
        r#"run "p1.diva" 0 Silent Some(FileName { text: "faults.txt" }) 1 8 6 1024 1 1000000000 true Some(DumpRange { addr: 60, len: 8 }) None"#),
    // What stands for a flag that is not given is no value of an option.
    ("run --trace p --script false", r#"run "p" 0 Own Some(FileName { text: "false" }) 2 16 4 64 1 1000000 true None None"#),
    ("tape p --cycles 9", r#"tape "p" 0 Own None 2 16 4 64 1 9"#),
    ("tape p --script s --tape t --core tape", r#"tape "p" 0 Tape(FileName { text: "t" }) Some(FileName { text: "s" }) 2 16 4 64 1 1000000"#),
    ("asm p1.s", r#"asm "p1.s""#),
    ("dis -- -x", r#"dis "-x""#),
    ("migrate p1.diva", r#"migrate "p1.diva" 0"#),
    ("soak 1 1", "soak 1 1"),
    ("soak 7 65536", "soak 7 65536"),
    ("soak 4294967295 0000000002", "soak 4294967295 2"),
    ("soak -- 0 3", "soak 0 3"),
    ("campaign p1.diva 1", r#"campaign "p1.diva" 1 10000"#),
    ("campaign p 32 --cycles 100000", r#"campaign "p" 32 100000"#),
    ("campaign --cycles=1 p 0000000007", r#"campaign "p" 7 1"#),
    ("campaign '' 2", r#"campaign "" 2 10000"#),
    ("campaign -- -x 3", r#"campaign "-x" 3 10000"#),
    ("debug p c", r#"debug "p" 0 Own None 1 16 4 64 1 "c""#),
    ("debug p c --watchdog 16 --core silent", r#"debug "p" 0 Silent None 1 16 4 16 1 "c""#),
    // The ends of the port's range, for each command that has one.
    ("run p --port 1", r#"run "p" 0 Own None 2 16 4 64 1 1000000 false None None"#),
    ("run p --stores 2 --port 6 --width 3", r#"run "p" 0 Own None 3 16 2 64 6 1000000 false None None"#),
    ("tape p --port=01", r#"tape "p" 0 Own None 2 16 4 64 1 1000000"#),
    ("tape p --cycles 9 --port 6", r#"tape "p" 0 Own None 2 16 4 64 6 9"#),
    ("debug p c --port 1", r#"debug "p" 0 Own None 1 16 4 64 1 "c""#),
    ("debug --port 6 p c", r#"debug "p" 0 Own None 1 16 4 64 6 "c""#),
    // Each option of two harts, and what stands where it is not given.
    ("duo p", r#"duo "p" 0 Scalar 2 16 4 64 1 1000000 None"#),
    ("duo p --core scalar", r#"duo "p" 0 Scalar 2 16 4 64 1 1000000 None"#),
    ("duo p --core lockstep", r#"duo "p" 0 Lockstep 2 16 4 64 1 1000000 None"#),
    ("duo p --core=silent", r#"duo "p" 0 Silent 2 16 4 64 1 1000000 None"#),
    ("duo p --width 4", r#"duo "p" 0 Scalar 4 16 4 64 1 1000000 None"#),
    ("duo p --window 64", r#"duo "p" 0 Scalar 2 64 4 64 1 1000000 None"#),
    ("duo --stores 1 p", r#"duo "p" 0 Scalar 2 16 1 64 1 1000000 None"#),
    ("duo p --watchdog 0000000016", r#"duo "p" 0 Scalar 2 16 4 16 1 1000000 None"#),
    ("duo p --room 16777212", r#"duo "p" 16777212 Scalar 2 16 4 64 1 1000000 None"#),
    ("duo p --cycles 1000000000", r#"duo "p" 0 Scalar 2 16 4 64 1 1000000000 None"#),
    ("duo p --dump ffffffff:1", r#"duo "p" 0 Scalar 2 16 4 64 1 1000000 Some(DumpRange { addr: 4294967295, len: 1 })"#),
    ("duo p1.diva --dump 3c:8 --cycles 9 --room 4096 --watchdog 1024 --stores 6 --window 8 --width 1 --core silent",
        r#"duo "p1.diva" 4096 Silent 1 8 6 1024 1 9 Some(DumpRange { addr: 60, len: 8 })"#),
    ("duo -- -x", r#"duo "-x" 0 Scalar 2 16 4 64 1 1000000 None"#),
    // The room behind an executable, for each command that has one, and the ends of its range.
    ("run p --room 4096", r#"run "p" 4096 Own None 2 16 4 64 1 1000000 false None None"#),
    ("tape p --room 4096", r#"tape "p" 4096 Own None 2 16 4 64 1 1000000"#),
    ("debug p c --room 4096", r#"debug "p" 4096 Own None 1 16 4 64 1 "c""#),
    ("migrate p --room 4096", r#"migrate "p" 4096"#),
    ("run --room 0 p", r#"run "p" 0 Own None 2 16 4 64 1 1000000 false None None"#),
    ("run p --room=16777212", r#"run "p" 16777212 Own None 2 16 4 64 1 1000000 false None None"#),
    ("tape p --cycles 9 --room 0", r#"tape "p" 0 Own None 2 16 4 64 1 9"#),
    ("tape p --room 16777212 --port 6", r#"tape "p" 16777212 Own None 2 16 4 64 6 1000000"#),
    ("debug --room 0 p c", r#"debug "p" 0 Own None 1 16 4 64 1 "c""#),
    ("debug p c --room 0016777212", r#"debug "p" 16777212 Own None 1 16 4 64 1 "c""#),
    ("migrate p --room 0000000000", r#"migrate "p" 0"#),
    ("migrate --room=16777212 -- -x", r#"migrate "-x" 16777212"#),
    // Each place of the voting lane that lies, alone and among other options.
    ("run p --liar 0", r#"run "p" 0 Own None 2 16 4 64 1 1000000 false None Some(First)"#),
    ("run p --liar 1", r#"run "p" 0 Own None 2 16 4 64 1 1000000 false None Some(Second)"#),
    ("run p --liar 2", r#"run "p" 0 Own None 2 16 4 64 1 1000000 false None Some(Third)"#),
    ("run --liar 01 p", r#"run "p" 0 Own None 2 16 4 64 1 1000000 false None Some(Second)"#),
    ("run --liar=0000000002 -- -x", r#"run "-x" 0 Own None 2 16 4 64 1 1000000 false None Some(Third)"#),
    ("run p --liar 1 --dump 3c:8 --cycles 9 --trace", r#"run "p" 0 Own None 2 16 4 64 1 9 true Some(DumpRange { addr: 60, len: 8 }) Some(Second)"#),
    ("run p --trace --port 6 --core echo --liar 0 --room 4096 --script s --width 4",
        r#"run "p" 4096 Echo Some(FileName { text: "s" }) 4 16 4 64 6 1000000 true None Some(First)"#),
    ("run --dump 0:1 p --core tape --window 8 --tape t --stores 6 --watchdog 16 --liar 2",
        r#"run "p" 0 Tape(FileName { text: "t" }) None 2 8 6 16 1 1000000 false Some(DumpRange { addr: 0, len: 1 }) Some(Third)"#),
    // Each core, and tapes of any name.
    ("run p --core lockstep", r#"run "p" 0 Lockstep None 2 16 4 64 1 1000000 false None None"#),
    ("run p --core scalar", r#"run "p" 0 Scalar None 2 16 4 64 1 1000000 false None None"#),
    ("run p --core flood", r#"run "p" 0 Flood None 2 16 4 64 1 1000000 false None None"#),
    ("run p --core echo", r#"run "p" 0 Echo None 2 16 4 64 1 1000000 false None None"#),
    ("run p --core noise", r#"run "p" 0 Noise None 2 16 4 64 1 1000000 false None None"#),
    ("run p --core tape --tape t", r#"run "p" 0 Tape(FileName { text: "t" }) None 2 16 4 64 1 1000000 false None None"#),
    ("run p --core tape --tape=", r#"run "p" 0 Tape(FileName { text: "" }) None 2 16 4 64 1 1000000 false None None"#),
    ("run p --core=tape --tape=x", r#"run "p" 0 Tape(FileName { text: "x" }) None 2 16 4 64 1 1000000 false None None"#),
    // Any word is a name.
    ("run -", r#"run "-" 0 Own None 2 16 4 64 1 1000000 false None None"#),
    ("run ''", r#"run "" 0 Own None 2 16 4 64 1 1000000 false None None"#),
    ("run -- -x", r#"run "-x" 0 Own None 2 16 4 64 1 1000000 false None None"#),
    ("run --width 2 -- -x", r#"run "-x" 0 Own None 2 16 4 64 1 1000000 false None None"#),
    ("run -- --help", r#"run "--help" 0 Own None 2 16 4 64 1 1000000 false None None"#),
};

/// Lines that are refused.
static REFUSED: [&str; 134] = laid! {
    // No command, and no help.
    "", "walk a", "help", "--help", "-h", "run a --help", "dis --help", "duo --help",
    // Words too few or too many.
    "run", "run a b", "run --", "run -x", "run a -- -x", "debug a", "debug a b c", "tape", "duo", "duo a b", "asm", "asm a b", "dis",
    "migrate", "migrate a b", "soak", "soak 1", "soak 1 1 1", "campaign", "campaign a", "campaign a 1 1",
    // Options of another command.
    "tape a --trace", "debug a b --width 1", "tape a --dump 0:4", "tape a --liar 0", "debug a b --liar 0", "duo a --script b",
    "duo a --tape t", "duo a --trace", "duo a --port 1", "duo a --liar 0", "asm a --core own", "asm a --port 1", "asm a --room 4096",
    "asm a --liar 0", "dis a --room 4096", "dis a --liar 0", "migrate p1.diva --core own", "migrate p1.diva --liar 0",
    "soak 1 1 --core own", "soak 1 1 --port 1", "soak 1 1 --room 4096", "soak 1 1 --liar 0", "campaign a 1 --core lockstep",
    "campaign a 1 --script b", "campaign a 1 --width 2", "campaign a 1 --room 4096", "campaign a 1 --liar 0",
    // Options twice, or without a value.
    "run a --trace --trace", "run a --trace true", "run a --trace=true", "run a --core own --core own", "run a --script",
    "run a --script b --script b", "run a --room 4 --room 4", "run a --liar", "run a --liar 1 --liar 1",
    "duo a --core scalar --core scalar", "duo a --core", "migrate a --room 4 --room 4", "migrate a --room",
    // Cores with a wrong tape.
    "run a --core vector", "run a --core tape", "run a --tape t", "run a --core lockstep --tape t", "run a --core noise --tape t",
    // Cores that a hart does not take.
    "duo a --core own", "duo a --core tape", "duo a --core tape --tape t", "duo a --core noise", "duo a --core=",
    // Numbers out of range.
    "run a --width 5", "run a --port 0", "run a --port 7", "run a --port x", "run a --room 16777216", "run a --room 16777213",
    "run a --room 2", "run a --room -4", "run a --room=-4", "run a --room 00000000004", "run a --room 0x4", "run a --liar 3",
    "run a --liar -1", "run a --liar=-1", "run a --liar x", "run a --liar ''", "run a --liar=", "run a --liar 00000000001",
    "tape a --room 16777216", "tape a --room 2",
    "duo a --width 5", "duo a --stores 7", "duo a --room 2", "duo a --room 16777216", "duo a --cycles 0", "duo a --dump fffffffc:5",
    "debug a b --room 2", "debug a b --room 16777216",
    "migrate a --room 16777216", "migrate a --room 16777213", "migrate a --room 2", "migrate a --room -4",
    "migrate a --room=", "run a --cycles 0", "run a --dump 8", "run a --dump 0:0", "run a --dump 123456789:1", "run a --dump fffffffc:5",
    "soak 1 0", "soak 1 65537", "soak 4294967296 1", "soak 00000000001 1", "soak -1 1", "soak 1 0x1", "soak '' 1", "campaign a 0",
    "campaign a 33", "campaign a 0x1", "campaign a -1", "campaign a ''", "campaign a 00000000001", "campaign a 1 --cycles 0",
    "campaign a 1 --cycles 100001", "campaign a 1 --cycles", "campaign a 1 --cycles 2 --cycles 2",
};

#[test]
fn lines_that_are_taken(rt: HostRuntime) -> Result<(), Fail> {
    for &(line, due) in &TAKEN {
        let job = read_words(rt.alloc(), &words_of(rt.alloc(), line)?)?;
        let text = text_of(rt.alloc(), &job)?;
        assert_eq!(rt; text.as_str(), due, "{line}");
    }
    Ok(())
}

#[test]
fn lines_that_are_refused(rt: HostRuntime) -> Result<(), Fail> {
    for line in &REFUSED {
        let fault = read_words(rt.alloc(), &words_of(rt.alloc(), line)?).err();
        assert_eq!(rt; fault, Some(ArgsFault::Usage), "{line}");
    }
    Ok(())
}

/// The words of a line, in which an empty word is written `''`.
fn words_of(alloc: Global, line: &str) -> Result<Vec<&str>, AllocError> {
    let mut words = Vec::new(alloc);
    for word in line.split(' ').filter(|word| !word.is_empty()) {
        words.push(if word == "''" { "" } else { word })?;
    }
    Ok(words)
}

/// What a job asks for, as `TAKEN` shows it.
fn text_of(alloc: Global, job: &Job) -> Result<String, AllocError> {
    match job {
        Job::Run(options) => run_text(alloc, options),
        Job::Tape(TapeOptions { setup, cycles }) => {
            let (setup, cycles) = (setup_text(alloc, setup)?, cycles.get());
            format!(in alloc; "tape {setup} {cycles}")
        }
        Job::Duo(options) => duo_text(alloc, options),
        Job::Debug(DebugOptions { setup, commands }) => {
            let setup = setup_text(alloc, setup)?;
            format!(in alloc; "debug {setup} {:?}", commands.as_str())
        }
        Job::Asm(source) => format!(in alloc; "asm {:?}", source.as_str()),
        Job::Dis(image) => format!(in alloc; "dis {:?}", image.as_str()),
        Job::Migrate(MigrateOptions { image, room }) => {
            format!(in alloc; "migrate {:?} {room}", image.as_str())
        }
        Job::Soak(SoakOptions { seed, instructions }) => {
            format!(in alloc; "soak {seed} {}", instructions.get())
        }
        Job::Campaign(
            CampaignOptions {
                image,
                last,
                cycles,
            },
        ) => {
            let (last, cycles) = (last.get(), cycles.get());
            format!(in alloc; "campaign {:?} {last} {cycles}", image.as_str())
        }
    }
}

fn run_text(alloc: Global, options: &RunOptions) -> Result<String, AllocError> {
    let setup = setup_text(alloc, &options.setup)?;
    let (cycles, trace) = (options.cycles.get(), options.trace);
    let (dump, liar) = (&options.dump, &options.liar);
    format!(in alloc; "run {setup} {cycles} {trace} {dump:?} {liar:?}")
}

fn setup_text(alloc: Global, setup: &Setup) -> Result<String, AllocError> {
    let (image, room) = (setup.image.as_str(), setup.room);
    let (core, script) = (&setup.core, &setup.script);
    let config = config_text(alloc, &setup.config)?;
    format!(in alloc; "{image:?} {room} {core:?} {script:?} {config}")
}

fn duo_text(alloc: Global, options: &DuoOptions) -> Result<String, AllocError> {
    let (image, room, core) = (options.image.as_str(), options.room, options.core);
    let config = config_text(alloc, &options.config)?;
    let (cycles, dump) = (options.cycles.get(), &options.dump);
    format!(in alloc; "duo {image:?} {room} {core:?} {config} {cycles} {dump:?}")
}

fn config_text(alloc: Global, config: &Config) -> Result<String, AllocError> {
    let (width, window) = (config.width(), config.window());
    let (stores, limit, port) = (config.stores(), config.limit(), config.port());
    format!(in alloc; "{width} {window} {stores} {limit} {port}")
}
