// Lines of the workbench that are taken, and lines that it refuses.
use super::{run_text, setup_text, text_of, words_of};
use diva_args::{ArgsFault, read_words};
use diva_inject::Choice;
use diva_lab_args::{DrawOptions, InjectOptions, JudgeOptions, LabJob, read_lab_words};
use diva_test_programs::laid;
use std::alloc::{AllocError, Global};
use std::fmt::Debug;
use std::test::Fail;

/// Lines with what they ask for, as `TAKEN` of the other program has them. After the cycles of `inject` stand how many faults there are,
/// their seed, models and fields, the first and the last cycle in which one can begin, the part, and the first that is run.
static TAKEN: [(&str, &str); 13] = laid! {
    ("judge p1.diva -", r#"judge "p1.diva" 0 Own None 2 16 4 64 1 "-" None false"#),
    ("judge --stop 4294967295 p --answer a.log --width 1 --room 8 --port 6", r#"judge "p" 8 Own None 1 16 4 64 6 "a.log" Some(4294967295) true"#),
    ("log p1.diva", r#"Log of run "p1.diva" 0 Own None 2 16 4 64 1 1000000 false None None"#),
    ("draw --cycles 9 p1.diva --core silent --script faults.txt",
        r#"Drawing { from: 1, to: 1000000000 } of run "p1.diva" 0 Silent Some(FileName { text: "faults.txt" }) 2 16 4 64 1 9 false None None"#),
    ("draw p --from 90000 --to 90000 --cycles 100000",
        r#"Drawing { from: 90000, to: 90000 } of run "p" 0 Own None 2 16 4 64 1 100000 false None None"#),
    ("draw --to 1000000000 p --from 1000000000",
        r#"Drawing { from: 1000000000, to: 1000000000 } of run "p" 0 Own None 2 16 4 64 1 1000000 false None None"#),
    ("run --trace p", r#"run "p" 0 Own None 2 16 4 64 1 1000000 true None None"#),
    ("tape p --cycles 9", r#"tape "p" 0 Own None 2 16 4 64 1 9"#),
    ("inject p1.diva 1 0",
        r#"inject "p1.diva" 0 Own None 2 16 4 64 1 1000000 1 0 [Flip] [Pc, Word, Src1, Src2, Addr, Value, Next, End] None None Part { index: 0, of: 1 } 0"#),
    ("inject --model stuck,flip,stuck --fields end,pc p 4294967295 --from 3 7 --to 3 --part 2/3 --first 4294967295 --cycles 9 --room 8 --port 6",
        r#"inject "p" 8 Own None 2 16 4 64 6 9 4294967295 7 [Stuck, Flip, Stuck] [End, Pc] Some(3) Some(3) Part { index: 2, of: 3 } 4294967295"#),
    ("inject p 5 4294967295 --core silent --script s --model flip,set,lose,double,hush,stuck --fields value --to 9 --part 0/4294967295",
        r#"inject "p" 0 Silent Some(FileName { text: "s" }) 2 16 4 64 1 1000000 5 4294967295 [Flip, Set, Lose, Double, Hush, Stuck] [Value] None Some(9) Part { index: 0, of: 4294967295 } 0"#),
    ("rate a.text", r#"rate [FileName { text: "a.text" }]"#),
    ("rate - b '' -- -c --", r#"rate [FileName { text: "-" }, FileName { text: "b" }, FileName { text: "" }, FileName { text: "-c" }, FileName { text: "--" }]"#),
};

/// Lines that are refused.
static REFUSED: [&str; 42] = laid! {
    "", "log", "log p --trace", "draw p --dump 0:4", "log draw p", "Log p", "draw p --cycles 0", "draw p --core silent --cycles 9 q",
    "draw p --from 0", "draw p --to 0", "draw p --from 90000 --to 89999", "draw p --to 1000000001", "draw p --from 3 --from 3",
    "log p --from 1", "run p --to 9", "judge p", "judge p l --stop 0", "judge p l --stop 4294967296", "judge p l --core own", "judge p l --answer 1",
    "inject p", "inject p 1", "inject p 0 1", "inject p 1 4294967296", "inject p 1 1 2", "inject p 1 1 --trace", "inject p 1 1 --dump 0:4", "inject p 1 1 --liar 0",
    "inject p 1 1 --model flop", "inject p 1 1 --model flip,", "inject p 1 1 --model flip,flip,flip,flip,flip,flip,flip", "inject p 1 1 --fields pc,,end",
    "inject p 1 1 --from 0", "inject p 1 1 --to 1000000001", "inject p 1 1 --from 4 --to 3", "inject p 1 1 --part 1/1", "inject p 1 1 --part 1", "inject p 1 1 --first 4294967296",
    "rate", "rate --", "rate a -b", "rate --first 1 a",
};

#[test]
fn lines_of_the_workbench(rt: HostRuntime) -> Result<(), Fail> {
    for &(line, due) in &TAKEN {
        let job = read_lab_words(rt.alloc(), &words_of(rt.alloc(), line)?)?;
        let text = lab_text_of(rt.alloc(), &job)?;
        assert_eq!(rt; text.as_str(), due, "{line}");
    }
    for line in &REFUSED {
        let fault = read_lab_words(rt.alloc(), &words_of(rt.alloc(), line)?).err();
        assert_eq!(rt; fault, Some(ArgsFault::Usage), "{line}");
    }
    for line in [
        "log p",
        "draw p",
        "draw p --to 9",
        "run p --from 1",
        "judge p l",
        "inject p 1 1",
        "rate a",
    ] {
        let fault = read_words(rt.alloc(), &words_of(rt.alloc(), line)?).err();
        assert_eq!(rt; fault, Some(ArgsFault::Usage), "{line}");
    }
    Ok(())
}

/// What a job asks for, as `TAKEN` shows it.
fn lab_text_of(alloc: Global, job: &LabJob) -> Result<String, AllocError> {
    match job {
        LabJob::Diva(job) => text_of(alloc, job),
        LabJob::Draw(DrawOptions { run, format }) => {
            let run = run_text(alloc, run)?;
            format!(in alloc; "{format:?} of {run}")
        }
        LabJob::Judge(
            JudgeOptions {
                setup,
                log,
                stop,
                answers,
            },
        ) => {
            let setup = setup_text(alloc, setup)?;
            format!(in alloc; "judge {setup} {:?} {stop:?} {answers}", log.as_str())
        }
        LabJob::Inject(options) => inject_text(alloc, options),
        LabJob::Rate(names) => format!(in alloc; "rate {:?}", names.as_slice()),
    }
}

/// What the words of `inject` ask for, as `TAKEN` shows it.
fn inject_text(alloc: Global, options: &InjectOptions) -> Result<String, AllocError> {
    let setup = setup_text(alloc, &options.setup)?;
    let (cycles, count, seed) = (options.cycles.get(), options.count.get(), options.seed);
    let models = items_text(alloc, &options.models)?;
    let fields = items_text(alloc, &options.fields)?;
    let from = options.from.map(|cycle| cycle.get());
    let to = options.to.map(|cycle| cycle.get());
    let (part, first) = (options.part, options.first);
    format!(in alloc;
        "inject {setup} {cycles} {count} {seed} {models} {fields} {from:?} {to:?} {part:?} {first}"
    )
}

/// The items in their order.
fn items_text<T: Copy + Debug, const MOST: usize>(
    alloc: Global,
    items: &Choice<T, MOST>,
) -> Result<String, AllocError> {
    let mut listed = Vec::new(alloc);
    for place in 0..items.len() {
        listed.push(items.pick(place as u64))?;
    }
    format!(in alloc; "{:?}", listed.as_slice())
}
