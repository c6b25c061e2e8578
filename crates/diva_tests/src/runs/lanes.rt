// Runs in which three lanes vote, one of which lies: nothing of the text is another one for that.
use super::hostile::{OUTCOMES, spoiling_script};
use super::tables::{CORES, ROWS};
use super::texts::text_due;
use super::{
    Answer, FIVE_TEXT, Outside, ROOM, compare, file_name, five_files, run_program, words_of,
};
use diva_args::read_words;
use diva_cli::{LanePair, Lanes};
use diva_core::{Diff, Pending, View};
use diva_lab_args::{LabJob, read_lab_words};
use diva_ooo::Ooo;
use diva_outside::{MemFile, MemFiles, MemSink, What};
use diva_source::NoSource;
use diva_test_programs::{FIVE_FILE, Program, image_file};
use diva_vote::{Lane, Stage, check};
use diva_workbench::lab_work;
use std::alloc::Global;
use std::process::Abort;
use std::test::Fail;

/// The places of the liar.
const PLACES: [&str; 3] = ["0", "1", "2"];

/// `FIVE` claimed one by one, and the same where the first claim's value is wrong: with a liar in each place it is what is due
/// without.
#[test]
fn programs_with_a_liar(rt: HostRuntime) -> Result<(), Fail> {
    let alloc = rt.alloc();
    let misled = &ROWS[2];
    for place in PLACES {
        let line = format!(in alloc; "run a.diva --core lockstep --liar {place}")?;
        compare(&rt, line.as_str(), five_files(alloc)?, 0, FIVE_TEXT)?;
        let line = format!(in alloc;
            "run a.diva --liar {place} --core lockstep --script a.script"
        )?;
        let outside = five_files(alloc)?.with(What::Script, misled.script)?;
        let text = text_due(alloc, misled)?;
        compare(&rt, line.as_str(), outside, 0, text.as_str())?;
    }
    Ok(())
}

/// What the program answers of a run under a core, with these options besides.
fn answer_of(
    alloc: Global,
    program: Program,
    script: &str,
    core: &str,
    options: &str,
) -> Result<Answer, Fail> {
    let outside = Outside::sound(alloc, image_file(alloc, program)?).with(
        What::Script,
        script.as_bytes(),
    )?;
    let line = format!(in alloc; "run a.diva --trace --core {core} {options}")?;
    run_program(&mut Ooo::new(alloc)?, line.as_str(), outside)
}

/// Runs a program under a core with a liar in each place, and compares all that is answered with what is answered without one.
fn compare_places(
    rt: &impl Abort,
    alloc: Global,
    program: Program,
    script: &str,
    core: &str,
    options: &str,
) -> Result<(), Fail> {
    let plain = answer_of(alloc, program, script, core, options)?;
    for place in PLACES {
        let with_liar = format!(in alloc; "{options} --liar {place}")?;
        let answer = answer_of(alloc, program, script, core, with_liar.as_str())?;
        assert_eq!(rt; answer.status, plain.status, "{core} {with_liar}");
        assert_eq!(rt;
            str::from_utf8(&answer.text)?,
            str::from_utf8(&plain.text)?,
            "{core} {with_liar}"
        );
        assert_eq!(rt;
            answer.puts.as_slice(),
            plain.puts.as_slice(),
            "{core} {with_liar}"
        );
    }
    Ok(())
}

/// Each core, and each core under a script that spoils a claim of each cycle.
#[test]
fn no_text_tells_of_a_liar(rt: HostRuntime) -> Result<(), Fail> {
    let alloc = rt.alloc();
    let script = spoiling_script(alloc)?;
    for outcome in &OUTCOMES {
        for core in CORES {
            for options in ["", "--script a.script"] {
                compare_places(&rt, alloc, outcome.program, script.as_str(), core, options)?;
            }
        }
    }
    Ok(())
}

/// Counts what it is asked, and answers as the checks do.
#[derive(Clone, Copy, Debug, Drop)]
struct Counter {
    asked: u64,
}

impl Lane for Counter {
    ghost use Rattle.std.specs.Prelude.{⊤};
    ghost use Rattle.diva_vote.specs.Questions.{IsAnswer};

    ghost says = { λ before q answer after. IsAnswer q answer };

    ghost honest = { λ lane. ⊤ };

    ghost keeps = { λ lane q answer after honest said. (said, tt) };

    fn judge(
        &mut self,
        stage: Stage,
        pending: &Pending,
        at: usize,
        view: &View<'_>,
    ) -> Option<Diff> {
        self.asked = self.asked.saturating_add(1);
        check(stage, pending, at, view)
    }
}

/// The two lanes of a place, of which none was asked yet.
fn new_pair() -> LanePair<Counter> {
    LanePair {
        honest: Counter { asked: 0 },
        liar: Counter { asked: 0 },
    }
}

/// The job that a command line over the files of `FIVE` asks for.
fn job_of(alloc: Global, line: &str) -> Result<LabJob, Fail> {
    let words = words_of(alloc, line)?;
    if line.starts_with("log") || line.starts_with("draw") {
        Ok(read_lab_words(alloc, &words)?)
    } else {
        Ok(LabJob::Diva(read_words(alloc, &words)?))
    }
}

/// Files of which one is there: the image of `FIVE`.
fn five_alone(alloc: Global) -> Result<MemFiles, Fail> {
    let name = String::from_str(alloc, file_name(What::Image))?;
    let bytes = Vec::from_slice(alloc, &FIVE_FILE)?;
    let mut there = Vec::new(alloc);
    there.push(MemFile::new(name, bytes))?;
    Ok(MemFiles::new(there, Vec::new(alloc)))
}

/// Does a job over these files and lanes.
fn do_job(
    alloc: Global,
    job: LabJob,
    files: &mut MemFiles,
    lanes: &mut Lanes<Counter>,
) -> Result<(), Fail> {
    let mut sink = MemSink::new(alloc, ROOM, Vec::new(alloc))?;
    let mut core = Ooo::new(alloc)?;
    let mut source = NoSource::new();
    lab_work(alloc, job, files, &mut sink, &mut core, &mut source, lanes)?;
    Ok(())
}

/// How often the honest lane and the liar of a place were asked.
fn counts_of(pair: &LanePair<Counter>) -> (u64, u64) {
    (pair.honest.asked, pair.liar.asked)
}

/// The same of each place, where the program did a job.
fn asked_by(alloc: Global, line: &str) -> Result<[(u64, u64); 3], Fail> {
    let mut lanes = Lanes {
        first: new_pair(),
        second: new_pair(),
        third: new_pair(),
    };
    let mut files = five_alone(alloc)?;
    do_job(alloc, job_of(alloc, line)?, &mut files, &mut lanes)?;
    Ok([
        counts_of(&lanes.first),
        counts_of(&lanes.second),
        counts_of(&lanes.third),
    ])
}

/// Three claims at four stages are twelve questions to each of the three lanes that are asked: the liar at its place, and the honest
/// one at each other. Without the option, and by every other command, no lane is asked.
#[test]
fn lanes_that_are_asked(rt: HostRuntime) -> Result<(), Fail> {
    let alloc = rt.alloc();
    for command in ["run", "run --trace", "log", "draw"] {
        let options = "a.diva --core lockstep";
        let without = format!(in alloc; "{command} {options}")?;
        assert_eq!(rt;
            asked_by(alloc, without.as_str())?,
            [(0, 0); 3],
            "{command}"
        );
        for (place, asked) in [
            (0, [(0, 12), (12, 0), (12, 0)]),
            (1, [(12, 0), (0, 12), (12, 0)]),
            (2, [(12, 0), (12, 0), (0, 12)]),
        ] {
            let line = format!(in alloc; "{command} {options} --liar {place}")?;
            assert_eq!(rt; asked_by(alloc, line.as_str())?, asked, "{line}");
        }
    }
    for line in [
        "tape a.diva --core lockstep",
        "campaign a.diva 1",
        "duo a.diva",
        "dis a.diva",
        "migrate a.diva",
        "soak 1 1",
    ] {
        assert_eq!(rt; asked_by(alloc, line)?, [(0, 0); 3], "{line}");
    }
    Ok(())
}
