// Logs of the program `FIVE`, judged by the workbench.
mod failing;
mod rows;

use diva_ooo::Ooo;
use diva_outside::{Fail as SinkFail, MemFile, MemFiles, MemSink};
use diva_source::MemSource;
use diva_test_programs::FIVE_FILE;
use diva_workbench::{Hands, lab_top};
use std::alloc::Global;
use std::test::Fail;

/// How many bytes the sink has room for.
const ROOM: usize = 4096;

/// What the workbench is handed besides its words.
#[derive(Clone, Copy)]
struct Outside<'a> {
    /// The log of the name `a.log`.
    log: &'a [u8],
    /// How many bytes a read of it gives at most.
    piece: usize,
    /// The calls of the source that fail, from 1 on; the first one opens the log.
    failing_reads: &'a [u64],
    /// The puts that fail, from 1 on, each of which takes nothing.
    failing_puts: &'a [u64],
}

/// The status of the workbench, and what it put.
#[derive(Drop)]
struct Answer {
    status: u8,
    text: Vec<u8>,
}

/// What the workbench answers to words that blanks separate.
fn judged(alloc: Global, line: &str, outside: &Outside<'_>) -> Result<Answer, Fail> {
    let mut words = Vec::new(alloc);
    for word in line.split(' ') {
        words.push(word)?;
    }
    let mut files = MemFiles::new(one_file(alloc, "a.diva", &FIVE_FILE)?, Vec::new(alloc));
    let logs = one_file(alloc, "a.log", outside.log)?;
    let mut hands = Hands {
        core: Ooo::new(alloc)?,
        source: MemSource::new(&logs, outside.piece.max(1), outside.failing_reads),
    };
    let mut sink = MemSink::new(alloc, ROOM, failing_calls(alloc, outside.failing_puts)?)?;
    let status = lab_top(alloc, &words, &mut files, &mut sink, &mut hands);
    Ok(Answer {
        status,
        text: Vec::from_slice(alloc, sink.bytes())?,
    })
}

/// One file with this name and these bytes.
fn one_file(alloc: Global, name: &str, bytes: &[u8]) -> Result<Vec<MemFile>, Fail> {
    let mut files = Vec::new(alloc);
    files.push(MemFile::new(
        String::from_str(alloc, name)?,
        Vec::from_slice(alloc, bytes)?,
    ))?;
    Ok(files)
}

/// Puts that fail, and take nothing.
fn failing_calls(alloc: Global, calls: &[u64]) -> Result<Vec<SinkFail>, Fail> {
    let mut fails = Vec::new(alloc);
    for call in calls {
        fails.push(SinkFail {
            call: *call,
            takes: 0,
        })?;
    }
    Ok(fails)
}
