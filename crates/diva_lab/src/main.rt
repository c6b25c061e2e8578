//! The workbench: `diva_lab log IMAGE`, `draw IMAGE`, `judge IMAGE LOG`, `inject IMAGE COUNT SEED`, `rate FILE..`, and all that `diva` does,
//! over the real files and standard output.
//!
//! All that it does is `lab_top` of `diva_workbench`; this crate hands in the files of the disk, standard
//! output and a core, and ends with the status that `lab_top` answers.
#![tactic(auto)]

use diva_ooo::Ooo;
use diva_outside::{DiskFiles, StdSink};
use diva_process::{Status, borrowed};
use diva_source::DiskSource;
use diva_workbench::{Hands, lab_top};
use std::alloc::AllocError;
use std::process::ExitCode;
use std::{env, io};

fn main(rt: HostRuntime) -> ExitCode {
    ExitCode::from(run(&rt).unwrap_or(Status::NoMemory.number()))
}

/// Runs the program on the process's own words, the real files and standard output, and answers the number of its status; its own core is
/// the out-of-order one. The error: out of memory.
fn run(rt: &HostRuntime) -> Result<u8, AllocError> {
    let words = own_words(rt)?;
    let texts = borrowed(rt.alloc(), &words)?;
    let mut files = DiskFiles::new(rt);
    let mut sink = StdSink::new(io::writer(rt));
    let mut hands = Hands {
        core: Ooo::new(rt.alloc())?,
        source: DiskSource::new(rt),
    };
    Ok(lab_top(rt.alloc(), &texts, &mut files, &mut sink, &mut hands))
}

/// The words of the process, without its name. If one of them is not UTF-8 they are not a valid command line: no words stand for them.
fn own_words(rt: &HostRuntime) -> Result<Vec<String>, AllocError> {
    match env::args(rt) {
        Ok(args) => args.skip(1).collect(rt.alloc()),
        Err(error) => match error.kind() {
            io::ErrorKind::OutOfMemory => Err(AllocError),
            _ => Ok(Vec::new(rt.alloc())),
        },
    }
}
