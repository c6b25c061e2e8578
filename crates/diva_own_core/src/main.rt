//! A whole program with a core of its own, to be copied. The core is right in every other claim.
#![tactic(auto)]

use diva_cli::top;
use diva_core::{Claims, Core, Told, View};
use diva_isa::{Record, record_of};
use diva_outside::{DiskFiles, StdSink};
use std::process::ExitCode;
use std::{env, io};

/// A core that waits until nothing is pending and there is room, and then claims the next
/// instruction. Its first claim is right, the second has a wrong bit, and so on in turn.
#[derive(Clone, Copy, Debug)]
struct Wavering {
    /// Whether the next claim will be wrong.
    lies: bool,
}

impl Core for Wavering {
    ghost use Rattle.std.specs.Prelude.{⊤};

    // Nothing is promised of what it hands over.
    ghost gives = { λ before told state list after. ⊤ };

    fn cycle(&mut self, told: &Told, view: &View<'_>, out: &mut Claims) {
        if told.pending == 0 && told.room > 0 {
            let due = record_of(view);
            let value = if self.lies { due.value ^ 1 } else { due.value };
            out.push(Record { value, ..due });
            self.lies = !self.lies;
        }
    }
}

/// Hands the words of the command line, the real files, standard output and the core to `top`, and
/// ends with the status that it answers. Where the words can't be taken, since one is not UTF-8 or
/// memory runs out, it says so on standard error and ends with 1.
fn main(rt: HostRuntime) -> io::Result<ExitCode> {
    let words: Vec<String> = env::args(&rt)?.skip(1).collect(rt.alloc())?;
    let mut texts = Vec::new(rt.alloc());
    for word in &words {
        texts.push(word.as_str())?;
    }
    let mut files = DiskFiles::new(&rt);
    let mut sink = StdSink::new(io::writer(&rt));
    let mut core = Wavering { lies: false };
    let status = top(rt.alloc(), &texts, &mut files, &mut sink, &mut core);
    Ok(ExitCode::from(status))
}
