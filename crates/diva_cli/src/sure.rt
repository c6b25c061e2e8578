// The program over files and a sink that never fail.
ghost use Rattle.diva_process.specs.Programs.{asked_by};
ghost use Rattle.diva_process.specs.Statuses.{IsNumberOf};
ghost use Rattle.diva_cli.specs.Program.{diva, own_work};
ghost use Rattle.diva_cli.specs.Sure.{IsSure, sure_files};

use crate::program::top;
use diva_core::Core;
use diva_outside::{MemFile, SureFiles, SureSink};
use std::alloc::Global;

/// The program if neither files nor sink fail, and the number of its status, which is neither `Unread` nor `Cut`. What
/// [`top`](crate::top) promises of the others holds, but that nobody sees the text.
pub fn top_sure<C: Core>(alloc: Global, words: &[&str], files: Vec<MemFile>, core: &mut C) -> u8
    ensures { IsNumberOf (IsSure (asked_by diva words.now) (own_work C.gives core.old core.new) (sure_files files.items)) result }
{
    let mut files = SureFiles::new(files);
    top(alloc, words, &mut files, &mut SureSink, core)
}
