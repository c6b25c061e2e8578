// Files that note each load, and a sink that notes each put.
ghost use Rattle.std.specs.Prelude.{◌≤◌};

use diva_outside::{Files, LoadFault, MemFiles, MemSink, Sink, SinkFailed, What};
use std::alloc::{AllocError, Global};

/// A load: the kind of file that was asked for, and the name.
#[derive(Debug, Drop)]
pub(super) struct Load {
    pub what: What,
    pub name: String,
}

/// Files in memory that note each load, also one that fails.
#[derive(Drop)]
pub(super) struct NotingFiles {
    files: MemFiles,
    loads: Vec<Load>,
}

impl NotingFiles {
    /// These files, with no load noted so far.
    pub(super) fn new(alloc: Global, files: MemFiles) -> Self {
        NotingFiles {
            files,
            loads: Vec::new(alloc),
        }
    }

    /// The loads, in order.
    pub(super) fn into_loads(self) -> Vec<Load> {
        self.loads
    }
}

impl Files for NotingFiles {
    ghost use Rattle.diva_outside.specs.MemFiles.{account_of};

    ghost account = { λ noting. account_of noting.files };

    fn load(
        &mut self,
        alloc: Global,
        what: What,
        name: &str,
        limit: usize,
    ) -> Result<Vec<u8>, LoadFault> {
        self.loads.push(Load {
            what,
            name: String::from_str(alloc, name)?,
        })?;
        self.files.load(alloc, what, name, limit)
    }
}

/// The puts for which a sink takes memory when it is made.
const ROOM: usize = 1 << 12;

/// A sink in memory that notes the length of each put, also of an empty one and of one that fails.
#[derive(Drop)]
pub(super) struct NotingSink {
    sink: MemSink,
    puts: Vec<usize>,
    unnoted: u64,
}

impl NotingSink {
    /// This sink, with no put noted so far. The error: out of memory.
    pub(super) fn new(alloc: Global, sink: MemSink) -> Result<Self, AllocError> {
        Ok(NotingSink {
            sink,
            puts: Vec::with_capacity(alloc, ROOM)?,
            unnoted: 0,
        })
    }

    /// The bytes that were taken.
    pub(super) fn bytes(&self) -> &[u8] {
        self.sink.bytes()
    }

    /// The lengths of the puts, in order, `None` where there was no memory to note one.
    pub(super) fn puts(&self) -> Option<&[usize]> {
        if self.unnoted == 0 {
            Some(&self.puts)
        } else {
            None
        }
    }
}

impl Sink for NotingSink {
    ghost use Rattle.diva_outside.specs.MemSink.{account_of};

    ghost account = { λ noting. account_of noting.sink };

    fn put(&mut self, piece: &[u8]) -> Result<(), SinkFailed> {
        if self.puts.push(piece.len()).is_err() {
            self.unnoted = self.unnoted.saturating_add(1);
        }
        self.sink.put(piece)
    }
}
