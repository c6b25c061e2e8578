// A disk with one file, and a standard input, whose reads fail as they are told.
use std::alloc::Allocator;
use std::cell::Cell;
use std::fs::{Metadata, OpenFile, OpenOptions};
use std::io;
use std::io::{BufRead, Error, ErrorKind, Input, Lines, Read, Seek, SeekFrom, Write};
use std::rt::Files;

/// Reads that fail, by their number from 1 on, each with the kind of its error.
pub type Fails = &'static [(u32, ErrorKind)];

/// The name of the one file.
const NAME: &str = "a.log";

/// What the file has, and standard input.
const TEXT: &[u8] = b"ab cd";

/// The disk and the input, and how often the file was opened, the input was taken, and either was read.
#[derive(Drop)]
pub struct Flaky {
    fails: Fails,
    opens: Cell<u32>,
    inputs: Cell<u32>,
    reads: Cell<u32>,
}

impl Flaky {
    pub fn new(fails: Fails) -> Flaky {
        Flaky {
            fails,
            opens: Cell::new(0),
            inputs: Cell::new(0),
            reads: Cell::new(0),
        }
    }

    /// How often the file was opened, the input was taken, and either was read.
    pub fn asked(&self) -> (u32, u32, u32) {
        (self.opens.get(), self.inputs.get(), self.reads.get())
    }
}

/// The disk and the input as a runtime has them.
#[derive(Drop)]
pub struct Opener<'a> {
    pub flaky: &'a Flaky,
}

/// A reader of the file or of the input, and how many bytes it gave.
#[derive(Drop)]
pub struct Opened<'a> {
    flaky: &'a Flaky,
    place: usize,
}

fn unsupported() -> Error {
    Error::from(ErrorKind::Unsupported)
}

impl Read for Opened<'_> {
    fn read(&mut self, buf: &mut [u8]) -> io::Result<usize> {
        let call = self.flaky.reads.get().saturating_add(1);
        self.flaky.reads.set(call);
        for &(failing, kind) in self.flaky.fails {
            if failing == call {
                return Err(Error::from(kind));
            }
        }
        let rest = &TEXT[self.place.min(TEXT.len())..];
        let count = buf.len().min(rest.len());
        buf[..count].copy_from_slice(&rest[..count]);
        self.place = self.place.saturating_add(count);
        Ok(count)
    }
}

impl Write for Opened<'_> {
    fn write(&mut self, _buf: &[u8]) -> io::Result<usize> {
        Err(unsupported())
    }

    fn flush(&mut self) -> io::Result<()> {
        Err(unsupported())
    }
}

impl Seek for Opened<'_> {
    fn seek(&mut self, _to: SeekFrom) -> io::Result<u64> {
        Err(unsupported())
    }
}

impl OpenFile for Opened<'_> {
    fn metadata(&self) -> io::Result<Metadata> {
        Err(unsupported())
    }

    fn set_len(&self, _size: u64) -> io::Result<()> {
        Err(unsupported())
    }

    fn sync_all(&self) -> io::Result<()> {
        Err(unsupported())
    }

    fn sync_data(&self) -> io::Result<()> {
        Err(unsupported())
    }
}

impl BufRead for Opened<'_> {
    fn fill_buf(&mut self) -> io::Result<&[u8]> {
        Err(unsupported())
    }

    fn consume(&mut self, _amount: usize) {}
}

impl<'a> Input for Opener<'a> {
    type Reader = Opened<'a>;

    fn read_line<A: Allocator + Clone>(&self, _buf: &mut String<A>) -> io::Result<usize> {
        Err(unsupported())
    }

    fn lines<A: Allocator>(&self, alloc: A) -> Lines<Opened<'a>, A> {
        self.reader().lines(alloc)
    }

    fn reader(&self) -> Opened<'a> {
        let inputs = &self.flaky.inputs;
        inputs.set(inputs.get().saturating_add(1));
        Opened {
            flaky: self.flaky,
            place: 0,
        }
    }
}

impl<'a> Files for Opener<'a> {
    type File = Opened<'a>;

    type Dir = Opened<'a>;

    fn open_file(&self, how: &OpenOptions, path: &str) -> io::Result<Opened<'a>> {
        if path != NAME || !how.asks_read() {
            return Err(Error::from(ErrorKind::NotFound));
        }
        let opens = &self.flaky.opens;
        opens.set(opens.get().saturating_add(1));
        Ok(Opened {
            flaky: self.flaky,
            place: 0,
        })
    }

    fn open_dir(&self, _path: &str) -> io::Result<Opened<'a>> {
        Err(unsupported())
    }

    fn metadata(&self, _path: &str) -> io::Result<Metadata> {
        Err(unsupported())
    }

    fn symlink_metadata(&self, _path: &str) -> io::Result<Metadata> {
        Err(unsupported())
    }

    fn copy(&self, _from: &str, _to: &str) -> io::Result<u64> {
        Err(unsupported())
    }

    fn rename(&self, _from: &str, _to: &str) -> io::Result<()> {
        Err(unsupported())
    }

    fn remove_file(&self, _path: &str) -> io::Result<()> {
        Err(unsupported())
    }

    fn create_dir(&self, _path: &str) -> io::Result<()> {
        Err(unsupported())
    }

    fn remove_dir(&self, _path: &str) -> io::Result<()> {
        Err(unsupported())
    }

    fn remove_dir_all<B: Allocator>(&self, _alloc: B, _path: &str) -> io::Result<()> {
        Err(unsupported())
    }
}
