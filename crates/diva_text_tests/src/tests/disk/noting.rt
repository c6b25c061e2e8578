// A disk and a writer that note what is asked of them, and fail as they are told.
use std::alloc::Allocator;
use std::cell::Cell;
use std::fs::{Metadata, OpenFile, OpenOptions};
use std::io;
use std::io::{Error, ErrorKind, Read, Seek, SeekFrom, Write};
use std::rt::Files;

/// Calls that fail, by their number from 1 on, each with the kind of its error.
pub type Fails = &'static [(u32, ErrorKind)];

/// How the call fails, if it is one of these.
fn failure(fails: Fails, call: u32) -> Option<Error> {
    for &(failing, kind) in fails {
        if failing == call {
            return Some(Error::from(kind));
        }
    }
    None
}

/// What was asked of a disk that has one file, the bytes of which go by their places.
#[derive(Drop)]
pub struct Disk {
    pub size: usize,
    pub fails: Fails,
    /// How often the file was opened, something else was asked, and the file was read.
    pub opens: Cell<u32>,
    pub others: Cell<u32>,
    pub reads: Cell<u32>,
}

/// The name of the one file.
pub const NAME: &str = "a.bytes";

/// The byte at a place.
pub fn byte_at(place: usize) -> u8 {
    (place % 251) as u8
}

impl Disk {
    pub fn new(size: usize, fails: Fails) -> Disk {
        Disk {
            size,
            fails,
            opens: Cell::new(0),
            others: Cell::new(0),
            reads: Cell::new(0),
        }
    }
}

/// The disk as a runtime opens its files.
#[derive(Drop)]
pub struct Opener<'a> {
    pub disk: &'a Disk,
}

impl Opener<'_> {
    /// Something else was asked of the disk.
    fn other(&self) -> Error {
        let others = &self.disk.others;
        others.set(others.get().saturating_add(1));
        Error::from(ErrorKind::NotFound)
    }
}

/// The file, and how many of its bytes were read.
#[derive(Drop)]
pub struct Opened<'a> {
    disk: &'a Disk,
    place: usize,
}

impl<'a> Files for Opener<'a> {
    type File = Opened<'a>;

    type Dir = Opened<'a>;

    fn open_file(&self, how: &OpenOptions, path: &str) -> io::Result<Opened<'a>> {
        if path != NAME || !how.asks_read() {
            return Err(self.other());
        }
        let opens = &self.disk.opens;
        opens.set(opens.get().saturating_add(1));
        Ok(Opened {
            disk: self.disk,
            place: 0,
        })
    }

    fn open_dir(&self, _path: &str) -> io::Result<Opened<'a>> {
        Err(self.other())
    }

    fn metadata(&self, _path: &str) -> io::Result<Metadata> {
        Err(self.other())
    }

    fn symlink_metadata(&self, _path: &str) -> io::Result<Metadata> {
        Err(self.other())
    }

    fn copy(&self, _from: &str, _to: &str) -> io::Result<u64> {
        Err(self.other())
    }

    fn rename(&self, _from: &str, _to: &str) -> io::Result<()> {
        Err(self.other())
    }

    fn remove_file(&self, _path: &str) -> io::Result<()> {
        Err(self.other())
    }

    fn create_dir(&self, _path: &str) -> io::Result<()> {
        Err(self.other())
    }

    fn remove_dir(&self, _path: &str) -> io::Result<()> {
        Err(self.other())
    }

    fn remove_dir_all<B: Allocator>(&self, _alloc: B, _path: &str) -> io::Result<()> {
        Err(self.other())
    }
}

impl Read for Opened<'_> {
    fn read(&mut self, buf: &mut [u8]) -> io::Result<usize> {
        let call = self.disk.reads.get().saturating_add(1);
        self.disk.reads.set(call);
        if let Some(error) = failure(self.disk.fails, call) {
            return Err(error);
        }
        let count = buf.len().min(self.disk.size.saturating_sub(self.place));
        for byte in &mut buf[..count] {
            *byte = byte_at(self.place);
            self.place = self.place.saturating_add(1);
        }
        Ok(count)
    }
}

impl Write for Opened<'_> {
    fn write(&mut self, _buf: &[u8]) -> io::Result<usize> {
        Err(Error::from(ErrorKind::Unsupported))
    }

    fn flush(&mut self) -> io::Result<()> {
        Err(Error::from(ErrorKind::Unsupported))
    }
}

impl Seek for Opened<'_> {
    fn seek(&mut self, _to: SeekFrom) -> io::Result<u64> {
        Err(Error::from(ErrorKind::Unsupported))
    }
}

impl OpenFile for Opened<'_> {
    fn metadata(&self) -> io::Result<Metadata> {
        Err(Error::from(ErrorKind::Unsupported))
    }

    fn set_len(&self, _size: u64) -> io::Result<()> {
        Err(Error::from(ErrorKind::Unsupported))
    }

    fn sync_all(&self) -> io::Result<()> {
        Err(Error::from(ErrorKind::Unsupported))
    }

    fn sync_data(&self) -> io::Result<()> {
        Err(Error::from(ErrorKind::Unsupported))
    }
}

/// A writer that takes three bytes a write at most, and keeps them; with room for six it takes no more then.
#[derive(Drop)]
pub struct Writer {
    pub bytes: [u8; 6],
    pub taken: usize,
    pub calls: u32,
    pub fails: Fails,
}

impl Writer {
    pub fn new(fails: Fails) -> Writer {
        Writer {
            bytes: [b'.'; 6],
            taken: 0,
            calls: 0,
            fails,
        }
    }
}

impl Write for Writer {
    fn write(&mut self, buf: &[u8]) -> io::Result<usize> {
        self.calls = self.calls.saturating_add(1);
        if let Some(error) = failure(self.fails, self.calls) {
            return Err(error);
        }
        let room = &mut self.bytes[self.taken.min(6)..];
        let count = buf.len().min(3).min(room.len());
        room[..count].copy_from_slice(&buf[..count]);
        self.taken = self.taken.saturating_add(count);
        Ok(count)
    }

    fn flush(&mut self) -> io::Result<()> {
        Ok(())
    }
}
