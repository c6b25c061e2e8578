// What `DiskFiles` asks of a disk, and `StdSink` of a writer, where reads and writes fail.
mod noting;

use diva_outside::{DiskFiles, Files, LoadFault, Sink, SinkFailed, StdSink, What};
use diva_test_programs::laid;
use noting::{Disk, Fails, NAME, Opener, Writer, byte_at};
use std::io::ErrorKind;
use std::test::Fail as TestFail;

/// How many bytes a file may have, by the formats: those of the longest image.
const MOST: usize = 16_777_368;

/// A name, how many bytes the file has, which of its reads fail, and what a load of at most `MOST` bytes answers: nothing,
/// where it is the whole file. Then how often the file is opened, how much else is asked of the disk, and, where a read failed
/// for good, how many reads there are.
static LOADS: [(
    &str,
    usize,
    Fails,
    Option<LoadFault>,
    (u32, u32),
    Option<u32>,
); 9] = laid! {
    (NAME, 0, &[], None, (1, 0), None),
    (NAME, MOST, &[], None, (1, 0), None),
    (NAME, MOST + 1, &[], Some(LoadFault::TooLong), (1, 0), None),
    ("a", 3, &[], Some(LoadFault::Failed), (0, 1), Some(0)),
    (NAME, 3, &[(1, ErrorKind::Interrupted)], None, (1, 0), None),
    (NAME, 9_000, &[(2, ErrorKind::Interrupted), (3, ErrorKind::Interrupted), (5, ErrorKind::Interrupted)], None, (1, 0), None),
    (NAME, 3, &[(1, ErrorKind::WouldBlock)], Some(LoadFault::Failed), (1, 0), Some(1)),
    (NAME, 9_000, &[(2, ErrorKind::Interrupted), (3, ErrorKind::TimedOut)], Some(LoadFault::Failed), (1, 0), Some(3)),
    (NAME, 9_000, &[(3, ErrorKind::Other)], Some(LoadFault::Failed), (1, 0), Some(3)),
};

/// The file is opened once, by its name and by no other, and read to its end. A read that a signal interrupted is tried again,
/// and no other that failed.
#[test]
fn loads_of_a_disk(rt: HostRuntime) -> Result<(), TestFail> {
    for &(name, size, fails, due, (opens, others), reads) in &LOADS {
        let disk = Disk::new(size, fails);
        let opener = Opener { disk: &disk };
        let answer = DiskFiles::new(&opener).load(rt.alloc(), What::Image, name, MOST);
        match (answer, due) {
            (Ok(bytes), None) => {
                assert_eq!(rt; bytes.len(), size, "{name} of {size}");
                for (place, byte) in bytes.iter().enumerate() {
                    assert!(rt; *byte == byte_at(place), "{name} of {size}, at {place}");
                }
            }
            (Err(fault), Some(due)) => assert_eq!(rt; fault, due, "{name} of {size}"),
            _ => assert!(rt; false, "{name} of {size}"),
        }
        let asked = (disk.opens.get(), disk.others.get());
        assert_eq!(rt; asked, (opens, others), "{name} of {size}");
        if let Some(reads) = reads {
            assert_eq!(rt; disk.reads.get(), reads, "{name} of {size}");
        }
    }
    Ok(())
}

/// Which writes fail, what a put of `abcde` and then one of `f` answer, what the writer took, and how many writes there were.
static PUTS: [(Fails, [Result<(), SinkFailed>; 2], &[u8; 6], u32); 6] = laid! {
    (&[], [Ok(()), Ok(())], b"abcdef", 3),
    (&[(1, ErrorKind::Interrupted)], [Ok(()), Ok(())], b"abcdef", 4),
    (&[(2, ErrorKind::Interrupted), (3, ErrorKind::Interrupted)], [Ok(()), Ok(())], b"abcdef", 5),
    (&[(1, ErrorKind::WouldBlock)], [Err(SinkFailed), Ok(())], b"f.....", 2),
    (&[(2, ErrorKind::BrokenPipe)], [Err(SinkFailed), Ok(())], b"abcf..", 3),
    (&[(2, ErrorKind::Interrupted), (3, ErrorKind::TimedOut)], [Err(SinkFailed), Ok(())], b"abcf..", 4),
};

/// A write that a signal interrupted is tried again, and no other that failed.
#[test]
fn puts_to_a_writer(rt: HostRuntime) {
    for &(fails, due, taken, calls) in &PUTS {
        let mut writer = Writer::new(fails);
        {
            let mut sink = StdSink::new(&mut writer);
            let answers = [sink.put(b"abcde"), sink.put(b"f")];
            assert_eq!(rt; answers, due);
        }
        assert_eq!(rt; &writer.bytes, taken);
        assert_eq!(rt; writer.calls, calls);
    }
}
