// The files, the sinks, the numbers, and the lines and words of texts, each with a worked answer.
use diva_outside::{
    DiskFiles, Fail, Files, LoadFault, MemFile, MemFiles, MemSink, Sink, SinkFailed, StdSink,
    SureFiles, What, decimal, hex, lines, words,
};
use std::alloc::{AllocError, Global};
use std::fs;
use std::test::Fail as TestFail;

/// `a` holds three bytes, and `b` none.
fn two_files(alloc: Global) -> Result<Vec<MemFile>, AllocError> {
    let mut files = Vec::new(alloc);
    let a = Vec::from_slice(alloc, b"abc")?;
    files.push(MemFile::new(String::from_str(alloc, "a")?, a))?;
    files.push(MemFile::new(String::from_str(alloc, "b")?, Vec::new(alloc)))?;
    Ok(files)
}

#[test]
fn files_in_memory(rt: HostRuntime) -> Result<(), TestFail> {
    let alloc = rt.alloc();
    let mut files = MemFiles::new(two_files(alloc)?, Vec::from_slice(alloc, &[4])?);
    for (name, limit, want) in [
        ("a", 3, Ok("abc")),
        ("a", 2, Err(LoadFault::TooLong)),
        ("c", 3, Err(LoadFault::Failed)),
        ("a", 3, Err(LoadFault::Failed)),
        ("b", 0, Ok("")),
    ] {
        match (files.load(alloc, What::Image, name, limit), want) {
            (Ok(bytes), Ok(text)) => assert_eq!(rt; bytes.as_slice(), text.as_bytes()),
            (Err(fault), Err(due)) => assert_eq!(rt; fault, due),
            _ => assert!(rt; false, "{name} within {limit}"),
        }
    }
    Ok(())
}

/// A file of some megabytes, whose last byte is like no other: whole at its length, too long a byte below it, and gone
/// in the end. A folder is opened, but can't be read.
#[test]
fn files_of_the_disk(rt: HostRuntime) -> Result<(), TestFail> {
    let alloc = rt.alloc();
    let name = "files_of_the_disk.bytes";
    let mut text = "0123456789".repeat(alloc, 300_000)?;
    text.push('#')?;
    fs::write(&rt, name, text.as_str())?;
    let mut files = DiskFiles::new(&rt);
    let whole = files.load(alloc, What::Image, name, 3_000_001);
    let short = files.load(alloc, What::Image, name, 3_000_000);
    fs::remove_file(&rt, name)?;
    let gone = files.load(alloc, What::Image, name, 3_000_001);
    let folder = files.load(alloc, What::Image, ".", 3_000_001);
    match whole {
        Ok(bytes) => assert!(rt;
            bytes.as_slice() == text.as_bytes(),
            "each byte of the file"
        ),
        Err(_) => assert!(rt; false, "the whole file"),
    }
    assert!(rt; matches!(short, Err(LoadFault::TooLong)));
    assert!(rt; matches!(gone, Err(LoadFault::Failed)));
    assert!(rt; matches!(folder, Err(LoadFault::Failed)));
    Ok(())
}

#[test]
fn files_that_never_fail(rt: HostRuntime) -> Result<(), TestFail> {
    let alloc = rt.alloc();
    let mut files = SureFiles::new(two_files(alloc)?);
    for (name, text) in [("a", "abc"), ("b", ""), ("c", "")] {
        match files.load(alloc, What::Tape, name, 3) {
            Ok(bytes) => assert_eq!(rt; bytes.as_slice(), text.as_bytes()),
            Err(_) => assert!(rt; false, "{name}"),
        }
    }
    Ok(())
}

#[test]
fn sink_in_memory(rt: HostRuntime) -> Result<(), TestFail> {
    let alloc = rt.alloc();
    let fails = Vec::from_slice(alloc, &[Fail { call: 2, takes: 1 }])?;
    let mut sink = MemSink::new(alloc, 6, fails)?;
    for (piece, want, text) in [
        ("ab", Ok(()), "ab"),
        ("cd", Err(SinkFailed), "abc"),
        ("efg", Ok(()), "abcefg"),
        ("h", Err(SinkFailed), "abcefg"),
    ] {
        assert_eq!(rt; sink.put(piece.as_bytes()), want, "{piece}");
        assert_eq!(rt; sink.bytes(), text.as_bytes(), "{piece}");
    }
    Ok(())
}

/// A writer with room for five bytes takes what fits, and then nothing more.
#[test]
fn sink_over_a_writer(rt: HostRuntime) {
    let mut room = [0; 5];
    {
        let mut sink = StdSink::new(&mut room[..]);
        for (piece, want) in [("", Ok(())), ("abc", Ok(())), ("def", Err(SinkFailed))] {
            assert_eq!(rt; sink.put(piece.as_bytes()), want, "{piece}");
        }
    }
    assert_eq!(rt; &room, b"abcde");
}

/// Words, and the numbers that they spell in hex and in decimal.
static NUMBERS: [(&str, Option<u32>, Option<u64>); 8] = [
    ("", None, None),
    ("0", Some(0), Some(0)),
    ("ffffffff", Some(0xffff_ffff), None),
    ("FFFFFFFF", Some(0xffff_ffff), None),
    ("123456789", None, Some(123_456_789)),
    ("g", None, None),
    ("4294967296", None, Some(4_294_967_296)),
    ("99999999999", None, None),
];

#[test]
fn numbers(rt: HostRuntime) {
    for &(word, hex_due, decimal_due) in &NUMBERS {
        let spelled = (hex(word.as_bytes()), decimal(word.as_bytes()));
        assert_eq!(rt; spelled, (hex_due, decimal_due), "{word}");
    }
}

/// Texts, and each of their lines with a `|` behind it.
static LINES: [(&str, &str); 6] = [
    ("", ""),
    ("\n", "|"),
    ("a", "a|"),
    ("a\n", "a|"),
    ("a\nb", "a|b|"),
    ("\na b\n\n# c\r\n", "|a b||# c\r|"),
];

#[test]
fn lines_of_texts(rt: HostRuntime) -> Result<(), TestFail> {
    for &(text, due) in &LINES {
        let joined = joined_lines(rt.alloc(), text.as_bytes())?;
        assert_eq!(rt; joined.as_slice(), due.as_bytes(), "{text:?}");
    }
    Ok(())
}

fn joined_lines(alloc: Global, text: &[u8]) -> Result<Vec<u8>, AllocError> {
    let mut joined = Vec::new(alloc);
    for line in lines(text) {
        joined.extend_from_slice(line)?;
        joined.extend_from_slice(b"|")?;
    }
    Ok(joined)
}

/// Lines, and each of their words with a `|` behind it.
static WORDS: [(&[u8], &[u8]); 7] = [
    (b"", b""),
    (b" \t\r", b""),
    (b"a", b"a|"),
    (b"at 1\tlane  0 lose\r", b"at|1|lane|0|lose|"),
    (b" at#1 # 2 \xff", b"at|"),
    (b"# at 1", b""),
    (b"a\x0bb \xff", b"a\x0bb|\xff|"),
];

#[test]
fn words_of_lines(rt: HostRuntime) -> Result<(), TestFail> {
    for &(line, due) in &WORDS {
        let joined = joined_words(rt.alloc(), line)?;
        assert_eq!(rt; joined.as_slice(), due, "{line:?}");
    }
    Ok(())
}

fn joined_words(alloc: Global, line: &[u8]) -> Result<Vec<u8>, AllocError> {
    let mut joined = Vec::new(alloc);
    for word in words(line) {
        joined.extend_from_slice(word)?;
        joined.extend_from_slice(b"|")?;
    }
    Ok(joined)
}
