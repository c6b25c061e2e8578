// Sources and words that were worked out by hand, and some that an assembler made.
mod gnu;
mod sources;

use diva_asm::{AsmFault, assemble, list_line};
use gnu::{PROGRAMS, STATEMENTS};
use sources::{FAULTS, IMAGES, LISTED, WORDS};
use std::alloc::{AllocError, Global};
use std::process::Abort;
use std::test::Fail;

#[test]
fn words_of_sources(rt: HostRuntime) -> Result<(), Fail> {
    assert_rows(&rt, rt.alloc(), &WORDS)?;
    assert_rows(&rt, rt.alloc(), &PROGRAMS)
}

/// Asserts that each source has its words.
fn assert_rows(rt: &impl Abort, alloc: Global, rows: &[(&str, &[u32])]) -> Result<(), Fail> {
    for &(source, words) in rows {
        assert_words(rt, alloc, source, words)?;
    }
    Ok(())
}

/// Asserts that a source has these words.
fn assert_words(rt: &impl Abort, alloc: Global, source: &str, words: &[u32]) -> Result<(), Fail> {
    let image = assemble(alloc, source.as_bytes())?;
    let due = bytes_of(alloc, words)?;
    assert_eq!(rt; image.payload.bytes(), due.as_slice(), "{source:?}");
    Ok(())
}

/// The bytes of words, the lowest byte of each first.
fn bytes_of(alloc: Global, words: &[u32]) -> Result<Vec<u8>, AllocError> {
    let mut bytes = Vec::new(alloc);
    for word in words {
        bytes.extend_from_slice(&word.to_le_bytes())?;
    }
    Ok(bytes)
}

/// Each statement has its word, and the text that lists the word has it again.
#[test]
fn statements_and_listed_texts(rt: HostRuntime) -> Result<(), Fail> {
    for &(statement, word) in &STATEMENTS {
        let line = list_line(0, word);
        let text = line.bytes().get(18..).ok_or("no text")?;
        assert_words(&rt, rt.alloc(), statement, &[word])?;
        assert_words(&rt, rt.alloc(), str::from_utf8(text)?, &[word])?;
    }
    Ok(())
}

#[test]
fn images_of_sources(rt: HostRuntime) -> Result<(), Fail> {
    for &(source, base, size, entry, bytes) in &IMAGES {
        let image = assemble(rt.alloc(), source.as_bytes())?;
        let parts = (image.base, image.size, image.entry, image.payload.bytes());
        assert_eq!(rt; parts, (base, size, entry, bytes), "{source:?}");
    }
    Ok(())
}

#[test]
fn faults_of_sources(rt: HostRuntime) {
    for &(source, line, kind) in &FAULTS {
        let fault = assemble(rt.alloc(), source.as_bytes()).err();
        assert_eq!(rt; fault, Some(AsmFault::Bad { line, kind }), "{source:?}");
    }
}

#[test]
fn lines_of_words(rt: HostRuntime) {
    for &(addr, word, text) in &LISTED {
        let line = list_line(addr, word);
        assert_eq!(rt; line.bytes(), text.as_bytes(), "{word:08x}");
    }
}
