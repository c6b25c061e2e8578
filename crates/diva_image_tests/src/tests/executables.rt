// Executables: what is read of them.
mod headers;
mod loads;
mod memory;
mod rows;

use diva_image::{ImageFault, read_elf};
use headers::HEADERS;
use loads::LOADS;
use memory::MEMORY;
use rows::{Due, Row, WORD, file_of};
use std::alloc::Global;
use std::process::Abort;
use std::test::Fail;

/// Reads the executable of each row, and compares the image or the fault.
fn compare_rows(rt: &impl Abort, alloc: Global, rows: &[Row]) -> Result<(), Fail> {
    for row in rows {
        compare_row(rt, alloc, row)?;
    }
    Ok(())
}

fn compare_row(rt: &impl Abort, alloc: Global, row: &Row) -> Result<(), Fail> {
    let name = row.name;
    let bytes = file_of(alloc, row)?;
    assert!(rt; bytes.len() < 0x1_0000_0000, "{name}");
    assert!(rt; row.room % 4 == 0 && row.room < 0x100_0000, "{name}");
    let answer = read_elf(alloc, &bytes, row.room);
    match row.due {
        Due::Refused(kind, place) => {
            assert_eq!(rt;
                answer.err(),
                Some(ImageFault::Bad { kind, place }),
                "{name}"
            );
        }
        Due::Taken(base, size, entry, payload) => {
            let image = answer?;
            assert_eq!(rt;
                (image.base, image.size, image.entry),
                (base, size, entry),
                "{name}"
            );
            assert_eq!(rt; image.payload.bytes(), payload, "{name}");
        }
        Due::Far(base, size, entry, len) => {
            let image = answer?;
            let bytes = image.payload.bytes();
            assert_eq!(rt;
                (image.base, image.size, image.entry),
                (base, size, entry),
                "{name}"
            );
            assert_eq!(rt; bytes.len(), len, "{name}");
            assert!(rt; bytes.starts_with(WORD) && bytes.ends_with(WORD), "{name}");
        }
    }
    Ok(())
}

#[test]
fn elf_headers(rt: HostRuntime) -> Result<(), Fail> {
    compare_rows(&rt, rt.alloc(), &HEADERS)
}

#[test]
fn program_headers(rt: HostRuntime) -> Result<(), Fail> {
    compare_rows(&rt, rt.alloc(), &LOADS)
}

#[test]
fn memory_of_executables(rt: HostRuntime) -> Result<(), Fail> {
    compare_rows(&rt, rt.alloc(), &MEMORY)
}
