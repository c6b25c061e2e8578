// Executables that are written field by field.
use std::alloc::Global;
use std::test::Fail;

/// A program header: its `p_type`, `p_offset`, `p_vaddr`, `p_filesz` and `p_memsz`. Its `p_paddr` is its `p_vaddr`; its flags
/// are 5, and its alignment is 4096.
type ProgramHeader = (u32, u32, u32, u32, u32);

/// An executable, and what is read of it. Its other fields are 0, but for `e_version`, which is 1, and `e_ehsize`, which is 52.
#[derive(Clone, Copy)]
pub(super) struct Row {
    /// What it shows.
    pub name: &'static str,
    /// The bytes 4, 5 and 6.
    pub identity: [u8; 3],
    pub e_type: u16,
    pub e_machine: u16,
    pub e_entry: u32,
    pub e_phoff: u32,
    pub e_phentsize: u16,
    pub e_phnum: u16,
    /// The bytes between the ELF header and the program headers.
    pub before: &'static [u8],
    /// The program headers that are there, whatever `e_phnum` says.
    pub headers: &'static [ProgramHeader],
    /// The bytes behind them.
    pub rest: &'static [u8],
    /// The length to which the file is cut, where it is longer.
    pub len: usize,
    /// The bytes of memory behind the last load.
    pub room: u32,
    pub due: Due,
}

/// What is due of an executable.
#[derive(Clone, Copy)]
pub(super) enum Due {
    /// The kind of its first fault, and the place.
    Refused(u8, u32),
    /// The base, the size, the entry and the payload of its image.
    Taken(u32, u32, u32, &'static [u8]),
    /// The base, the size and the entry of its image, and the length of a payload that begins and ends with `WORD`.
    Far(u32, u32, u32, usize),
}

/// `addi x0, x0, 0`.
pub(super) const WORD: &[u8] = &[0x13, 0, 0, 0];

/// One load of a word, which is entered there.
pub(super) const ONE_LOAD: Row = Row {
    name: "one load",
    identity: [1, 1, 1],
    e_type: 2,
    e_machine: 243,
    e_entry: 0x1_0000,
    e_phoff: 52,
    e_phentsize: 32,
    e_phnum: 1,
    before: &[],
    headers: &[(1, 84, 0x1_0000, 4, 4)],
    rest: WORD,
    len: usize::MAX,
    room: 0,
    due: Due::Taken(0x1_0000, 4, 0x1_0000, WORD),
};

/// Two loads of the same word, one behind the other.
pub(super) const TWO_LOADS: Row = Row {
    name: "two loads",
    e_phnum: 2,
    headers: &[(1, 116, 0x1_0000, 4, 4), (1, 116, 0x1_0004, 4, 4)],
    due: Due::Taken(0x1_0000, 8, 0x1_0000, &[0x13, 0, 0, 0, 0x13, 0, 0, 0]),
    ..ONE_LOAD
};

/// The file of a row.
pub(super) fn file_of(alloc: Global, row: &Row) -> Result<Vec<u8>, Fail> {
    let mut bytes = Vec::from_slice(alloc, b"\x7fELF")?;
    bytes.extend_from_slice(&row.identity)?;
    bytes.extend_from_slice(&[0; 9])?;
    append_halves(&mut bytes, &[row.e_type, row.e_machine])?;
    append_words(&mut bytes, &[1, row.e_entry, row.e_phoff, 0, 0])?;
    append_halves(&mut bytes, &[52, row.e_phentsize, row.e_phnum, 0, 0, 0])?;
    bytes.extend_from_slice(row.before)?;
    for &(kind, offset, address, file, memory) in row.headers {
        let numbers = [kind, offset, address, address, file, memory, 5, 4096];
        append_words(&mut bytes, &numbers)?;
    }
    bytes.extend_from_slice(row.rest)?;
    bytes.truncate(row.len);
    Ok(bytes)
}

/// Appends numbers of two bytes each, the lowest byte first.
fn append_halves(bytes: &mut Vec<u8>, numbers: &[u16]) -> Result<(), Fail> {
    for number in numbers {
        bytes.extend_from_slice(&number.to_le_bytes())?;
    }
    Ok(())
}

/// Appends numbers of four bytes each, the lowest byte first.
fn append_words(bytes: &mut Vec<u8>, numbers: &[u32]) -> Result<(), Fail> {
    for number in numbers {
        bytes.extend_from_slice(&number.to_le_bytes())?;
    }
    Ok(())
}
