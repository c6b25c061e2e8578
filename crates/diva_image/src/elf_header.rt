// The ELF header of an executable, and its program headers: of each the fields that are looked at, with their places.
ghost use Rattle.std.specs.Prelude.{◌≡◌, ◌≤◌, length};
ghost use Rattle.diva_image.specs.Elf.{can_load, elf_header_of, elf_header_size, has_bytes, is_dynamic, is_load, memory_end};
ghost use Rattle.diva_image.specs.Elf.{program_header_of, program_header_size};

use byteorder::{ByteOrder, LittleEndian};

/// How many bytes the ELF header has.
pub(crate) const ELF_HEADER_SIZE: usize = 52;

/// How many bytes a program header has.
pub(crate) const PROGRAM_HEADER_SIZE: usize = 32;

/// Where the fields of the ELF header stand, and those of a program header.
mod place {
    pub const E_TYPE: usize = 16;

    pub const E_MACHINE: usize = 18;

    pub const E_ENTRY: usize = 24;

    pub const E_PHOFF: usize = 28;

    pub const E_PHENTSIZE: usize = 42;

    pub const E_PHNUM: usize = 44;

    pub const P_TYPE: usize = 0;

    pub const P_OFFSET: usize = 4;

    pub const P_VADDR: usize = 8;

    pub const P_FILESZ: usize = 16;

    pub const P_MEMSZ: usize = 20;
}

/// The ELF header. Its fields have the names of the ELF specification.
#[derive(Clone, Copy, Debug)]
pub(crate) struct ElfHeader {
    /// What kind of file it is: 2 of an executable that is placed already.
    pub e_type: u16,
    /// For which processor it is: 243 for RISC-V.
    pub e_machine: u16,
    /// The address of the first instruction.
    pub e_entry: u32,
    /// Where the program headers stand in the file.
    pub e_phoff: u32,
    /// How many bytes a program header has.
    pub e_phentsize: u16,
    /// How many program headers there are.
    pub e_phnum: u16,
}

impl ElfHeader {
    /// The header with which these bytes begin.
    pub fn read(bytes: &[u8]) -> Self
        requires { elf_header_size ≤ length bytes.now }
        ensures { result ≡ elf_header_of bytes.now }
    {
        ElfHeader {
            e_type: LittleEndian::read_u16(&bytes[place::E_TYPE..]),
            e_machine: LittleEndian::read_u16(&bytes[place::E_MACHINE..]),
            e_entry: LittleEndian::read_u32(&bytes[place::E_ENTRY..]),
            e_phoff: LittleEndian::read_u32(&bytes[place::E_PHOFF..]),
            e_phentsize: LittleEndian::read_u16(&bytes[place::E_PHENTSIZE..]),
            e_phnum: LittleEndian::read_u16(&bytes[place::E_PHNUM..]),
        }
    }
}

/// A program header, which says of a part of the file what it is for. Its fields have the names of the ELF specification.
#[derive(Clone, Copy, Debug)]
pub(crate) struct ProgramHeader {
    /// What it is for: 1 to be loaded, 2 and 3 for a dynamic linker.
    pub p_type: u32,
    /// Where its bytes stand in the file.
    pub p_offset: u32,
    /// The address at which they are loaded.
    pub p_vaddr: u32,
    /// How many there are in the file.
    pub p_filesz: u32,
    /// How many there are in memory. Those that the file has not are zeros.
    pub p_memsz: u32,
}

impl ProgramHeader {
    /// The program header with which these bytes begin.
    pub fn read(bytes: &[u8]) -> Self
        requires { program_header_size ≤ length bytes.now }
        ensures { result ≡ program_header_of bytes.now }
    {
        ProgramHeader {
            p_type: LittleEndian::read_u32(&bytes[place::P_TYPE..]),
            p_offset: LittleEndian::read_u32(&bytes[place::P_OFFSET..]),
            p_vaddr: LittleEndian::read_u32(&bytes[place::P_VADDR..]),
            p_filesz: LittleEndian::read_u32(&bytes[place::P_FILESZ..]),
            p_memsz: LittleEndian::read_u32(&bytes[place::P_MEMSZ..]),
        }
    }

    /// Whether it is for a dynamic linker.
    pub fn is_dynamic(self) -> bool
        ensures { result ≡ is_dynamic self }
    {
        self.p_type == 2 || self.p_type == 3
    }

    /// Whether it is a load: bytes of the file, and zeros behind them, are a part of memory.
    pub fn is_load(self) -> bool
        ensures { result ≡ is_load self }
    {
        self.p_type == 1 && 0 < self.p_memsz
    }

    /// Whether it is a load with bytes of the file.
    pub fn has_bytes(self) -> bool
        ensures { result ≡ has_bytes self }
    {
        self.is_load() && 0 < self.p_filesz
    }

    /// The address behind what it loads.
    pub fn memory_end(self) -> u64
        ensures { result ≡ memory_end self }
    {
        u64::from(self.p_vaddr) + u64::from(self.p_memsz)
    }

    /// Whether what it loads lies behind an address and ends at 2^32 at the latest, and its bytes are in a file of `len`.
    pub fn can_load(self, least: u64, len: usize) -> bool
        ensures { result ≡ can_load least len self }
    {
        self.p_filesz <= self.p_memsz
            && self.p_offset as usize + self.p_filesz as usize <= len
            && self.memory_end() <= 1 << 32
            && least <= u64::from(self.p_vaddr)
    }
}
