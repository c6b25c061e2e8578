// An executable to an image, or to its first fault.
ghost use Rattle.std.specs.Prelude.{ℕ, List, ◌∷◌, ◌≡◌, ◌≤◌, ◌<◌, ◌+◌, ◌-◌, ◌*◌, ◌%◌, ◌^◌, ◌++◌, [], length, drop, take, replicate, vec_capacity, IfOk, IfErr, OnOk, IsNone, IsSome, None, Some};
ghost use Rattle.std.specs.Option.{option_or};
ghost use Rattle.diva_image.specs.Elf.{bounds_fault, elf_header_fault, elf_size, end_of_loads, first_load, load_fault, loaded_from, rounded_down};
ghost use Rattle.diva_image.specs.Elf.{program_header_size, program_headers_in};
ghost use Rattle.diva_image.specs.ImageLayout.{ReadsElf};
ghost use Rattle.diva_image.specs.declared.elf_header.ProgramHeader.{ProgramHeader};
ghost use Rattle.diva_image.specs.Inner.{IsElf, IsExtent, IsPlaced, end_of_bytes};

use crate::elf_header::{ELF_HEADER_SIZE, ElfHeader, PROGRAM_HEADER_SIZE, ProgramHeader};
use crate::fault::{Fault, Kind};
use crate::header::{MOST_SIZE, has_entry};
use crate::memory::{append_at, room_between};
use crate::{Image, ImageFault, Payload};
use std::alloc::{AllocError, Global};

/// What the loads of an executable come to.
#[derive(Clone, Copy, Debug)]
struct Extent {
    /// The address of the first load, if there is one.
    first: Option<u32>,
    /// The address behind the last one, and 0 where there is none.
    end: u64,
    /// The address behind the last byte of the file that is loaded, and 0 where none is.
    filled: u64,
}

/// Where the memory of an executable lies.
#[derive(Clone, Copy, Debug)]
struct Bounds {
    /// Its first address.
    base: u32,
    /// How many bytes it has.
    size: u32,
}

/// The image of an executable: an ELF file of 32 bits for RISC-V, whose loads are what memory begins with. Behind the last of them memory
/// has `room` bytes more, for the stack: a multiple of 4 below 2^24. The file has fewer than 2^32 bytes. The error is its first fault
/// or, where it has none, `Memory` if memory runs out.
///
/// The time that it takes is linear in the bytes and in the payload.
#[tactic(auto, unfolding(crate::specs::Elf::elf_fault))]
pub fn read_elf(alloc: Global, bytes: &[u8], room: u32) -> Result<Image, ImageFault>
    requires short { length bytes.now < 2 ^ 32 }
    requires aligned { room % 4 ≡ 0 }
    requires small { room < 2 ^ 24 }
    ensures { ReadsElf room bytes.now result }
{
    if let Some(fault) = elf_header_fault(bytes) {
        return Err(fault.into());
    }
    let header = ElfHeader::read(bytes);
    let table = table_of(bytes, &header);
    let extent = extent_of(table, &header, bytes.len())?;
    let bounds = bounds_of(room, header.e_entry, &extent)?;
    let count = header.e_phnum as usize;
    let payload = loaded_from(alloc, bytes, table, count, &bounds, extent.filled)?;
    Ok(Image {
        base: bounds.base,
        size: bounds.size,
        entry: header.e_entry,
        payload: Payload::new(payload),
    })
}

/// The first fault of the ELF header.
#[tactic(auto, unfolding(crate::specs::Elf::elf_header_fault))]
fn elf_header_fault(bytes: &[u8]) -> Option<Fault>
    ensures first { result ≡ elf_header_fault bytes.now }
    ensures rules { IsNone result → IsElf bytes.now }
{
    if bytes.len() < ELF_HEADER_SIZE {
        let place = bytes.len() as u32;
        return Some(Fault::new(Kind::ShortElf, place));
    }
    let header = ElfHeader::read(bytes);
    let table = PROGRAM_HEADER_SIZE * header.e_phnum as usize;
    if bytes[4] != 1 {
        Some(Fault::new(Kind::ElfIdentity, 4))
    } else if bytes[5] != 1 {
        Some(Fault::new(Kind::ElfIdentity, 5))
    } else if bytes[6] != 1 {
        Some(Fault::new(Kind::ElfIdentity, 6))
    } else if header.e_type != 2 {
        Some(Fault::new(Kind::ElfType, 16))
    } else if header.e_machine != 243 {
        Some(Fault::new(Kind::ElfMachine, 18))
    } else if 0 < header.e_phnum && header.e_phentsize as usize != PROGRAM_HEADER_SIZE {
        Some(Fault::new(Kind::ProgramHeaderSize, 42))
    } else if bytes.len() < header.e_phoff as usize + table {
        Some(Fault::new(Kind::ProgramHeaders, 28))
    } else {
        None
    }
}

/// The program headers, and what stands behind them.
#[tactic(auto, using(std::proofs::lemmas::List::take_rest))]
fn table_of<'a>(bytes: &'a [u8], header: &ElfHeader) -> &'a [u8]
    requires { header.now.e_phoff ≤ length bytes.now }
    ensures { result.now ≡ drop header.entry.now.e_phoff bytes.entry.now }
{
    &bytes[header.e_phoff as usize..]
}

/// What the loads of a table of program headers come to, in a file of `len` bytes, or the fault of the first header that has one.
fn extent_of(table: &[u8], header: &ElfHeader, len: usize) -> Result<Extent, Fault>
    requires short { len < 2 ^ 32 }
    requires inside { header.now.e_phoff + program_header_size * header.now.e_phnum ≤ len }
    requires long { program_header_size * header.now.e_phnum ≤ length table.now }
    ensures first { IfOk result (λ extent. extent.first ≡ first_load (program_headers_in header.now.e_phnum table.now)) }
    ensures end { IfOk result (λ extent. extent.end ≡ end_of_loads 0 (program_headers_in header.now.e_phnum table.now)) }
    ensures filled { IfOk result (λ extent. extent.filled ≡ end_of_bytes 0 (program_headers_in header.now.e_phnum table.now)) }
    ensures faultless { OnOk result (load_fault 0 len header.now.e_phoff (program_headers_in header.now.e_phnum table.now) ≡ None) }
    ensures fault { IfErr result (λ fault. load_fault 0 len header.now.e_phoff (program_headers_in header.now.e_phnum table.now) ≡ Some fault) }
{
    let mut extent = Extent {
        first: None,
        end: 0,
        filled: 0,
    };
    for at in 0..header.e_phnum as usize {
        let program_header = ProgramHeader::read(&table[PROGRAM_HEADER_SIZE * at..]);
        let place = header.e_phoff + (PROGRAM_HEADER_SIZE * at) as u32;
        extent = match extent.with(program_header, place, len) {
            Ok(next) => next,
            Err(fault) => return Err(fault),
        };
    }
    Ok(extent)
}

impl Extent {
    /// With one program header more, at its place in a file of `len` bytes, or the fault of that.
    #[tactic(auto, unfolding(crate::specs::Elf::load_fault))]
    fn with(self, header: ProgramHeader, place: u32, len: usize) -> Result<Self, Fault>
        ensures first { IfOk result (λ extent. (rest : List ProgramHeader)
            → option_or self.first (first_load (header ∷ rest)) ≡ option_or extent.first (first_load rest)) }
        ensures end { IfOk result (λ extent. (rest : List ProgramHeader)
            → end_of_loads self.end (header ∷ rest) ≡ end_of_loads extent.end rest) }
        ensures filled { IfOk result (λ extent. (rest : List ProgramHeader)
            → end_of_bytes self.filled (header ∷ rest) ≡ end_of_bytes extent.filled rest) }
        ensures passes { IfOk result (λ extent. (rest : List ProgramHeader)
            → load_fault self.end len place (header ∷ rest) ≡ load_fault extent.end len (place + program_header_size) rest) }
        ensures fault { IfErr result (λ fault. (rest : List ProgramHeader) → load_fault self.end len place (header ∷ rest) ≡ Some fault) }
    {
        if header.is_dynamic() {
            return Err(Fault::new(Kind::Dynamic, place));
        }
        if !header.is_load() {
            return Ok(self);
        }
        if !header.can_load(self.end, len) {
            return Err(Fault::new(Kind::Load, place));
        }
        Ok(Extent {
            first: self.first.or(Some(header.p_vaddr)),
            end: header.memory_end(),
            filled: if header.has_bytes() {
                u64::from(header.p_vaddr) + u64::from(header.p_filesz)
            } else {
                self.filled
            },
        })
    }
}

/// Where memory lies, with so much room behind the last load, or the fault of that.
#[tactic(auto, unfolding(crate::specs::Elf::bounds_fault))]
fn bounds_of(room: u32, entry: u32, extent: &Extent) -> Result<Bounds, Fault>
    requires aligned { room % 4 ≡ 0 }
    requires small { room < 2 ^ 24 }
    requires loads { IsExtent extent.now.first extent.now.end }
    ensures bounds { IfOk result (λ bounds. (first : ℕ) → extent.now.first ≡ Some first
        → (bounds.base ≡ rounded_down first) × (bounds.size ≡ elf_size room first extent.now.end)) }
    ensures some { OnOk result (IsSome extent.now.first) }
    ensures placed { IfOk result (λ bounds. IsPlaced bounds.base bounds.size entry) }
    ensures faultless { OnOk result (bounds_fault room entry extent.now.first extent.now.end ≡ None) }
    ensures fault { IfErr result (λ fault. bounds_fault room entry extent.now.first extent.now.end ≡ Some fault) }
{
    let Some(first) = extent.first else {
        return Err(Fault::new(Kind::NoLoad, 44));
    };
    let base = rounded_down(u64::from(first));
    let size = rounded_down(extent.end + 3) - base + u64::from(room);
    if u64::from(MOST_SIZE) < size || 1 << 32 < base + size {
        return Err(Fault::new(Kind::ElfSize, 0));
    }
    let bounds = Bounds {
        base: base as u32,
        size: size as u32,
    };
    if has_entry(bounds.base, bounds.size, entry) {
        Ok(bounds)
    } else {
        Err(Fault::new(Kind::ElfEntry, 24))
    }
}

/// A number made smaller, to be a multiple of 4.
fn rounded_down(n: u64) -> u64
    ensures { result ≡ rounded_down n }
{
    n / 4 * 4
}

/// The bytes of memory from its first address to the last byte of the file that is loaded, by a table of program headers. Room for all
/// of them is taken before the first one.
fn loaded_from(
    alloc: Global,
    bytes: &[u8],
    table: &[u8],
    count: usize,
    bounds: &Bounds,
    filled: u64,
) -> Result<Vec<u8>, AllocError>
    requires long { program_header_size * count ≤ length table.now }
    requires loads { load_fault bounds.now.base (length bytes.now) 0 (program_headers_in count table.now) ≡ None }
    requires filled { filled ≡ end_of_bytes 0 (program_headers_in count table.now) }
    ensures { IfOk result (λ memory. memory.items ≡ loaded_from bounds.now.base (program_headers_in count table.now) bytes.now) }
{
    let mut memory = room_between(alloc, bounds.base, filled)?;
    append_loads(&mut memory, bounds.base, table, count, bytes);
    Ok(memory)
}

/// Appends the bytes that a table of program headers loads of a file, in a memory that begins at base and has just the room for them.
#[tactic(auto, using(crate::proofs::Loads::loaded_room))]
fn append_loads(memory: &mut Vec<u8>, base: u32, table: &[u8], count: usize, bytes: &[u8])
    requires empty { memory.old.items ≡ [] }
    requires exact { vec_capacity memory.old ≡ end_of_bytes 0 (program_headers_in count table.now) - base }
    requires long { program_header_size * count ≤ length table.now }
    requires loads { load_fault base (length bytes.now) 0 (program_headers_in count table.now) ≡ None }
    ensures { memory.new.items ≡ loaded_from base (program_headers_in count table.now) bytes.now }
{
    for at in 0..count {
        let load = ProgramHeader::read(&table[PROGRAM_HEADER_SIZE * at..]);
        if load.has_bytes() {
            append_load(memory, base, load, bytes);
        }
    }
}

/// Appends the bytes that a program header loads of a file, in a memory that begins at base. They find room there.
fn append_load(memory: &mut Vec<u8>, base: u32, load: ProgramHeader, bytes: &[u8])
    requires behind { base + length memory.old.items ≤ load.p_vaddr }
    requires inside { load.p_offset + load.p_filesz ≤ length bytes.now }
    requires room { load.p_vaddr - base + load.p_filesz ≤ vec_capacity memory.old }
    ensures appended { memory.new.items
        ≡ memory.old.items ++ replicate (load.p_vaddr - base - length memory.old.items) 0 ++ take load.p_filesz (drop load.p_offset bytes.now) }
    ensures room { vec_capacity memory.old ≤ vec_capacity memory.new }
{
    let from = load.p_offset as usize;
    let part = &bytes[from..from + load.p_filesz as usize];
    append_at(memory, (load.p_vaddr - base) as usize, part);
}
