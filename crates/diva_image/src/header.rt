// The header of an image's file, and its faults.
ghost use Rattle.std.specs.Prelude.{◌≡◌, ◌≤◌, ◌++◌, codes, length, IsNone, IfOk, IfErr, None, Some, OnOk};
ghost use Rattle.std.specs.Int.{to_le_bytes, w32};
ghost use Rattle.diva_image.specs.Header.{header_size, is_entry, length_fault, number_of_version, start_fault};
ghost use Rattle.diva_image.specs.Images.{payload_fault};

use crate::fault::{Fault, Kind};
use crate::version::Version;
use byteorder::{ByteOrder, LittleEndian};
use std::alloc::AllocError;

/// The first bytes of a file.
const MAGIC: &[u8; 4] = b"DIVA";

/// How many bytes the header has, with which a file begins.
pub const HEADER_SIZE: usize = 24;

/// The most bytes that memory may have.
pub const MOST_SIZE: u32 = 1 << 24;

/// The version, and the numbers that follow it.
#[derive(Clone, Copy, Debug)]
pub(crate) struct Header {
    /// What stands behind the header.
    pub version: Version,
    /// The first address of memory.
    pub base: u32,
    /// How many bytes memory has.
    pub size: u32,
    /// The address of the first instruction.
    pub entry: u32,
    /// How many bytes the payload has in version 1, and how many segments there are in version 2.
    pub last: u32,
}

impl Header {
    ghost use Rattle.diva_image.specs.Header.{head_fault, header_bytes, header_fault, header_of, is_size};
    ghost use Rattle.diva_image.specs.Inner.{IsPlaced};

    /// The header of a file, or the first fault of its bytes.
    pub fn read(bytes: &[u8]) -> Result<Self, Fault>
        ensures header { IfOk result (λ header. header ≡ header_of bytes.now) }
        ensures faultless { IfOk result (λ _. head_fault bytes.now ≡ None) }
        ensures long { IfOk result (λ _. header_size ≤ length bytes.now) }
        ensures rules { IfOk result (λ header. IsPlaced header.base header.size header.entry) }
        ensures fault { IfErr result (λ fault. head_fault bytes.now ≡ Some fault) }
    {
        if let Some(fault) = start_fault(bytes) {
            return Err(fault);
        }
        let header = Header {
            version: Version::of(LittleEndian::read_u32(&bytes[4..])),
            base: LittleEndian::read_u32(&bytes[8..]),
            size: LittleEndian::read_u32(&bytes[12..]),
            entry: LittleEndian::read_u32(&bytes[16..]),
            last: LittleEndian::read_u32(&bytes[20..]),
        };
        match header.fault() {
            Some(fault) => Err(fault),
            None => Ok(header),
        }
    }

    /// Appends the bytes of the header.
    pub fn write(&self, bytes: &mut Vec<u8>) -> Result<(), AllocError>
        ensures { OnOk result (bytes.new.items ≡ bytes.old.items ++ header_bytes self.now) }
    {
        push_start(bytes, self.version)?;
        push_number(bytes, self.base)?;
        push_number(bytes, self.size)?;
        push_number(bytes, self.entry)?;
        push_number(bytes, self.last)?;
        Ok(())
    }

    /// The first fault of the numbers that say where memory lies, and where it is entered. `None` where they have none.
    #[tactic(auto, unfolding(crate::specs::Header::header_fault))]
    pub fn fault(&self) -> Option<Fault>
        ensures first { result ≡ header_fault self.now }
        ensures rules { IsNone result → IsPlaced self.now.base self.now.size self.now.entry }
    {
        if self.base % 4 != 0 {
            Some(Fault::new(Kind::Base, 8))
        } else if !self.has_size() {
            Some(Fault::new(Kind::Size, 12))
        } else if !has_entry(self.base, self.size, self.entry) {
            Some(Fault::new(Kind::Entry, 16))
        } else {
            None
        }
    }

    /// Whether size is allowed, and memory ends at 2^32 at the latest.
    fn has_size(&self) -> bool
        ensures { result ≡ is_size self.now.base self.now.size }
    {
        self.size % 4 == 0
            && 4 <= self.size
            && self.size <= MOST_SIZE
            && u64::from(self.base) + u64::from(self.size) <= 1 << 32
    }
}

/// Whether entry is a place for an instruction in memory.
pub(crate) fn has_entry(base: u32, size: u32, entry: u32) -> bool
    ensures { result ≡ is_entry base size entry }
{
    entry % 4 == 0 && base <= entry && u64::from(entry) < u64::from(base) + u64::from(size)
}

/// The first fault of the length, the letters and the version.
#[tactic(auto, unfolding(crate::specs::Header::start_fault))]
fn start_fault(bytes: &[u8]) -> Option<Fault>
    ensures first { result ≡ start_fault bytes.now }
    ensures rules { IsNone result → header_size ≤ length bytes.now }
{
    if bytes.len() < HEADER_SIZE {
        let place = bytes.len() as u32;
        Some(Fault::new(Kind::ShortHeader, place))
    } else if !bytes.starts_with(MAGIC) {
        Some(Fault::new(Kind::Magic, 0))
    } else if !matches!(LittleEndian::read_u32(&bytes[4..]), 1 | 2) {
        Some(Fault::new(Kind::Version, 4))
    } else {
        None
    }
}

/// Appends the letters and the version.
fn push_start(bytes: &mut Vec<u8>, version: Version) -> Result<(), AllocError>
    ensures { OnOk result (bytes.new.items ≡ bytes.old.items ++ codes "DIVA" ++ to_le_bytes w32 (number_of_version version)) }
{
    bytes.extend_from_slice(MAGIC)?;
    push_number(bytes, version.number())
}

/// Appends the number's four bytes, the lowest first.
pub(crate) fn push_number(bytes: &mut Vec<u8>, n: u32) -> Result<(), AllocError>
    ensures { OnOk result (bytes.new.items ≡ bytes.old.items ++ to_le_bytes w32 n) }
{
    bytes.extend_from_slice(&n.to_le_bytes())
}

/// The fault of a file of `len` bytes, of which the last that are loaded end at `end`.
#[tactic(auto, unfolding(crate::specs::Header::length_fault))]
pub(crate) fn length_fault(len: usize, end: u32) -> Option<Fault>
    ensures first { result ≡ length_fault len end }
    ensures rules { IsNone result → len ≡ end }
{
    if len < end as usize {
        let place = len as u32;
        Some(Fault::new(Kind::CutShort, place))
    } else if (end as usize) < len {
        Some(Fault::new(Kind::TrailingBytes, end))
    } else {
        None
    }
}

/// The fault of a payload that is longer than memory.
#[tactic(auto, unfolding(crate::specs::Images::payload_fault))]
pub(crate) fn payload_fault(size: u32, len: u32) -> Option<Fault>
    ensures first { result ≡ payload_fault size len }
    ensures rules { IsNone result → len ≤ size }
{
    if size < len {
        Some(Fault::new(Kind::Length, 20))
    } else {
        None
    }
}
