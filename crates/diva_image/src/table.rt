// What stands behind the header in version 2: the table of segments, and their bytes.
ghost use Rattle.std.specs.Prelude.{◌≡◌, ◌≤◌, ◌+◌, ◌-◌, ◌*◌, ◌^◌, [], length, drop, vec_capacity, IfOk, IfErr, OnOk, IsNone, Some, None};
ghost use Rattle.std.specs.List.{sum_by};
ghost use Rattle.diva_image.specs.Header.{header_of, header_size};
ghost use Rattle.diva_image.specs.Inner.{ArePlaced, IsHeader, end_of_segments};
ghost use Rattle.diva_image.specs.Segments.{data_place, memory_from, most_segments, pair_size, segment_fault, segmented_fault};
ghost use Rattle.diva_image.specs.Segments.{segmented_payload, segments_in, segments_of, table_fault};

use crate::fault::{Fault, Kind};
use crate::header::{HEADER_SIZE, Header, length_fault};
use crate::memory::{append_at, room_between};
use crate::segment::Segment;
use crate::segments::{MOST_SEGMENTS, Segments};
use byteorder::{ByteOrder, LittleEndian};
use std::alloc::{AllocError, Global};

/// How many bytes the table has for each segment: its address, and how many bytes it has.
pub const PAIR_SIZE: usize = 8;

/// The segments of a file that has no fault, or its first fault.
#[tactic(auto, unfolding(crate::specs::Segments::segmented_fault))]
pub(crate) fn faultless_segments(bytes: &[u8], header: &Header) -> Result<Segments, Fault>
    requires { IsHeader bytes.now header.now }
    ensures segments { IfOk result (λ segments. segments ≡ segments_of bytes.now) }
    ensures placed { IfOk result (ArePlaced header.now.base (header.now.base + header.now.size)) }
    ensures whole { IfOk result (λ segments. length bytes.now ≡ data_place bytes.now + sum_by (λ s. s.len) segments) }
    ensures faultless { OnOk result (segmented_fault bytes.now ≡ None) }
    ensures fault { IfErr result (λ fault. segmented_fault bytes.now ≡ Some fault) }
{
    if let Some(fault) = table_fault(bytes, header) {
        return Err(fault);
    }
    let segments = segments_in(&bytes[HEADER_SIZE..], header.last as usize);
    let list = segments.as_slice();
    if let Some(fault) = segment_fault(list, header) {
        return Err(fault);
    }
    let end = data_place(header) as u32 + total(list);
    match length_fault(bytes.len(), end) {
        Some(fault) => Err(fault),
        None => Ok(segments),
    }
}

/// Where the bytes of the segments stand.
pub(crate) fn data_place(header: &Header) -> usize
    ensures { result ≡ header_size + pair_size * header.now.last }
{
    HEADER_SIZE + PAIR_SIZE * header.last as usize
}

/// The first fault of the table's length.
#[tactic(auto, unfolding(crate::specs::Segments::table_fault))]
fn table_fault(bytes: &[u8], header: &Header) -> Option<Fault>
    requires { IsHeader bytes.now header.now }
    ensures first { result ≡ table_fault bytes.now }
    ensures rules { IsNone result → (header.now.last ≤ most_segments) × (data_place bytes.now ≤ length bytes.now) }
{
    if MOST_SEGMENTS < header.last as usize {
        Some(Fault::new(Kind::ManySegments, 20))
    } else if bytes.len() < data_place(header) {
        let place = bytes.len() as u32;
        Some(Fault::new(Kind::ShortTable, place))
    } else {
        None
    }
}

/// The first segments of a table.
#[tactic(auto, using(crate::proofs::Tables::one_more, crate::proofs::Tables::length_segments_in))]
fn segments_in(table: &[u8], count: usize) -> Segments
    requires most { count ≤ most_segments }
    requires long { pair_size * count ≤ length table.now }
    ensures { result ≡ segments_in count table.now }
{
    let mut segments = Segments::new();
    for at in 0..count {
        let pair = &table[PAIR_SIZE * at..];
        segments.push(Segment {
            addr: LittleEndian::read_u32(pair),
            len: LittleEndian::read_u32(&pair[4..]),
        });
    }
    segments
}

/// The fault of the first segment that has no bytes, or lies where it may not.
#[tactic(auto, using(crate::proofs::Tables::placed))]
fn segment_fault(segments: &[Segment], header: &Header) -> Option<Fault>
    requires few { length segments.now ≤ most_segments }
    ensures first { result ≡ segment_fault header.now.base (header.now.base + header.now.size) header_size segments.now }
    ensures rules { IsNone result → ArePlaced header.now.base (header.now.base + header.now.size) segments.now }
{
    let mut least = u64::from(header.base);
    let most = u64::from(header.base) + u64::from(header.size);
    for (at, segment) in segments.iter().enumerate() {
        if !segment.is_between(least, most) {
            return Some(Fault::new(Kind::Segment, (HEADER_SIZE + PAIR_SIZE * at) as u32));
        }
        least = segment.behind();
    }
    None
}

/// How many bytes the segments have.
pub(crate) fn total(segments: &[Segment]) -> u32
    requires { sum_by (λ s. s.len) segments.now ≤ 2 ^ 24 }
    ensures { result ≡ sum_by (λ s. s.len) segments.now }
{
    segments.iter().map(|segment| segment.len).sum()
}

/// The bytes of memory from an address to the end of the last segment. Room for all of them is taken before the first one.
pub(crate) fn memory_from(
    alloc: Global,
    addr: u32,
    segments: &[Segment],
    bytes: &[u8],
) -> Result<Vec<u8>, AllocError>
    requires placed { ArePlaced addr (addr + 2 ^ 24) segments.now }
    requires long { sum_by (λ s. s.len) segments.now ≤ length bytes.now }
    ensures { IfOk result (λ memory. memory.items ≡ memory_from addr segments.now bytes.now) }
{
    let mut memory = room_between(alloc, addr, end_of(addr, segments))?;
    append_segments(&mut memory, addr, segments, bytes);
    Ok(memory)
}

/// Appends the bytes of segments, in a memory that begins at an address and has just the room for them.
#[tactic(auto, using(crate::proofs::Tables::memory_room, crate::proofs::Tables::room_for_next))]
fn append_segments(memory: &mut Vec<u8>, addr: u32, segments: &[Segment], bytes: &[u8])
    requires empty { memory.old.items ≡ [] }
    requires exact { vec_capacity memory.old ≡ end_of_segments addr segments.now - addr }
    requires placed { ArePlaced addr (addr + 2 ^ 24) segments.now }
    requires long { sum_by (λ s. s.len) segments.now ≤ length bytes.now }
    ensures { memory.new.items ≡ memory_from addr segments.now bytes.now }
{
    let mut rest = bytes;
    for segment in segments {
        let (front, behind) = rest.split_at(segment.len as usize);
        append_at(memory, (segment.addr - addr) as usize, front);
        rest = behind;
    }
}

/// The address behind the last segment, or the given one where there is none.
#[tactic(auto, using(crate::proofs::Tables::end_of_last, crate::proofs::Tables::end_of_none))]
fn end_of(addr: u32, segments: &[Segment]) -> u64
    ensures { result ≡ end_of_segments addr segments.now }
{
    match segments.last() {
        Some(last) => last.behind(),
        None => u64::from(addr),
    }
}
