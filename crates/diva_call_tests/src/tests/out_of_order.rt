// What the out-of-order core hands over, call by call, where nothing commits meanwhile.
mod tables;

use diva_core::{Claims, Core, Output, Told, View};
use diva_isa::Regs;
use diva_memory::Memory;
use diva_ooo::Ooo;
use diva_storeq::StoreQueue;
use std::alloc::{AllocError, Global};
use std::process::Abort;
use std::test::Fail;
use tables::{Call, Claimed, ROWS, Row};

/// What the core is told in a call.
fn told(cycle: u64, call: &Call) -> Told {
    Told {
        cycle,
        count: call.count,
        pc: 0,
        epoch: call.epoch,
        pending: call.pending.min(60),
        room: call.room.min(4),
        idle: 0,
        due: false,
        ended: false,
    }
}

/// 64 bytes of memory that begin with these words.
fn memory(alloc: Global, words: &[u32]) -> Result<Memory, Fail> {
    let mut bytes = Vec::new(alloc);
    for word in words {
        bytes.extend_from_slice(&word.to_le_bytes())?;
    }
    if 64 < bytes.len() {
        return Err(Fail::new("more than 16 words"));
    }
    Ok(Memory::new(alloc, 0, 64, &bytes)?)
}

/// What the core hands over in a call.
fn handed_over(core: &mut Ooo, told: &Told, view: &View<'_>) -> Claims {
    let mut list = Claims::new();
    core.cycle(told, view, &mut list);
    list
}

/// What is compared of the claims of a list.
fn claimed_in(alloc: Global, list: &Claims) -> Result<Vec<Claimed>, AllocError> {
    let mut claimed = Vec::new(alloc);
    for claim in list.as_slice() {
        claimed.push((claim.pc, claim.value, claim.next, claim.end))?;
    }
    Ok(claimed)
}

/// Calls a new core that is shown the row's program at reset, and compares the list of each call.
fn compare_calls(rt: &impl Abort, alloc: Global, row: &Row) -> Result<(), Fail> {
    let (regs, memory) = (Regs::new(), memory(alloc, row.words)?);
    let (queue, output) = (StoreQueue::new(alloc, 1)?, Output::new(alloc)?);
    let view = View::new(&regs, 0, &memory, &queue, &output, 0);
    let mut core = Ooo::new(alloc)?;
    for (place, call) in (1..).zip(row.calls) {
        let list = handed_over(&mut core, &told(place, call), &view);
        let claimed = claimed_in(alloc, &list)?;
        assert_eq!(rt; claimed.as_slice(), call.list, "{}, call {place}", row.name);
    }
    Ok(())
}

#[test]
fn calls_of_the_core(rt: HostRuntime) -> Result<(), Fail> {
    for row in &ROWS {
        compare_calls(&rt, rt.alloc(), row)?;
    }
    Ok(())
}
