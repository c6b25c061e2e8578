// What each stage of the checker answers of a claim behind older ones, at reset but for how many bytes were put and how many
// instructions have committed.
mod tables;

use diva_core::{Diff, FutureFile, Output, Pending, View};
use diva_isa::{OUTPUT_LIMIT, Record, Regs};
use diva_memory::Memory;
use diva_storeq::StoreQueue;
use diva_test_programs::NOTHING;
use std::alloc::{AllocError, Global};
use std::test::Fail;
use tables::{COUNT, READS, ROWS, Stage};

/// The most claims that wait at once.
const MOST_PENDING: usize = 64;

/// What memory begins with: zeros up to 32, then the word 44332211, and the words of `rdinstret x1` and `rdinstreth x1`.
static BYTES: [u8; 44] = [
    0, 0, 0, 0, 0, 0, 0, 0, 0, 0, 0, 0, 0, 0, 0, 0, 0, 0, 0, 0, 0, 0, 0, 0, 0, 0, 0, 0, 0, 0, 0, 0,
    0x11, 0x22, 0x33, 0x44, 0xf3, 0x20, 0x20, 0xc0, 0xf3, 0x20, 0x20, 0xc8,
];

/// The claims, all accepted in the first cycle.
fn pending(alloc: Global, claims: &[Record]) -> Result<Pending, AllocError> {
    let mut pending = Pending::new(alloc, MOST_PENDING)?;
    for claim in claims {
        if pending.len() < pending.capacity() {
            pending.push(*claim, 1);
        }
    }
    Ok(pending)
}

/// What a stage answers of the youngest claim.
fn answer(stage: Stage, pending: &Pending, view: &View<'_>) -> Option<Diff> {
    if pending.len() == 0 {
        return None;
    }
    let youngest = pending.len() - 1;
    match stage {
        Stage::Fetch => diva_fetchchk::check(pending, youngest, view),
        Stage::Operands => diva_opchk::check(pending, youngest, view),
        Stage::Execute => diva_execchk::check(pending, youngest, view),
        Stage::Memory => diva_execchk::check_memory(pending, youngest, view),
    }
}

/// What the stage of operands answers of the youngest claim, by the future file behind the older ones.
fn answer_in(pending: &Pending) -> Option<Diff> {
    if pending.len() == 0 {
        return None;
    }
    let youngest = pending.len() - 1;
    let mut future = FutureFile::new();
    for at in 0..youngest {
        if future.claims() < MOST_PENDING {
            future.keep(pending.at(at));
        }
    }
    diva_opchk::check_in(pending.at(youngest), future.regs())
}

/// What a stage answers of the youngest claim, where so many bytes were put and so many instructions have committed.
fn answer_at(
    alloc: Global,
    stage: Stage,
    put: u32,
    count: u32,
    claims: &[Record],
) -> Result<Option<Diff>, AllocError> {
    let (regs, queue) = (Regs::new(), StoreQueue::new(alloc, 1)?);
    let memory = Memory::new(alloc, 0, 64, &BYTES)?;
    let mut output = Output::new(alloc)?;
    for _ in 0..put {
        if output.len() < OUTPUT_LIMIT {
            output.push(0);
        }
    }
    let view = View::new(&regs, 0, &memory, &queue, &output, u64::from(count));
    Ok(answer(stage, &pending(alloc, claims)?, &view))
}

#[test]
fn answers_behind_older_claims(rt: HostRuntime) -> Result<(), Fail> {
    for row in &ROWS {
        let answer = answer_at(rt.alloc(), row.stage, row.put, 0, row.claims)?;
        assert_eq!(rt; answer, row.answer, "{}", row.name);
    }
    Ok(())
}

/// Reads of `instret` behind 63 claims, as many as there can be, that lead to them.
#[test]
fn reads_behind_older_claims(rt: HostRuntime) -> Result<(), Fail> {
    for (read, due) in &READS {
        let older = Record {
            next: read.pc,
            ..NOTHING
        };
        let mut claims = Vec::from_slice(rt.alloc(), &[older; 63])?;
        claims.push(*read)?;
        let answer = answer_at(rt.alloc(), Stage::Execute, 0, COUNT, &claims)?;
        assert_eq!(rt; answer, *due, "{read:?}");
    }
    Ok(())
}

#[test]
fn operands_by_the_future_file(rt: HostRuntime) -> Result<(), Fail> {
    for row in &ROWS {
        if let Stage::Operands = row.stage {
            assert_eq!(rt;
                answer_in(&pending(rt.alloc(), row.claims)?),
                row.answer,
                "{}",
                row.name
            );
        }
    }
    Ok(())
}
