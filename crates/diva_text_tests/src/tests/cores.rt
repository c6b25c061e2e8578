// What cores hand over.
use diva_core::{Claims, Core, Output, Told, View};
use diva_isa::Regs;
use diva_memory::Memory;
use diva_storeq::StoreQueue;
use std::alloc::{AllocError, Global};

/// What a core hands over in a cycle with room for so many claims, four at most, to a machine that has done nothing.
pub(crate) fn list_of<C: Core>(
    alloc: Global,
    core: &mut C,
    cycle: u64,
    room: u32,
) -> Result<Claims, AllocError> {
    let regs = Regs::new();
    let memory = Memory::new(alloc, 0, 4, &[])?;
    let queue = StoreQueue::new(alloc, 1)?;
    let output = Output::new(alloc)?;
    let view = View::new(&regs, 0, &memory, &queue, &output, 0);
    let mut list = Claims::new();
    core.cycle(&told(cycle, room), &view, &mut list);
    Ok(list)
}

fn told(cycle: u64, room: u32) -> Told {
    Told {
        cycle,
        count: 0,
        pc: 0,
        epoch: 0,
        pending: 0,
        room: room.min(4),
        idle: 0,
        due: false,
        ended: false,
    }
}
