// A byte over a word, and a half word and then a byte.
use diva_memory::Memory;
use diva_storeq::{Masked, Store, StoreQueue};
use std::test::Fail;

const HALF_WORD: Store = Store {
    addr: 34,
    width: 2,
    value: 0xbeef,
};

const BYTE: Store = Store {
    addr: 33,
    width: 1,
    value: 0x55,
};

/// What the two stores write to the word in which they lie.
const MASKED_HALF_WORD: Masked = Masked {
    addr: 32,
    mask: 12,
    bytes: 0xbeef_0000,
};

const MASKED_BYTE: Masked = Masked {
    addr: 32,
    mask: 2,
    bytes: 0x0000_5500,
};

#[test]
fn half_word_and_byte_over_a_word(rt: HostRuntime) -> Result<(), Fail> {
    let mut memory = Memory::new(rt.alloc(), 32, 4, &[0x11, 0x22, 0x33, 0x44])?;
    let mut queue = StoreQueue::new(rt.alloc(), 2)?;
    assert_eq!(rt; queue.word(&memory, 32), Some(0x4433_2211));

    queue.push(HALF_WORD);
    assert!(rt; !queue.full());
    queue.push(BYTE);
    assert_eq!(rt; queue.owed(), 2);
    assert!(rt; queue.full());
    assert_eq!(rt; queue.entry(0), MASKED_HALF_WORD);
    assert_eq!(rt; queue.entry(1), MASKED_BYTE);

    assert_eq!(rt; queue.word(&memory, 32), Some(0xbeef_5511));
    assert_eq!(rt; queue.word(&memory, 33), None);
    assert_eq!(rt;
        shown(&queue, &memory),
        [Some(0x11), Some(0x55), Some(0xef), Some(0xbe)]
    );

    queue.drain(&mut memory);
    assert_eq!(rt; queue.owed(), 1);
    assert_eq!(rt; memory.word(32), Some(0xbeef_2211));
    assert_eq!(rt; queue.word(&memory, 32), Some(0xbeef_5511));
    queue.drain(&mut memory);
    assert_eq!(rt; queue.owed(), 0);
    assert_eq!(rt; memory.word(32), Some(0xbeef_5511));
    Ok(())
}

#[test]
fn byte_over_a_word(rt: HostRuntime) -> Result<(), Fail> {
    let mut memory = Memory::new(rt.alloc(), 32, 4, &[0x11, 0x22, 0x33, 0x44])?;
    let mut queue = StoreQueue::new(rt.alloc(), 2)?;
    queue.push(BYTE);
    assert_eq!(rt; queue.owed(), 1);
    assert_eq!(rt; queue.entry(0), MASKED_BYTE);

    let due = [Some(0x11), Some(0x55), Some(0x33), Some(0x44)];
    assert_eq!(rt; shown(&queue, &memory), due);

    queue.drain(&mut memory);
    assert_eq!(rt; shown(&queue, &memory), due);
    assert_eq!(rt; queue.owed(), 0);
    assert_eq!(rt; memory.word(32), Some(0x4433_5511));
    Ok(())
}

/// The four bytes from 32 on, with the stores laid over memory.
fn shown(queue: &StoreQueue, memory: &Memory) -> [Option<u8>; 4] {
    [
        queue.byte(memory, 32),
        queue.byte(memory, 33),
        queue.byte(memory, 34),
        queue.byte(memory, 35),
    ]
}
