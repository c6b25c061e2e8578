// Programs, and what the core hands over of them, worked out by hand from the rules of its calls.
use diva_test_programs::{laid, rows};
//
// A call in which the epoch is new takes the machine's state, which then fetches two words. What was fetched in one call can
// begin in the next one, two in a call at most, and what takes one cycle is done, and handed over, in the call after that.
// So of a program of such instructions the call 3 hands over the first two, the call 4 the next two, and so on.

/// What is told in a call that differs from call to call, and the list that is due.
#[derive(Clone, Copy)]
pub(super) struct Call {
    pub epoch: u64,
    pub count: u64,
    pub pending: u32,
    pub room: u32,
    pub list: &'static [Claimed],
}

/// What is compared of a claim: its pc, value, next and end.
pub(super) type Claimed = (u32, u32, u32, u32);

/// A program and the calls of a core that is shown it.
pub(super) struct Row {
    pub name: &'static str,
    /// The words that memory begins with, 16 at most; it has 64 bytes.
    pub words: &'static [u32],
    pub calls: &'static [Call],
}

/// A call of the first epoch with room for two, where nothing is handed over.
const NONE: Call = Call {
    epoch: 0,
    count: 0,
    pending: 0,
    room: 2,
    list: &[],
};

/// The same where 2^32 + 5 instructions have committed.
const FAR: Call = Call {
    count: 0x1_0000_0005,
    ..NONE
};

/// The same where both instructions of a loop are handed over: `addi x1, x0, 1`, and `beq x0, x0, -4`, which leads back to it.
const BOTH: Call = Call {
    list: &[(0, 1, 4, 0), (4, 0, 0, 0)],
    ..NONE
};

/// `addi x0, x0, 0`.
const NOP: u32 = 0x00000013;

pub(super) static ROWS: [Row; 11] = laid! {
    // addi x1, x0, 1 and addi x2, x0, 2. The epoch is new in call 4, but there is no room before call 6. So the core does
    // nothing in the calls 4 and 5, takes the machine's state in call 6, and begins anew: call 8 hands over the first two again.
    Row { name: "a flush, with no room at first", words: &[0x00100093, 0x00200113, NOP, NOP, NOP, NOP, NOP, NOP],
        calls: &rows! { Call: NONE {} NONE {} NONE { list: &[(0, 1, 4, 0), (4, 2, 8, 0)] } NONE { epoch: 1, room: 0 } NONE { epoch: 1, room: 0 }
            NONE { epoch: 1 }
            NONE { epoch: 1 } NONE { epoch: 1, list: &[(0, 1, 4, 0), (4, 2, 8, 0)] } } },
    // beq x0, x0, 12, which leads forward, is predicted not to be taken. It is done in call 3, and leads to 12: what was fetched
    // behind it, from 4 on, is removed, and in the same call the fetch goes on at 12. That begins in call 4 and is done in call 5.
    Row { name: "a branch that was predicted wrong", words: &[0x00000663, 0x00100093, 0x00200113, 0x00300193, 0x00400213, NOP, NOP, NOP],
        calls: &rows! { Call: NONE {} NONE {} NONE { list: &[(0, 0, 12, 0)] } NONE {} NONE { list: &[(12, 3, 16, 0), (16, 4, 20, 0)] } } },
    // The branch leads backwards, and so is predicted to be taken. It is, so each call from the third on hands over both.
    Row { name: "a branch backwards", words: &[0x00100093, 0xfe000ee3],
        calls: &rows! { Call: NONE {} NONE {} BOTH {} BOTH {} BOTH {} } },
    // bne x0, x0, -6 leads backwards to no multiple of 4, so the next word is predicted. It goes on there: nothing is removed, and
    // call 4 hands over what was fetched in call 2.
    Row { name: "a target that is no multiple of 4", words: &[0xfe001de3, NOP, NOP, NOP, NOP, NOP, NOP, NOP],
        calls: &rows! { Call: NONE {} NONE {} NONE { list: &[(0, 0, 4, 0), (4, 0, 8, 0)] } NONE { list: &[(8, 0, 12, 0), (12, 0, 16, 0)] } } },
    // mul x1, x0, x0; sw x1, 56(x0); lw x2, 60(x0), which reads 55; addi x3, x0, 3. The multiplication begins in call 2 and runs 3
    // cycles, so it is done in call 5, and only then has the store its word. It begins in call 5, and is done in call 6. The load, of
    // another address, waits for that: it begins in call 6, runs 2 cycles, and is done in call 8. The addition began in call 3.
    Row { name: "a load that waits for an older store",
        words: &[0x020000b3, 0x02102c23, 0x03c02103, 0x00300193, NOP, NOP, NOP, NOP, NOP, NOP, NOP, NOP, NOP, NOP, NOP, 0x00000055],
        calls: &rows! { Call: NONE {} NONE {} NONE {} NONE {} NONE { list: &[(0, 0, 4, 0)] } NONE { list: &[(4, 0, 8, 0)] } NONE {}
            NONE { list: &[(8, 0x55, 12, 0), (12, 3, 16, 0)] } } },
    // addi x1, x0, 85; addi x2, x0, 102; sb x1, 57(x0); sb x2, 58(x0); lw x3, 56(x0), where 44332211 stands. Both stores are done in
    // call 4, which has room for one: the first one goes to the ring, and the second stays in the window. The load, fetched in call
    // 3, begins in call 4 and sees one byte of each over two of memory. It is done in call 6.
    Row { name: "a load of bytes from three places",
        words: &[0x05500093, 0x06600113, 0x02100ca3, 0x02200d23, 0x03802183, NOP, NOP, NOP, NOP, NOP, NOP, NOP, NOP, NOP, 0x44332211],
        calls: &rows! { Call: NONE {} NONE {} NONE { list: &[(0, 0x55, 4, 0), (4, 0x66, 8, 0)] }
            NONE { pending: 2, room: 1, list: &[(8, 0x55, 12, 0)] }
            NONE { pending: 3, list: &[(12, 0x66, 16, 0)] } NONE { pending: 4, list: &[(16, 0x44665511, 20, 0), (20, 0, 24, 0)] } } },
    // div x1, x0, x0, which comes to all ones; addi x17, x0, 1; ecall, which puts the byte 0; and others. The division begins in call 2
    // and runs 8 cycles, so it is done in call 10, and handed over there with the addition. Only then is the call the oldest: it
    // begins in call 10, and is done in call 11.
    Row { name: "a call that waits for a division",
        words: &[0x020040b3, 0x00100893, 0x00000073, NOP, NOP, NOP, NOP, NOP, NOP, NOP, NOP, NOP, NOP, NOP, NOP, NOP],
        calls: &rows! { Call: NONE {} NONE {} NONE {} NONE {} NONE {} NONE {} NONE {} NONE {} NONE {}
            NONE { list: &[(0, 0xffffffff, 4, 0), (4, 1, 8, 0)] }
            NONE { list: &[(8, 0, 12, 0), (12, 0, 16, 0)] } } },
    // div x1, x0, x0; addi x0, x0, 0; rdinstret x2; rdinstreth x3; and others. The core takes the machine's state in call 1, behind
    // 2^32 + 5 instructions. The division is done in call 10, and handed over with the addition behind it: the next instruction has
    // 2^32 + 7 before it. Only then is the first read the oldest. It begins in call 10 and is done in call 11, in which the second one
    // is the oldest: that is done in call 12, and handed over with the addition behind it.
    Row { name: "reads of instret, each of which waits to be the oldest",
        words: &[0x020040b3, NOP, 0xc0202173, 0xc82021f3, NOP, NOP, NOP, NOP, NOP, NOP, NOP, NOP, NOP, NOP, NOP, NOP],
        calls: &rows! { Call: FAR {} FAR {} FAR {} FAR {} FAR {} FAR {} FAR {} FAR {} FAR {} FAR { list: &[(0, 0xffffffff, 4, 0), (4, 0, 8, 0)] }
            FAR { list: &[(8, 7, 12, 0)] } FAR { list: &[(12, 1, 16, 0), (16, 0, 20, 0)] } } },
    // ecall, for service 0, which nobody serves: it is done in call 3, and ends by trap 8. What was fetched behind it is removed, and
    // nothing follows, whatever the room.
    Row { name: "nothing behind an end", words: &[0x00000073, NOP, NOP, NOP, NOP, NOP, NOP, NOP],
        calls: &rows! { Call: NONE {} NONE {} NONE { list: &[(0, 0, 0, 9)] } NONE {} NONE {} NONE {} } },
    // mul x1, x0, x0; beq x1, x0, 12; a word that says nothing, at 8; and others. The branch, predicted not to be taken, waits for the
    // multiplication until call 5. The word at 8 begins in call 3, and in call 4 it ends by trap 2: the fetch stops. In call 6 the
    // branch is done and leads to 16: the word at 8 is removed, and the fetch goes on, at 16. That is done in call 8.
    Row { name: "an end that was fetched by mistake", words: &[0x020000b3, 0x00008663, 0x00000000, NOP, NOP, NOP, NOP, NOP, NOP, NOP, NOP, NOP],
        calls: &rows! { Call: NONE {} NONE {} NONE {} NONE {} NONE { list: &[(0, 0, 4, 0)] } NONE { list: &[(4, 0, 16, 0)] } NONE {}
            NONE { list: &[(16, 0, 20, 0), (20, 0, 24, 0)] } } },
    // jal x0, 64, which is predicted to go there. Outside of memory no word stands, so what is fetched in call 1 behind it is trap 1,
    // and the fetch stops. Both begin in call 2, and are done in call 3.
    Row { name: "a jump out of memory", words: &[0x0400006f, NOP, NOP, NOP, NOP, NOP, NOP, NOP],
        calls: &rows! { Call: NONE {} NONE {} NONE { list: &[(0, 4, 64, 0), (64, 0, 64, 2)] } NONE {} NONE {} } },
};
