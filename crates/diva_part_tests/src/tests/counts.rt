// Reads of a count of two words.
use diva_isa::{Look, Record, Regs, record_of};
use diva_memory::Memory;
use diva_test_programs::NOTHING;
use std::test::Fail;

/// A state in which every register is 0, and so many instructions led to its next one, at 32.
#[derive(Drop)]
struct Far {
    regs: Regs,
    memory: Memory,
    instret: u64,
}

impl Look for Far {
    ghost use Rattle.std.specs.Prelude.{[]};

    ghost shows = { λ x. record { regs = x.regs; pc = 32; base = x.memory.base; bytes = x.memory.items; output = []; instret = x.instret; end = 0 } };

    fn pc(&self) -> u32 {
        32
    }

    fn reg(&self, n: u8) -> u32 {
        self.regs.get(n)
    }

    fn byte(&self, addr: u32) -> Option<u8> {
        self.memory.byte(addr)
    }

    fn instret(&self) -> u64 {
        self.instret
    }

    fn out_len(&self) -> u32 {
        0
    }
}

/// Behind 2^32 + 5 instructions a read of the low word, to x1, and one of the high word have these words as their values.
#[test]
fn reads_of_a_count_of_two_words(rt: HostRuntime) -> Result<(), Fail> {
    for (word, value) in [(0xc020_20f3_u32, 5), (0xc820_20f3, 1)] {
        let state = Far {
            regs: Regs::new(),
            memory: Memory::new(rt.alloc(), 32, 4, &word.to_le_bytes())?,
            instret: 0x1_0000_0005,
        };
        let due = Record {
            pc: 32,
            word,
            value,
            next: 36,
            ..NOTHING
        };
        assert_eq!(rt; record_of(&state), due, "{word:08x}");
    }
    Ok(())
}
