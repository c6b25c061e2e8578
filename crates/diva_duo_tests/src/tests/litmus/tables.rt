// Small programs whose outcome depends on when each hart goes on, under names of the literature.
use diva_test_programs::laid;
//
// Each begins with `addi x1, x0, 1`, `addi x4, x0, 2` and `addi x17, x0, 93`, and then hart 1 branches. Harts load and store the
// words at 0x60 and 0x70, which are 0 at first, and halt.

/// What is looked at behind a run.
#[derive(Clone, Copy)]
pub(super) enum Seen {
    /// A register of a hart.
    Register { hart: u8, number: u8 },
    /// The word of the shared memory at an address.
    Word(u32),
}

pub(super) const LOADED_BY_0: Seen = Seen::Register { hart: 0, number: 2 };

pub(super) const LOADED_BY_1: Seen = Seen::Register { hart: 1, number: 2 };

pub(super) const LOADED_THEN: Seen = Seen::Register { hart: 1, number: 3 };

const FIRST_WORD: Seen = Seen::Word(0x60);

pub(super) const SECOND_WORD: Seen = Seen::Word(0x70);

/// What was seen.
pub(super) type Outcome = [u32; 2];

/// An outcome, and the flushes of each hart, under cores that go by these plans, and for whose loads these values are foretold.
pub(super) type Foretold = (Outcome, [u64; 2], [&'static [u8]; 2], [&'static [u32]; 2]);

/// A program, and what its two harts can come to.
pub(super) struct Litmus {
    pub name: &'static str,
    pub words: &'static [u32],
    pub seen: [Seen; 2],
    /// The outcomes that come, each of which is allowed, and in how many of the 324 runs.
    pub outcomes: &'static [(Outcome, u32)],
    /// The flushes of both harts in all these runs.
    pub flushes: u64,
    /// The cycles of all these runs.
    pub cycles: u64,
    /// Each outcome that is allowed and comes, by claims that are all right; where there are flushes, a value was foretold of an
    /// outcome that is not allowed.
    pub foretold: &'static [Foretold],
}

pub(super) static PROGRAMS: [Litmus; 10] = laid! {
    // Store buffering: each hart stores 1, and loads what the other stores.
    Litmus { name: "SB",
        words: &[0x00100093, 0x00200213, 0x05d00893, 0x00051863, 0x06102023, 0x07002103, 0x00000073, 0x06102823, 0x06002103, 0x00000073],
        seen: [LOADED_BY_0, LOADED_BY_1], outcomes: &[([0, 0], 22), ([0, 1], 148), ([1, 0], 148), ([1, 1], 6)], flushes: 300, cycles: 8237,
        foretold: &[([0, 0], [0, 0], [&[2, 2, 2, 1], &[2, 2, 2, 1]], [&[0], &[0]]),
            ([0, 1], [0, 0], [&[2, 2, 2, 1], &[2, 2, 1, 2]], [&[0], &[1]]), ([1, 0], [0, 0], [&[2, 2, 1, 2], &[2, 2, 2, 1]], [&[1], &[0]]),
            ([1, 1], [0, 0], [&[2, 2, 1, 2], &[2, 2, 1, 2]], [&[1], &[1]])] },
    // The same with a fence in between: one of the harts sees the other's store.
    Litmus { name: "SB+fences",
        words: &[0x00100093, 0x00200213, 0x05d00893, 0x00051a63, 0x06102023, 0x0ff0000f, 0x07002103, 0x00000073, 0x06102823, 0x0ff0000f,
            0x06002103, 0x00000073],
        seen: [LOADED_BY_0, LOADED_BY_1], outcomes: &[([0, 1], 131), ([1, 0], 131), ([1, 1], 62)], flushes: 368, cycles: 8705,
        foretold: &[([0, 1], [0, 0], [&[2, 2, 2, 2], &[0, 2, 2, 2, 2]], [&[0], &[1]]),
            ([1, 0], [0, 0], [&[0, 2, 2, 2, 2], &[2, 2, 2, 2]], [&[1], &[0]]),
            ([1, 1], [0, 0], [&[2, 2, 2, 2], &[2, 2, 2, 2]], [&[1], &[1]]),
            ([1, 1], [1, 1], [&[2, 2, 2, 2], &[2, 2, 2, 2]], [&[0], &[0]])] },
    // The same with a fence in hart 0 alone. It is allowed that neither sees the other's store, but that comes only where a
    // store of hart 1 stands behind others.
    Litmus { name: "SB+fence",
        words: &[0x00100093, 0x00200213, 0x05d00893, 0x00051a63, 0x06102023, 0x0ff0000f, 0x07002103, 0x00000073, 0x06102823, 0x06002103,
            0x00000073],
        seen: [LOADED_BY_0, LOADED_BY_1], outcomes: &[([0, 1], 131), ([1, 0], 170), ([1, 1], 23)], flushes: 334, cycles: 8622,
        foretold: &[([0, 1], [0, 0], [&[2, 2, 2, 2], &[0, 2, 2, 2, 1]], [&[0], &[1]]),
            ([1, 0], [0, 0], [&[2, 2, 2, 2], &[2, 2, 2, 1]], [&[1], &[0]]),
            ([1, 1], [0, 0], [&[2, 2, 2, 2], &[2, 2, 1, 2]], [&[1], &[1]])] },
    // There it comes, in a buffer that holds four stores.
    Litmus { name: "SB+fence, behind stores",
        words: &[0x00100093, 0x00200213, 0x05d00893, 0x00051a63, 0x06102023, 0x0ff0000f, 0x07002103, 0x00000073, 0x06102423, 0x06102623,
            0x06102823, 0x06002103, 0x00000073],
        seen: [LOADED_BY_0, LOADED_BY_1], outcomes: &[([0, 0], 34), ([0, 1], 174), ([1, 0], 104), ([1, 1], 12)], flushes: 284, cycles: 8365,
        foretold: &[([0, 0], [0, 0], [&[2, 2, 4], &[2, 2, 4, 1]], [&[0], &[0]]),
            ([0, 1], [0, 0], [&[2, 2, 4], &[2, 2, 3, 2]], [&[0], &[1]]),
            ([1, 0], [0, 0], [&[0, 2, 2, 1, 1, 2], &[2, 2, 4, 1]], [&[1], &[0]]),
            ([1, 1], [0, 0], [&[0, 2, 2, 1, 1, 2], &[2, 2, 2, 1, 2]], [&[1], &[1]])] },
    // Message passing: hart 0 stores twice, and hart 1 loads in the other order: what was stored last is not seen before the first.
    Litmus { name: "MP",
        words: &[0x00100093, 0x00200213, 0x05d00893, 0x00051863, 0x06102023, 0x06102823, 0x00000073, 0x07002103, 0x06002183, 0x00000073],
        seen: [LOADED_BY_1, LOADED_THEN], outcomes: &[([0, 0], 170), ([0, 1], 52), ([1, 1], 102)], flushes: 154, cycles: 6649,
        foretold: &[([0, 0], [0, 0], [&[2, 2, 2, 1], &[2, 2, 2, 1]], [&[], &[0, 0]]),
            ([0, 1], [0, 0], [&[2, 2, 2, 1], &[2, 2, 1, 2]], [&[], &[0, 1]]),
            ([1, 1], [0, 0], [&[2, 2, 2, 1], &[0, 0, 2, 2, 2, 1]], [&[], &[1, 1]]),
            ([1, 1], [0, 1], [&[2, 2, 2, 1], &[2, 2, 2, 1]], [&[], &[1, 0]])] },
    // Load buffering: each hart loads what the other stores behind its load, and not both see it.
    Litmus { name: "LB",
        words: &[0x00100093, 0x00200213, 0x05d00893, 0x00051863, 0x06002103, 0x06102823, 0x00000073, 0x07002103, 0x06102023, 0x00000073],
        seen: [LOADED_BY_0, LOADED_BY_1], outcomes: &[([0, 0], 62), ([0, 1], 131), ([1, 0], 131)], flushes: 260, cycles: 7959,
        foretold: &[([0, 0], [0, 0], [&[2, 2, 2, 1], &[2, 2, 2, 1]], [&[0], &[0]]),
            ([0, 1], [0, 0], [&[2, 2, 2, 1], &[0, 2, 2, 2, 1]], [&[0], &[1]]),
            ([1, 0], [0, 0], [&[0, 2, 2, 2, 1], &[2, 2, 2, 1]], [&[1], &[0]]),
            ([0, 0], [1, 1], [&[2, 2, 2, 1], &[2, 2, 2, 1]], [&[1], &[1]])] },
    // Two and two writes: both harts store 1 and then 2, in the same words in opposite orders: not both words keep 1.
    Litmus { name: "2+2W",
        words: &[0x00100093, 0x00200213, 0x05d00893, 0x00051863, 0x06102023, 0x06402823, 0x00000073, 0x06102823, 0x06402023, 0x00000073],
        seen: [FIRST_WORD, SECOND_WORD], outcomes: &[([1, 2], 102), ([2, 1], 141), ([2, 2], 81)], flushes: 0, cycles: 4871,
        foretold: &[([1, 2], [0, 0], [&[0, 0, 2, 2, 2, 1], &[2, 2, 2, 1]], [&[], &[]]),
            ([2, 1], [0, 0], [&[2, 2, 2, 1], &[0, 2, 2, 2, 1]], [&[], &[]]),
            ([2, 2], [0, 0], [&[2, 2, 2, 1], &[2, 2, 2, 1]], [&[], &[]])] },
    // Coherence of two reads: hart 1 loads twice what hart 0 stores. It does not see the old value behind the new one.
    Litmus { name: "CoRR",
        words: &[0x00100093, 0x00200213, 0x05d00893, 0x00051663, 0x06102023, 0x00000073, 0x06002103, 0x06002183, 0x00000073],
        seen: [LOADED_BY_1, LOADED_THEN], outcomes: &[([0, 0], 170), ([0, 1], 13), ([1, 1], 141)], flushes: 153, cycles: 6467,
        foretold: &[([0, 0], [0, 0], [&[2, 2, 2], &[2, 2, 2, 1]], [&[], &[0, 0]]),
            ([0, 1], [0, 0], [&[2, 2, 2], &[2, 2, 1, 2]], [&[], &[0, 1]]), ([1, 1], [0, 0], [&[2, 2, 2], &[0, 2, 2, 2, 1]], [&[], &[1, 1]]),
            ([1, 1], [0, 1], [&[2, 2, 2], &[2, 2, 2, 1]], [&[], &[1, 0]])] },
    // Hart 0 stores twice. Hart 1 stores 2 where hart 0 stored last, and loads the other word. That the word keeps 2 and the load
    // is 0 is allowed, but comes only where the store of hart 1 stands behind others.
    Litmus { name: "R",
        words: &[0x00100093, 0x00200213, 0x05d00893, 0x00051863, 0x06102023, 0x06102823, 0x00000073, 0x06402823, 0x06002103, 0x00000073],
        seen: [LOADED_BY_1, SECOND_WORD], outcomes: &[([0, 1], 170), ([1, 1], 13), ([1, 2], 141)], flushes: 150, cycles: 6601,
        foretold: &[([0, 1], [0, 0], [&[2, 2, 2, 1], &[2, 2, 2, 1]], [&[], &[0]]),
            ([1, 1], [0, 0], [&[2, 2, 2, 1], &[2, 2, 1, 2]], [&[], &[1]]),
            ([1, 2], [0, 0], [&[2, 2, 2, 1], &[0, 2, 2, 2, 1]], [&[], &[1]])] },
    // There it comes.
    Litmus { name: "R, behind stores",
        words: &[0x00100093, 0x00200213, 0x05d00893, 0x00051863, 0x06102023, 0x06102823, 0x00000073, 0x06102423, 0x06102623, 0x06402823,
            0x06002103, 0x00000073],
        seen: [LOADED_BY_1, SECOND_WORD], outcomes: &[([0, 1], 95), ([0, 2], 43), ([1, 1], 7), ([1, 2], 179)], flushes: 169, cycles: 7063,
        foretold: &[([0, 1], [0, 0], [&[0, 0, 2, 2, 3], &[2, 2, 4, 1]], [&[], &[0]]),
            ([0, 2], [0, 0], [&[2, 2, 3], &[2, 2, 4, 1]], [&[], &[0]]),
            ([1, 1], [0, 0], [&[0, 0, 2, 2, 3], &[2, 2, 1, 1, 1, 2]], [&[], &[1]]),
            ([1, 2], [0, 0], [&[2, 2, 3], &[2, 2, 3, 2]], [&[], &[1]])] },
};
