// The shapes of the literature on memory models by their usual names, on given lists: the claims of one outcome.
//
// Each program begins as those of `tables` do. Four claims a cycle are handed over for each hart.
use super::tables::{LOADED_BY_0, LOADED_BY_1, LOADED_THEN, Outcome, SECOND_WORD, Seen};
use diva_test_programs::laid;

/// What becomes of the claims.
#[derive(Clone, Copy)]
pub(super) enum Came {
    /// All commit, and the outcome that they are of comes.
    Comes,
    /// All commit, and memory is left with another value.
    Otherwise,
    /// The outcome does not come: a load of hart 0, of hart 1 or of both claims a value that is not due.
    Flushes([bool; 2]),
}

const BY_0: Came = Came::Flushes([true, false]);

const BY_1: Came = Came::Flushes([false, true]);

const BY_BOTH: Came = Came::Flushes([true, true]);

/// A shape: a program, and the claims of an outcome.
pub(super) struct Shape {
    pub name: &'static str,
    pub words: &'static [u32],
    /// The tape of each hart.
    pub tapes: [&'static [u8]; 2],
    pub seen: [Seen; 2],
    pub outcome: Outcome,
    /// What becomes of it where hart 0 begins 3, 2 and 1 cycles later, both begin at once, and hart 1 begins 1, 2 and 3 later.
    pub came: [Came; 7],
}

pub(super) static SHAPES: [Shape; 7] = laid! {
    // Store buffering: each hart stores 1, and loads what the other stores. Neither sees the other's store where both loads commit while
    // both stores are owed.
    Shape { name: "SB",
        words: &[0x00100093, 0x00200213, 0x05d00893, 0x00051863, 0x06102023, 0x07002103, 0x00000073, 0x06102823, 0x06002103, 0x00000073],
        tapes: [b"0 100093 0 0 0 1 4 0 ; 4 200213 0 0 0 2 8 0 ; 8 5d00893 0 0 0 5d c 0 ; c 51863 0 0 0 0 10 0\n\
            10 6102023 0 1 60 1 14 0 ; 14 7002103 0 0 70 0 18 0 ; 18 73 5d 0 0 0 18 100",
            b"0 100093 0 0 0 1 4 0 ; 4 200213 0 0 0 2 8 0 ; 8 5d00893 0 0 0 5d c 0 ; c 51863 1 0 0 0 1c 0\n\
            1c 6102823 0 1 70 1 20 0 ; 20 6002103 0 0 60 0 24 0 ; 24 73 5d 1 0 0 24 101"],
        seen: [LOADED_BY_0, LOADED_BY_1], outcome: [0, 0], came: [BY_0, BY_0, BY_0, Came::Comes, BY_1, BY_1, BY_1] },
    // The same with a FENCE in between, which waits for the store before it. So the load of one hart at least is due to give 1.
    Shape { name: "SB+fences",
        words: &[0x00100093, 0x00200213, 0x05d00893, 0x00051a63, 0x06102023, 0x0ff0000f, 0x07002103, 0x00000073, 0x06102823, 0x0ff0000f,
            0x06002103, 0x00000073],
        tapes: [b"0 100093 0 0 0 1 4 0 ; 4 200213 0 0 0 2 8 0 ; 8 5d00893 0 0 0 5d c 0 ; c 51a63 0 0 0 0 10 0\n\
            10 6102023 0 1 60 1 14 0 ; 14 ff0000f 0 0 0 0 18 0 ; 18 7002103 0 0 70 0 1c 0 ; 1c 73 5d 0 0 0 1c 100",
            b"0 100093 0 0 0 1 4 0 ; 4 200213 0 0 0 2 8 0 ; 8 5d00893 0 0 0 5d c 0 ; c 51a63 1 0 0 0 20 0\n\
            20 6102823 0 1 70 1 24 0 ; 24 ff0000f 0 0 0 0 28 0 ; 28 6002103 0 0 60 0 2c 0 ; 2c 73 5d 1 0 0 2c 101"],
        seen: [LOADED_BY_0, LOADED_BY_1], outcome: [0, 0], came: [BY_0, BY_0, BY_0, BY_BOTH, BY_1, BY_1, BY_1] },
    // Message passing: hart 0 stores twice, and hart 1 loads in the other order. It is claimed that the second store is seen and the
    // first is not.
    Shape { name: "MP",
        words: &[0x00100093, 0x00200213, 0x05d00893, 0x00051863, 0x06102023, 0x06102823, 0x00000073, 0x07002103, 0x06002183, 0x00000073],
        tapes: [b"0 100093 0 0 0 1 4 0 ; 4 200213 0 0 0 2 8 0 ; 8 5d00893 0 0 0 5d c 0 ; c 51863 0 0 0 0 10 0\n\
            10 6102023 0 1 60 1 14 0 ; 14 6102823 0 1 70 1 18 0 ; 18 73 5d 0 0 0 18 100",
            b"0 100093 0 0 0 1 4 0 ; 4 200213 0 0 0 2 8 0 ; 8 5d00893 0 0 0 5d c 0 ; c 51863 1 0 0 0 1c 0\n\
            1c 7002103 0 0 70 1 20 0 ; 20 6002183 0 0 60 0 24 0 ; 24 73 5d 1 0 0 24 101"],
        seen: [LOADED_BY_1, LOADED_THEN], outcome: [1, 0], came: [BY_1, BY_1, BY_1, BY_1, BY_1, BY_1, BY_1] },
    // Load buffering: each hart loads what the other stores behind its load. It is claimed that both see it.
    Shape { name: "LB",
        words: &[0x00100093, 0x00200213, 0x05d00893, 0x00051863, 0x06002103, 0x06102823, 0x00000073, 0x07002103, 0x06102023, 0x00000073],
        tapes: [b"0 100093 0 0 0 1 4 0 ; 4 200213 0 0 0 2 8 0 ; 8 5d00893 0 0 0 5d c 0 ; c 51863 0 0 0 0 10 0\n\
            10 6002103 0 0 60 1 14 0 ; 14 6102823 0 1 70 1 18 0 ; 18 73 5d 0 0 0 18 100",
            b"0 100093 0 0 0 1 4 0 ; 4 200213 0 0 0 2 8 0 ; 8 5d00893 0 0 0 5d c 0 ; c 51863 1 0 0 0 1c 0\n\
            1c 7002103 0 0 70 1 20 0 ; 20 6102023 0 1 60 1 24 0 ; 24 73 5d 1 0 0 24 101"],
        seen: [LOADED_BY_0, LOADED_BY_1], outcome: [1, 1], came: [BY_BOTH, BY_BOTH, BY_BOTH, BY_BOTH, BY_BOTH, BY_BOTH, BY_BOTH] },
    // Coherence of two reads: hart 1 loads twice what hart 0 stores. It is claimed that the old value is seen behind the new one.
    Shape { name: "CoRR",
        words: &[0x00100093, 0x00200213, 0x05d00893, 0x00051663, 0x06102023, 0x00000073, 0x06002103, 0x06002183, 0x00000073],
        tapes: [b"0 100093 0 0 0 1 4 0 ; 4 200213 0 0 0 2 8 0 ; 8 5d00893 0 0 0 5d c 0 ; c 51663 0 0 0 0 10 0\n\
            10 6102023 0 1 60 1 14 0 ; 14 73 5d 0 0 0 14 100",
            b"0 100093 0 0 0 1 4 0 ; 4 200213 0 0 0 2 8 0 ; 8 5d00893 0 0 0 5d c 0 ; c 51663 1 0 0 0 18 0\n\
            18 6002103 0 0 60 1 1c 0 ; 1c 6002183 0 0 60 0 20 0 ; 20 73 5d 1 0 0 20 101"],
        seen: [LOADED_BY_1, LOADED_THEN], outcome: [1, 0], came: [BY_1, BY_1, BY_1, BY_1, BY_1, BY_1, BY_1] },
    // R: hart 0 stores twice. Hart 1 stores 2 where hart 0 stores last, behind two other stores, and loads what hart 0 stores first. It
    // is claimed that the load gives 0, and looked at whether the word keeps 2.
    Shape { name: "R",
        words: &[0x00100093, 0x00200213, 0x05d00893, 0x00051863, 0x06102023, 0x06102823, 0x00000073, 0x06102423, 0x06102623, 0x06402823,
            0x06002103, 0x00000073],
        tapes: [b"0 100093 0 0 0 1 4 0 ; 4 200213 0 0 0 2 8 0 ; 8 5d00893 0 0 0 5d c 0 ; c 51863 0 0 0 0 10 0\n\
            10 6102023 0 1 60 1 14 0 ; 14 6102823 0 1 70 1 18 0 ; 18 73 5d 0 0 0 18 100",
            b"0 100093 0 0 0 1 4 0 ; 4 200213 0 0 0 2 8 0 ; 8 5d00893 0 0 0 5d c 0 ; c 51863 1 0 0 0 1c 0\n\
            1c 6102423 0 1 68 1 20 0 ; 20 6102623 0 1 6c 1 24 0 ; 24 6402823 0 2 70 2 28 0 ; 28 6002103 0 0 60 0 2c 0\n2c 73 5d 1 0 0 2c 101"],
        seen: [LOADED_BY_1, SECOND_WORD], outcome: [0, 2],
        came: [Came::Otherwise, Came::Otherwise, Came::Comes, Came::Comes, BY_1, BY_1, BY_1] },
    // The same with a FENCE before the load.
    Shape { name: "R+fence",
        words: &[0x00100093, 0x00200213, 0x05d00893, 0x00051863, 0x06102023, 0x06102823, 0x00000073, 0x06102423, 0x06102623, 0x06402823,
            0x0ff0000f, 0x06002103, 0x00000073],
        tapes: [b"0 100093 0 0 0 1 4 0 ; 4 200213 0 0 0 2 8 0 ; 8 5d00893 0 0 0 5d c 0 ; c 51863 0 0 0 0 10 0\n\
            10 6102023 0 1 60 1 14 0 ; 14 6102823 0 1 70 1 18 0 ; 18 73 5d 0 0 0 18 100",
            b"0 100093 0 0 0 1 4 0 ; 4 200213 0 0 0 2 8 0 ; 8 5d00893 0 0 0 5d c 0 ; c 51863 1 0 0 0 1c 0\n\
            1c 6102423 0 1 68 1 20 0 ; 20 6102623 0 1 6c 1 24 0 ; 24 6402823 0 2 70 2 28 0 ; 28 ff0000f 0 0 0 0 2c 0\n\
            2c 6002103 0 0 60 0 30 0 ; 30 73 5d 1 0 0 30 101"],
        seen: [LOADED_BY_1, SECOND_WORD], outcome: [0, 2], came: [Came::Otherwise, BY_1, BY_1, BY_1, BY_1, BY_1, BY_1] },
};
