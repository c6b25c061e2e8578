// Claims behind older ones, and what a stage of the checker answers of the youngest.
use diva_core::{Diff, Field};
use diva_isa::Record;
use diva_test_programs::{laid, record};

/// A stage of the checker that compares.
#[derive(Clone, Copy)]
pub enum Stage {
    Fetch,
    Operands,
    Execute,
    Memory,
}

/// Claims, the oldest first, and what the stage answers of the youngest in a state whose output holds `put` bytes and that is
/// otherwise at reset.
#[derive(Clone, Copy)]
pub struct Row {
    pub name: &'static str,
    pub stage: Stage,
    pub put: u32,
    pub claims: &'static [Record],
    pub answer: Option<Diff>,
}

/// A record at 0 that leads to 4, of a word that says nothing.
const FIRST: Record = record![0, 0, 0, 0, 0, 0, 4, 0];

/// `addi x1, x0, 5`, claimed to give 6.
const ADDI_6: Record = record![0, 0x00500093, 0, 0, 0, 6, 4, 0];

/// `add x2, x1, x0`, claimed to read 6.
const ADD_6: Record = record![4, 0x00008133, 6, 0, 0, 6, 8, 0];

/// `addi x17, x0, 1`, which asks for the service that puts.
const ADDI_X17: Record = record![0, 0x00100893, 0, 0, 0, 1, 4, 0];

/// `ecall` behind it.
const PUT: Record = record![4, 0x00000073, 1, 0, 0, 0, 8, 0];

pub const ROWS: [Row; 9] = laid! {
    Row { name: "a claimed result is what the next claim reads", stage: Stage::Operands, put: 0, claims: &[ADDI_6, ADD_6], answer: None },
    Row { name: "the due result is not", stage: Stage::Operands, put: 0, claims: &[ADDI_6, Record { src1: 5, ..ADD_6 }],
        answer: Some(Diff { field: Field::Src1, claimed: 5, due: 6 }) },
    Row { name: "the youngest result is read", stage: Stage::Operands, put: 0,
        claims: &[ADDI_6, Record { pc: 4, next: 8, value: 7, ..ADDI_6 }, Record { pc: 8, next: 12, ..ADD_6 }],
        answer: Some(Diff { field: Field::Src1, claimed: 6, due: 7 }) },
    Row { name: "x0 reads 0", stage: Stage::Operands, put: 0,
        claims: &[Record { word: 0x00700013, value: 7, ..FIRST }, Record { pc: 4, word: 0x000000b3, src1: 7, next: 8, ..FIRST }],
        answer: Some(Diff { field: Field::Src1, claimed: 7, due: 0 }) },
    Row { name: "a byte in flight over a word that is loaded", stage: Stage::Memory, put: 0,
        claims: &[Record { word: 0x021000a3, addr: 0x21, value: 0x55, ..FIRST },
            Record { pc: 4, word: 0x02002103, addr: 0x20, value: 0x44332211, next: 8, ..FIRST }],
        answer: Some(Diff { field: Field::Value, claimed: 0x44332211, due: 0x44335511 }) },
    Row { name: "a half word in flight over a word that is loaded", stage: Stage::Memory, put: 0,
        claims: &[Record { word: 0x02101123, addr: 0x22, value: 0xbeef, ..FIRST },
            Record { pc: 4, word: 0x02002103, addr: 0x20, value: 0xbeef2211, next: 8, ..FIRST }],
        answer: None },
    Row { name: "a word in flight over a half word that is loaded", stage: Stage::Memory, put: 0,
        claims: &[Record { word: 0x02102023, addr: 0x20, value: 0xcafef00d, ..FIRST },
            Record { pc: 4, word: 0x02205103, addr: 0x22, value: 0x4433, next: 8, ..FIRST }],
        answer: Some(Diff { field: Field::Value, claimed: 0x4433, due: 0xcafe }) },
    Row { name: "a word in flight over the word that is fetched", stage: Stage::Fetch, put: 0,
        claims: &[Record { word: 0x00102623, addr: 12, value: 0x73, next: 12, ..FIRST }, Record { pc: 12, word: 0x13, next: 16, ..FIRST }],
        answer: Some(Diff { field: Field::Word, claimed: 0x13, due: 0x73 }) },
    Row { name: "a byte in flight fills the output", stage: Stage::Execute, put: 65_535,
        claims: &[ADDI_X17, PUT, Record { pc: 8, next: 12, ..PUT }], answer: Some(Diff { field: Field::Next, claimed: 12, due: 8 }) },
};

/// How many instructions have committed where a read is pending: 2^32 - 10.
pub const COUNT: u32 = 0xfffffff6;

/// `rdinstret x1` behind 63 claims: 2^32 + 53 instructions are before it.
const LOW: Record = record![36, 0xc02020f3, 0, 0, 0, 53, 40, 0];

/// `rdinstreth x1` behind as many.
const HIGH: Record = record![40, 0xc82020f3, 0, 0, 0, 1, 44, 0];

/// Reads behind 63 claims, and what the stage of execution answers. The wrong values are the words of 2^32 - 10, which leaves the
/// older claims out.
pub const READS: [(Record, Option<Diff>); 4] = laid! {
    (LOW, None), (Record { value: COUNT, ..LOW }, Some(Diff { field: Field::Value, claimed: 0xfffffff6, due: 53 })),
    (HIGH, None), (Record { value: 0, ..HIGH }, Some(Diff { field: Field::Value, claimed: 0, due: 1 })),
};
