// Executables whose program headers are changed.
use super::rows::Due::{Refused, Taken};
use super::rows::{ONE_LOAD, Row, TWO_LOADS, WORD};
use diva_test_programs::rows;

/// Each changes the program headers.
pub(super) static LOADS: [Row; 39] = rows! { Row:
    ONE_LOAD { name: "dynamic", headers: &[(2, 0, 0x1_0000, 4, 4)], due: Refused(26, 52) }
    ONE_LOAD { name: "interpreter", headers: &[(3, 0, 0x1_0000, 4, 4)], due: Refused(26, 52) }
    TWO_LOADS { name: "load, then dynamic", headers: &[(1, 116, 0x1_0000, 4, 4), (2, 0, 0x1_0000, 4, 4)], due: Refused(26, 84) }
    TWO_LOADS { name: "load, then interpreter", headers: &[(1, 116, 0x1_0000, 4, 4), (3, 0, 0x1_0000, 4, 4)], due: Refused(26, 84) }
    TWO_LOADS { name: "dynamic before a bad load", headers: &[(2, 0, 0x1_0000, 4, 4), (1, 5000, 0x1_0000, 4, 4)], due: Refused(26, 52) }
    TWO_LOADS { name: "bad load before a dynamic", headers: &[(1, 5000, 0x1_0000, 4, 4), (2, 0, 0x1_0000, 4, 4)], due: Refused(27, 52) }
    TWO_LOADS { name: "size before dynamic", headers: &[(2, 0, 0x1_0000, 4, 4)], due: Refused(25, 28) }
    TWO_LOADS { name: "other type 0", headers: &[(0, 0xffff_ffff, 0x1_0000, 0xffff_ffff, 1), (1, 116, 0x1_0000, 4, 4)],
        due: Taken(0x1_0000, 4, 0x1_0000, WORD) }
    TWO_LOADS { name: "other type 4", headers: &[(4, 0xffff_ffff, 0x1_0000, 0xffff_ffff, 1), (1, 116, 0x1_0000, 4, 4)],
        due: Taken(0x1_0000, 4, 0x1_0000, WORD) }
    TWO_LOADS { name: "other type 5", headers: &[(5, 0xffff_ffff, 0x1_0000, 0xffff_ffff, 1), (1, 116, 0x1_0000, 4, 4)],
        due: Taken(0x1_0000, 4, 0x1_0000, WORD) }
    TWO_LOADS { name: "other type 6", headers: &[(6, 0xffff_ffff, 0x1_0000, 0xffff_ffff, 1), (1, 116, 0x1_0000, 4, 4)],
        due: Taken(0x1_0000, 4, 0x1_0000, WORD) }
    TWO_LOADS { name: "other type 7", headers: &[(7, 0xffff_ffff, 0x1_0000, 0xffff_ffff, 1), (1, 116, 0x1_0000, 4, 4)],
        due: Taken(0x1_0000, 4, 0x1_0000, WORD) }
    TWO_LOADS { name: "other type 6474e551", headers: &[(0x6474_e551, 0xffff_ffff, 0x1_0000, 0xffff_ffff, 1), (1, 116, 0x1_0000, 4, 4)],
        due: Taken(0x1_0000, 4, 0x1_0000, WORD) }
    TWO_LOADS { name: "other type 70000003", headers: &[(0x7000_0003, 0xffff_ffff, 0x1_0000, 0xffff_ffff, 1), (1, 116, 0x1_0000, 4, 4)],
        due: Taken(0x1_0000, 4, 0x1_0000, WORD) }
    TWO_LOADS { name: "other type ffffffff", headers: &[(0xffff_ffff, 0xffff_ffff, 0x1_0000, 0xffff_ffff, 1), (1, 116, 0x1_0000, 4, 4)],
        due: Taken(0x1_0000, 4, 0x1_0000, WORD) }
    ONE_LOAD { name: "more of the file than memory", headers: &[(1, 84, 0x1_0000, 5, 4)], rest: &[0x13, 0, 0, 0, 0x13, 0, 0, 0],
        due: Refused(27, 52) }
    ONE_LOAD { name: "as much" }
    ONE_LOAD { name: "less", headers: &[(1, 84, 0x1_0000, 3, 4)], due: Taken(0x1_0000, 4, 0x1_0000, &[0x13, 0, 0]) }
    ONE_LOAD { name: "bytes to the end", headers: &[(1, 84, 0x1_0000, 4, 8)], due: Taken(0x1_0000, 8, 0x1_0000, WORD) }
    ONE_LOAD { name: "bytes one past the end", headers: &[(1, 85, 0x1_0000, 4, 8)], due: Refused(27, 52) }
    ONE_LOAD { name: "no bytes, place at the end", headers: &[(1, 88, 0x1_0000, 0, 8)], due: Taken(0x1_0000, 8, 0x1_0000, &[]) }
    ONE_LOAD { name: "no bytes, place past the end", headers: &[(1, 89, 0x1_0000, 0, 8)], due: Refused(27, 52) }
    ONE_LOAD { name: "place and bytes wrap round", headers: &[(1, 0xffff_fffc, 0x1_0000, 8, 8)], due: Refused(27, 52) }
    ONE_LOAD { name: "memory to the top", e_entry: 0xffff_fff8, headers: &[(1, 84, 0xffff_fff8, 4, 8)],
        due: Taken(0xffff_fff8, 8, 0xffff_fff8, WORD) }
    ONE_LOAD { name: "memory past the top", e_entry: 0xffff_fff8, headers: &[(1, 84, 0xffff_fff8, 4, 9)], due: Refused(27, 52) }
    ONE_LOAD { name: "address and memory wrap round", e_entry: 0xffff_fffc, headers: &[(1, 84, 0xffff_fffc, 4, 0xffff_ffff)],
        due: Refused(27, 52) }
    TWO_LOADS { name: "next to each other" }
    TWO_LOADS { name: "over by one", headers: &[(1, 116, 0x1_0000, 4, 5), (1, 116, 0x1_0004, 4, 4)], due: Refused(27, 84) }
    TWO_LOADS { name: "before", headers: &[(1, 116, 0x1_0004, 4, 4), (1, 116, 0x1_0000, 4, 4)], due: Refused(27, 84) }
    TWO_LOADS { name: "the same", headers: &[(1, 116, 0x1_0000, 4, 4), (1, 116, 0x1_0000, 4, 4)], due: Refused(27, 84) }
    TWO_LOADS { name: "over the file bytes only as memory", headers: &[(1, 116, 0x1_0000, 1, 16), (1, 116, 0x1_000f, 1, 1)], due: Refused(27, 84) }
    ONE_LOAD { name: "third below the first", e_phnum: 3, headers: &[(1, 148, 0x1_0000, 4, 4), (1, 148, 0x1_0010, 4, 4), (1, 148, 0x1_0002, 4, 4)],
        due: Refused(27, 116) }
    ONE_LOAD { name: "third within the second", e_phnum: 3, headers: &[(1, 148, 0x1_0000, 4, 4), (1, 148, 0x1_0010, 4, 8), (1, 148, 0x1_0014, 4, 4)],
        due: Refused(27, 116) }
    TWO_LOADS { name: "an empty load below", headers: &[(1, 116, 0x1_0000, 4, 4), (1, 116, 0x100, 77, 0)],
        due: Taken(0x1_0000, 4, 0x1_0000, WORD) }
    TWO_LOADS { name: "an empty load first", headers: &[(1, 116, 0x100, 0, 0), (1, 116, 0x1_0000, 4, 4)], due: Taken(0x1_0000, 4, 0x1_0000, WORD) }
    TWO_LOADS { name: "only empty loads", headers: &[(1, 116, 0x1_0000, 0, 0), (1, 116, 0x2_0000, 0, 0)], due: Refused(28, 44) }
    ONE_LOAD { name: "no header at all", e_phnum: 0, headers: &[], rest: &[], due: Refused(28, 44) }
    ONE_LOAD { name: "no load", headers: &[(4, 0, 0x1_0000, 4, 4)], due: Refused(28, 44) }
    TWO_LOADS { name: "no load, dynamic after", headers: &[(4, 0, 0x1_0000, 4, 4), (2, 0, 0x1_0000, 4, 4)], due: Refused(26, 84) }
};
