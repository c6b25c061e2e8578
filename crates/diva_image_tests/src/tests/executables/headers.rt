// Executables whose ELF header is changed, or cut.
use super::rows::Due::{Refused, Taken};
use super::rows::{ONE_LOAD, Row};
use diva_test_programs::rows;

/// Each changes the header, or what has to stand behind it.
pub(super) static HEADERS: [Row; 41] = rows! { Row:
    ONE_LOAD { name: "taken" }
    ONE_LOAD { name: "cut to 4", len: 4, due: Refused(20, 4) }
    ONE_LOAD { name: "cut to 5", len: 5, due: Refused(20, 5) }
    ONE_LOAD { name: "cut to 6", len: 6, due: Refused(20, 6) }
    ONE_LOAD { name: "cut to 51", len: 51, due: Refused(20, 51) }
    ONE_LOAD { name: "52 bytes, no header", e_phnum: 0, headers: &[], rest: &[], due: Refused(28, 44) }
    ONE_LOAD { name: "52 bytes, header wanted", len: 52, due: Refused(25, 28) }
    ONE_LOAD { name: "byte 4 is 0", identity: [0, 1, 1], due: Refused(21, 4) }
    ONE_LOAD { name: "byte 4 is 2", identity: [2, 1, 1], due: Refused(21, 4) }
    ONE_LOAD { name: "byte 5 is 0", identity: [1, 0, 1], due: Refused(21, 5) }
    ONE_LOAD { name: "byte 5 is 2", identity: [1, 2, 1], due: Refused(21, 5) }
    ONE_LOAD { name: "byte 6 is 0", identity: [1, 1, 0], due: Refused(21, 6) }
    ONE_LOAD { name: "byte 6 is 2", identity: [1, 1, 2], due: Refused(21, 6) }
    ONE_LOAD { name: "bytes 4 and 6", identity: [2, 1, 2], due: Refused(21, 4) }
    ONE_LOAD { name: "bytes 5 and 6", identity: [1, 2, 0], due: Refused(21, 5) }
    ONE_LOAD { name: "type 0", e_type: 0, due: Refused(22, 16) }
    ONE_LOAD { name: "type 1", e_type: 1, due: Refused(22, 16) }
    ONE_LOAD { name: "type 3", e_type: 3, due: Refused(22, 16) }
    ONE_LOAD { name: "type 258", e_type: 258, due: Refused(22, 16) }
    ONE_LOAD { name: "machine 0", e_machine: 0, due: Refused(23, 18) }
    ONE_LOAD { name: "machine 242", e_machine: 242, due: Refused(23, 18) }
    ONE_LOAD { name: "machine 244", e_machine: 244, due: Refused(23, 18) }
    ONE_LOAD { name: "machine 62", e_machine: 62, due: Refused(23, 18) }
    ONE_LOAD { name: "machine 499", e_machine: 499, due: Refused(23, 18) }
    ONE_LOAD { name: "type and machine", e_type: 3, e_machine: 62, due: Refused(22, 16) }
    ONE_LOAD { name: "byte 6 before type", identity: [1, 1, 0], e_type: 3, due: Refused(21, 6) }
    ONE_LOAD { name: "header size 0", e_phentsize: 0, due: Refused(24, 42) }
    ONE_LOAD { name: "header size 31", e_phentsize: 31, due: Refused(24, 42) }
    ONE_LOAD { name: "header size 33", e_phentsize: 33, due: Refused(24, 42) }
    ONE_LOAD { name: "header size 56", e_phentsize: 56, due: Refused(24, 42) }
    ONE_LOAD { name: "header size 288", e_phentsize: 288, due: Refused(24, 42) }
    ONE_LOAD { name: "header size 56 of none", e_phentsize: 56, e_phnum: 0, headers: &[], rest: &[], due: Refused(28, 44) }
    ONE_LOAD { name: "machine before header size", e_machine: 0, e_phentsize: 31, due: Refused(23, 18) }
    ONE_LOAD { name: "header size before place", e_phoff: 1000, e_phentsize: 31, due: Refused(24, 42) }
    ONE_LOAD { name: "headers end at the end", headers: &[(1, 0, 0x1_0000, 4, 4)], rest: &[],
        due: Taken(0x1_0000, 4, 0x1_0000, &[0x7f, 0x45, 0x4c, 0x46]) }
    ONE_LOAD { name: "headers one byte past", len: 83, due: Refused(25, 28) }
    ONE_LOAD { name: "place far past", e_phoff: 0xffff_ffe0, due: Refused(25, 28) }
    ONE_LOAD { name: "none, place at the end", e_phnum: 0, headers: &[], rest: &[], due: Refused(28, 44) }
    ONE_LOAD { name: "none, place past the end", e_phoff: 53, e_phnum: 0, headers: &[], rest: &[], due: Refused(25, 28) }
    ONE_LOAD { name: "many headers", e_phnum: 0xffff, due: Refused(25, 28) }
    ONE_LOAD { name: "headers at an odd place", e_phoff: 53, before: &[0], headers: &[(1, 52, 0x1_0000, 1, 8)], rest: &[],
        due: Taken(0x1_0000, 8, 0x1_0000, &[0]) }
};
