// Executables whose memory is changed.
use super::rows::Due::{Far, Refused, Taken};
use super::rows::{ONE_LOAD, Row, TWO_LOADS, WORD};
use diva_test_programs::rows;

/// Each changes where memory lies, where it is entered, or what it begins with.
pub(super) static MEMORY: [Row; 48] = rows! { Row:
    ONE_LOAD { name: "size 2^24", headers: &[(1, 84, 0x1_0000, 4, 0x100_0000)], due: Taken(0x1_0000, 0x100_0000, 0x1_0000, WORD) }
    ONE_LOAD { name: "size 2^24 + 1 byte", headers: &[(1, 84, 0x1_0000, 4, 0x100_0001)], due: Refused(29, 0) }
    ONE_LOAD { name: "size 2^24 by the odd base", headers: &[(1, 84, 0x1_0003, 1, 0xff_fffd)],
        due: Taken(0x1_0000, 0x100_0000, 0x1_0000, &[0, 0, 0, 0x13]) }
    ONE_LOAD { name: "size past by the odd base", headers: &[(1, 84, 0x1_0003, 1, 0xff_fffe)], due: Refused(29, 0) }
    ONE_LOAD { name: "size 2^24 with room", headers: &[(1, 84, 0x1_0000, 4, 8)], room: 16_777_208,
        due: Taken(0x1_0000, 0x100_0000, 0x1_0000, WORD) }
    ONE_LOAD { name: "size past with room", headers: &[(1, 84, 0x1_0000, 4, 12)], room: 16_777_208, due: Refused(29, 0) }
    ONE_LOAD { name: "odd size with room", headers: &[(1, 84, 0x1_0000, 4, 5)], room: 16_777_208,
        due: Taken(0x1_0000, 0x100_0000, 0x1_0000, WORD) }
    ONE_LOAD { name: "odd size past with room", headers: &[(1, 84, 0x1_0000, 4, 9)], room: 16_777_208, due: Refused(29, 0) }
    ONE_LOAD { name: "greatest room", room: 16_777_212, due: Taken(0x1_0000, 0x100_0000, 0x1_0000, WORD) }
    ONE_LOAD { name: "greatest room past", headers: &[(1, 84, 0x1_0000, 4, 5)], room: 16_777_212, due: Refused(29, 0) }
    ONE_LOAD { name: "room to the top", e_entry: 0xffff_f000, headers: &[(1, 84, 0xffff_f000, 4, 8)], room: 4088,
        due: Taken(0xffff_f000, 0x1000, 0xffff_f000, WORD) }
    ONE_LOAD { name: "room past the top", e_entry: 0xffff_f000, headers: &[(1, 84, 0xffff_f000, 4, 8)], room: 4092, due: Refused(29, 0) }
    ONE_LOAD { name: "size before entry", e_entry: 1, headers: &[(1, 84, 0x1_0000, 4, 0x100_0004)], due: Refused(29, 0) }
    TWO_LOADS { name: "far apart", e_entry: 0, headers: &[(1, 116, 0, 4, 4), (1, 116, 0xff_fffc, 4, 4)], due: Far(0, 0x100_0000, 0, 0x100_0000) }
    TWO_LOADS { name: "too far apart", e_entry: 0, headers: &[(1, 116, 0, 4, 4), (1, 116, 0x100_0000, 4, 4)], due: Refused(29, 0) }
    ONE_LOAD { name: "entry 10001", e_entry: 0x1_0001, due: Refused(30, 24) }
    ONE_LOAD { name: "entry 10002", e_entry: 0x1_0002, due: Refused(30, 24) }
    ONE_LOAD { name: "entry 10003", e_entry: 0x1_0003, due: Refused(30, 24) }
    ONE_LOAD { name: "entry fffc", e_entry: 0xfffc, due: Refused(30, 24) }
    ONE_LOAD { name: "entry 0", e_entry: 0, due: Refused(30, 24) }
    ONE_LOAD { name: "entry 10004", e_entry: 0x1_0004, due: Refused(30, 24) }
    ONE_LOAD { name: "entry ffffffff", e_entry: 0xffff_ffff, due: Refused(30, 24) }
    ONE_LOAD { name: "entry fffffffc", e_entry: 0xffff_fffc, due: Refused(30, 24) }
    ONE_LOAD { name: "entry at the end, room", e_entry: 0x1_0004, room: 4, due: Taken(0x1_0000, 8, 0x1_0004, WORD) }
    ONE_LOAD { name: "entry past the room", e_entry: 0x1_0008, room: 4, due: Refused(30, 24) }
    ONE_LOAD { name: "entry below the first byte, at base", headers: &[(1, 84, 0x1_0002, 2, 6)],
        due: Taken(0x1_0000, 8, 0x1_0000, &[0, 0, 0x13, 0]) }
    TWO_LOADS { name: "entry in a gap", e_entry: 0x1_0008, headers: &[(1, 116, 0x1_0000, 4, 4), (1, 116, 0x1_0010, 4, 4)],
        due: Taken(0x1_0000, 0x14, 0x1_0008, &[0x13, 0, 0, 0, 0, 0, 0, 0, 0, 0, 0, 0, 0, 0, 0, 0, 0x13, 0, 0, 0]) }
    ONE_LOAD { name: "entry in the last bytes raised", e_entry: 0x1_0004, headers: &[(1, 84, 0x1_0000, 4, 5)],
        due: Taken(0x1_0000, 8, 0x1_0004, WORD) }
    ONE_LOAD { name: "entry 0 at base 0", e_entry: 0, headers: &[(1, 84, 0, 4, 4)], due: Taken(0, 4, 0, WORD) }
    TWO_LOADS { name: "bytes of the last load shorter", headers: &[(1, 116, 0x1_0000, 4, 4), (1, 116, 0x1_0008, 2, 20)],
        due: Taken(0x1_0000, 0x1c, 0x1_0000, &[0x13, 0, 0, 0, 0, 0, 0, 0, 0x13, 0]) }
    TWO_LOADS { name: "the last load without bytes", headers: &[(1, 116, 0x1_0000, 4, 4), (1, 116, 0x1_0008, 0, 20)],
        due: Taken(0x1_0000, 0x1c, 0x1_0000, WORD) }
    ONE_LOAD { name: "no load with bytes", headers: &[(1, 0, 0x1_0000, 0, 16)], due: Taken(0x1_0000, 0x10, 0x1_0000, &[]) }
    ONE_LOAD { name: "the headers loaded too", e_entry: 0x1_0054, headers: &[(1, 0, 0x1_0000, 88, 88)],
        due: Taken(0x1_0000, 0x58, 0x1_0054, &[0x7f, 0x45, 0x4c, 0x46, 0x01, 0x01, 0x01, 0, 0, 0, 0, 0, 0, 0, 0, 0, 0x02, 0,
            0xf3, 0, 0x01, 0, 0, 0, 0x54, 0, 0x01, 0, 0x34, 0, 0, 0, 0, 0, 0, 0, 0, 0, 0, 0, 0x34, 0, 0x20, 0, 0x01, 0, 0, 0, 0,
            0, 0, 0, 0x01, 0, 0, 0, 0, 0, 0, 0, 0, 0, 0x01, 0, 0, 0, 0x01, 0, 0x58, 0, 0, 0, 0x58, 0, 0, 0, 0x05, 0, 0, 0, 0,
            0x10, 0, 0, 0x13, 0, 0, 0]) }
    ONE_LOAD { name: "everything", e_entry: 0, headers: &[(1, 84, 0, 4, 0xffff_ffff)], due: Refused(29, 0) }
    ONE_LOAD { name: "everything, with room", e_entry: 0, headers: &[(1, 84, 0, 4, 0xffff_fffc)], room: 16_777_212, due: Refused(29, 0) }
    ONE_LOAD { name: "the upper half, with room", e_entry: 0x8000_0000, headers: &[(1, 84, 0x8000_0000, 4, 0x8000_0000)], room: 16_777_212,
        due: Refused(29, 0) }
    ONE_LOAD { name: "raised to the top", e_entry: 0xffff_fff8, headers: &[(1, 84, 0xffff_fff8, 4, 7)],
        due: Taken(0xffff_fff8, 8, 0xffff_fff8, WORD) }
    ONE_LOAD { name: "entry in the last word of all", e_entry: 0xffff_fffc, headers: &[(1, 84, 0xffff_fff8, 4, 8)],
        due: Taken(0xffff_fff8, 8, 0xffff_fffc, WORD) }
    ONE_LOAD { name: "raised to the top, room past it", e_entry: 0xffff_fff8, headers: &[(1, 84, 0xffff_fff8, 4, 7)], room: 4,
        due: Refused(29, 0) }
    ONE_LOAD { name: "one byte", headers: &[(1, 84, 0x1_0000, 1, 1)], due: Taken(0x1_0000, 4, 0x1_0000, &[0x13]) }
    ONE_LOAD { name: "one byte at an odd place", headers: &[(1, 84, 0x1_0003, 1, 1)], due: Taken(0x1_0000, 4, 0x1_0000, &[0, 0, 0, 0x13]) }
    TWO_LOADS { name: "the first load without bytes", headers: &[(1, 116, 0x1_0000, 0, 8), (1, 116, 0x1_000a, 2, 2)],
        due: Taken(0x1_0000, 0xc, 0x1_0000, &[0, 0, 0, 0, 0, 0, 0, 0, 0, 0, 0x13, 0]) }
    TWO_LOADS { name: "a load without bytes past the others' bytes", headers: &[(1, 116, 0x1_0000, 2, 2), (1, 116, 0x1_0100, 0, 1)],
        due: Taken(0x1_0000, 0x104, 0x1_0000, &[0x13, 0]) }
    TWO_LOADS { name: "two headers show the same bytes", headers: &[(1, 116, 0x1_0000, 4, 4), (1, 116, 0x1_0008, 4, 4)],
        due: Taken(0x1_0000, 0xc, 0x1_0000, &[0x13, 0, 0, 0, 0, 0, 0, 0, 0x13, 0, 0, 0]) }
    TWO_LOADS { name: "load without memory before a dynamic", headers: &[(1, 9999, 0x1_0000, 5, 0), (2, 0, 0x1_0000, 4, 0)], due: Refused(26, 84) }
    ONE_LOAD { name: "bad load before a load that lies below", e_phnum: 3,
        headers: &[(1, 5000, 0x1_0000, 4, 4), (1, 148, 0, 4, 4), (1, 148, 0, 4, 4)],
        due: Refused(27, 52) }
    ONE_LOAD { name: "entry odd and outside", e_entry: 3, due: Refused(30, 24) }
    ONE_LOAD { name: "place of the headers within the header", e_phoff: 0, due: Refused(28, 44) }
};
