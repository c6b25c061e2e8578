// Tests of rows that are laid by themselves; scripts are tested with the other texts. What is due was worked out by hand.
ghost use Rattle.diva_faults.specs.Rows.{IsRow};

use crate::{Change, Row};
use diva_core::{Claim, Claims, Field};

/// Bit 0 of the value in lane 1 is 1 in the cycles 5 to 7.
const STUCK_AT_ONE: Row = Row::Lasting {
    cycle: 5,
    cycles: 3,
    lane: 1,
    change: Change::Force {
        field: Field::Value,
        bit: 0,
        high: true,
    },
};

/// Bit 1 of the value in lane 0 is 0 in the cycle 1,000,000,000 and as many cycles as there may be.
const STUCK_AT_ZERO: Row = Row::Lasting {
    cycle: 1_000_000_000,
    cycles: 1_000_000_000,
    lane: 0,
    change: Change::Force {
        field: Field::Value,
        bit: 1,
        high: false,
    },
};

/// No claim is handed over in the cycles 5 and 6.
const HUSH: Row = Row::Hush {
    cycle: 5,
    cycles: 2,
};

/// The claim in lane 2 is handed over twice in the cycle 5.
const TWICE: Row = Row::Lane {
    cycle: 5,
    lane: 2,
    change: Change::Double,
};

/// A list of claims with these values, of eight at most.
fn list_of(values: &[u32]) -> Claims {
    let mut list = Claims::new();
    for value in values {
        if list.len() < Claims::MOST {
            list.push(Claim {
                value: *value,
                ..Claim::default()
            });
        }
    }
    list
}

/// What a row makes of a list of these values in a cycle.
fn laid(row: &Row, cycle: u64, values: &[u32]) -> Claims
    requires { IsRow row.now }
{
    let mut list = list_of(values);
    row.lay_in(cycle, &mut list);
    list
}

#[test]
fn rows_laid_by_themselves(rt: HostRuntime) {
    for (cycle, due) in [(4, 2), (5, 3), (6, 3), (7, 3), (8, 2)] {
        let list = laid(&STUCK_AT_ONE, cycle, &[0, 2, 4]);
        assert_eq!(rt;
            list.as_slice(),
            list_of(&[0, due, 4]).as_slice(),
            "{cycle}"
        );
    }
    for (cycle, due) in [
        (999_999_999, 7),
        (1_000_000_000, 5),
        (1_999_999_999, 5),
        (2_000_000_000, 7),
    ] {
        let list = laid(&STUCK_AT_ZERO, cycle, &[7, 7]);
        assert_eq!(rt; list.as_slice(), list_of(&[due, 7]).as_slice(), "{cycle}");
    }
    for (cycle, due) in [(4, 3), (5, 0), (6, 0), (7, 3)] {
        assert_eq!(rt; laid(&HUSH, cycle, &[0, 2, 4]).len(), due, "{cycle}");
    }
    for (cycle, due) in [(4, 3), (5, 4), (6, 3)] {
        assert_eq!(rt; laid(&TWICE, cycle, &[0, 2, 4]).len(), due, "{cycle}");
    }
    assert_eq!(rt;
        laid(&STUCK_AT_ONE, 5, &[8]).as_slice(),
        list_of(&[8]).as_slice()
    );
}

#[test]
fn cycles_of_rows(rt: HostRuntime) {
    assert_eq!(rt; (STUCK_AT_ONE.cycle(), STUCK_AT_ONE.end()), (5, 8));
    assert_eq!(rt;
        (STUCK_AT_ZERO.cycle(), STUCK_AT_ZERO.end()),
        (1_000_000_000, 2_000_000_000)
    );
    assert_eq!(rt; (HUSH.cycle(), HUSH.end()), (5, 7));
    assert_eq!(rt; (TWICE.cycle(), TWICE.end()), (5, 6));
}
