// Of which three answers which one is taken, and what is counted of them.
use diva_core::{Diff, Field};
use diva_test_programs::laid;
use diva_vote::{Ballot, Outvoted, vote};
use std::test::Fail;

/// An answer: what a lane finds.
type Answer = Option<Diff>;

/// No difference.
const NONE: Answer = None;

/// A wrong pc.
const PC: Answer = Some(Diff {
    field: Field::Pc,
    claimed: 1,
    due: 0,
});

/// A wrong value.
const VALUE: Answer = Some(WRONG_VALUE);

/// What is found there.
const WRONG_VALUE: Diff = Diff {
    field: Field::Value,
    claimed: 2,
    due: 3,
};

/// The same but for the field.
const NEXT: Answer = Some(Diff {
    field: Field::Next,
    ..WRONG_VALUE
});

/// The same but for what was claimed.
const CLAIMED: Answer = Some(Diff {
    claimed: 4,
    ..WRONG_VALUE
});

/// The same but for what is due.
const DUE: Answer = Some(Diff {
    due: 4,
    ..WRONG_VALUE
});

/// The answers of three lanes, and the one that is taken. By the rule it is the one that two give at least; where all differ, it
/// is the first.
static VOTES: [(Answer, Answer, Answer, Answer); 39] = laid! {
    // All are equal.
    (NONE, NONE, NONE, NONE), (PC, PC, PC, PC), (VALUE, VALUE, VALUE, VALUE),
    // Two find nothing.
    (NONE, NONE, PC, NONE), (NONE, PC, NONE, NONE), (PC, NONE, NONE, NONE), (NONE, NONE, VALUE, NONE), (NONE, VALUE, NONE, NONE),
    (VALUE, NONE, NONE, NONE),
    // Two find the same.
    (PC, PC, NONE, PC), (PC, NONE, PC, PC), (NONE, PC, PC, PC), (PC, PC, VALUE, PC), (PC, VALUE, PC, PC), (VALUE, PC, PC, PC),
    (VALUE, VALUE, NONE, VALUE), (VALUE, NONE, VALUE, VALUE), (NONE, VALUE, VALUE, VALUE), (VALUE, VALUE, PC, VALUE),
    (VALUE, PC, VALUE, VALUE), (PC, VALUE, VALUE, VALUE),
    // All differ.
    (NONE, PC, VALUE, NONE), (NONE, VALUE, PC, NONE), (PC, NONE, VALUE, PC), (PC, VALUE, NONE, PC), (VALUE, NONE, PC, VALUE),
    (VALUE, PC, NONE, VALUE),
    // Two of those that differ have two of the field and the two numbers in common.
    (VALUE, NEXT, NONE, VALUE), (NONE, VALUE, NEXT, NONE), (NEXT, NONE, VALUE, NEXT), (VALUE, CLAIMED, NONE, VALUE),
    (NONE, VALUE, CLAIMED, NONE), (CLAIMED, NONE, VALUE, CLAIMED), (VALUE, DUE, NONE, VALUE), (NONE, VALUE, DUE, NONE),
    (DUE, NONE, VALUE, DUE), (PC, VALUE, DUE, PC), (DUE, CLAIMED, VALUE, DUE), (VALUE, NEXT, VALUE, VALUE),
};

/// Each row of the table is what the vote gives.
#[test]
fn answers_of_three(rt: HostRuntime) -> Result<(), Fail> {
    for (place, &(a, b, c, taken)) in VOTES.iter().enumerate() {
        assert_eq!(rt; vote(a, b, c), taken, "row {place}");
        assert_eq!(rt; ballot_of(a, b, c).vote(), taken, "row {place}");
    }
    Ok(())
}

/// These answers of three lanes.
fn ballot_of(first: Answer, second: Answer, third: Answer) -> Ballot {
    Ballot {
        first,
        second,
        third,
    }
}

/// The most that is counted.
const MOST: u64 = u64::MAX;

/// How often each lane was outvoted, what three lanes answer then, and how often each was outvoted after that.
static COUNTS: [([u64; 3], (Answer, Answer, Answer), [u64; 3]); 12] = [
    // All agree.
    ([0, 0, 0], (NONE, NONE, NONE), [0, 0, 0]),
    ([4, 5, 6], (PC, PC, PC), [4, 5, 6]),
    // One differs.
    ([4, 5, 6], (PC, NONE, NONE), [5, 5, 6]),
    ([4, 5, 6], (NONE, PC, NONE), [4, 6, 6]),
    ([4, 5, 6], (NONE, NONE, PC), [4, 5, 7]),
    ([4, 5, 6], (CLAIMED, VALUE, VALUE), [5, 5, 6]),
    // All differ: the first is taken.
    ([4, 5, 6], (NONE, PC, VALUE), [4, 6, 7]),
    ([4, 5, 6], (VALUE, NEXT, DUE), [4, 6, 7]),
    // No count goes past the most.
    ([MOST - 1, 0, 0], (PC, NONE, NONE), [MOST, 0, 0]),
    ([MOST, 0, 0], (PC, NONE, NONE), [MOST, 0, 0]),
    ([0, MOST, MOST - 1], (NONE, PC, VALUE), [0, MOST, MOST]),
    ([0, MOST, MOST], (NONE, PC, VALUE), [0, MOST, MOST]),
];

/// The counts of three lanes.
fn counts_of([first, second, third]: [u64; 3]) -> Outvoted {
    Outvoted {
        first,
        second,
        third,
    }
}

/// Each row of the table is what is counted.
#[test]
fn what_is_counted(rt: HostRuntime) -> Result<(), Fail> {
    for (place, &(before, (a, b, c), after)) in COUNTS.iter().enumerate() {
        let mut counts = counts_of(before);
        counts.count(&ballot_of(a, b, c));
        assert_eq!(rt; counts, counts_of(after), "row {place}");
    }
    Ok(())
}
