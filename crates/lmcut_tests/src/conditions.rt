// Tasks with conditions: terms of both signs, roundings, and records that are no states.
use crate::cases::*;
use estimate::estimate::Estimate::*;
use samples::tables_of;
use std::test::Fail;

static SIGNS: [Sample; 3] = [
    // 2 v - 3 w at least 5 and w at least 2; move 1 adds 1 to v for 2, move 2 takes 1 from w for 1, move 3 adds 1 to both for 3
    Sample {
        tables: tables_of! {
            head: (0, 0, 1),
            quantities: [(0, 10, 0), (0, 10, 0)],
            conditions: [(0, 5, 3), (0, 2, 5)],
            moves: [(2, 0, 6), (1, 0, 7), (3, 0, 8)],
            links: [
                (3, 1, 0, 2), (3, 2, 0, 0), (1, 1, 2, 4), (1, 2, -3, 0), (1, 2, 1, 0), (6, 1, 1, 0),
                (6, 2, -1, 0), (6, 1, 1, 9), (6, 2, 1, 0),
            ],
        },
        cases: cases_of! {
            (0, [0, 1], AtLeast(6), [
                (1, 15_120, 3, 15_120), (2, 13_440, 1, 3_360), (2, 13_440, 2, 5_040),
            ]),
            (0, [0, 10], AtLeast(12), [(1, 58_800, 1, 3_360), (1, 58_800, 2, 5_040)]),
            (0, [10], AtLeast(6), [(1, 30_240, 3, 15_120)]),
            (0, [10, 5], AtLeast(0), []),
        },
    },
    // -v more than -6, so v at most 5; move 1 takes 2 from v for 3
    Sample {
        tables: tables_of! {
            head: (0, 0, 1),
            quantities: [(-10, 10, -10)],
            conditions: [(1, -6, 2)],
            moves: [(3, 0, 3)],
            links: [(3, 1, 0, 0), (1, 1, -1, 0), (6, 1, -2, 0)],
        },
        cases: cases_of! {
            (0, [10], AtLeast(8), [(1, 37_800, 1, 15_120)]),
            (0, [6], AtLeast(2), [(1, 7_560, 1, 15_120)]),
            (0, [5], AtLeast(0), []),
            (0, [-10], AtLeast(0), []),
        },
    },
    // three conditions that lead on: u at least 3 for move 2, v - u at least 2 for move 3, and w + v - u at least 4 is the goal
    Sample {
        tables: tables_of! {
            head: (0, 0, 1),
            quantities: [(0, 20, 0), (0, 20, 0), (0, 20, 0)],
            conditions: [(0, 4, 4), (0, 3, 7), (0, 2, 8)],
            moves: [(1, 0, 10), (2, 2, 11), (4, 3, 12)],
            links: [
                (3, 1, 0, 0), (3, 2, 0, 0), (3, 3, 0, 0), (1, 3, 1, 5), (1, 2, 1, 6), (1, 1, -1, 0),
                (1, 1, 1, 0), (1, 2, 1, 9), (1, 1, -1, 0), (6, 1, 1, 0), (6, 2, 1, 0), (6, 3, 5, 0),
            ],
        },
        cases: cases_of! {
            (0, [], AtLeast(9), [
                (1, 16_128, 2, 4_032), (1, 16_128, 3, 20_160), (2, 12_096, 2, 6_048),
                (3, 15_120, 1, 5_040),
            ]),
            (0, [3], AtLeast(12), [
                (1, 28_224, 2, 4_032), (1, 28_224, 3, 20_160), (2, 30_240, 2, 6_048),
            ]),
            (0, [2, 4], AtLeast(2), [(1, 8_064, 2, 4_032), (1, 8_064, 3, 20_160)]),
        },
    },
];

#[test]
fn terms_of_both_signs(rt: HostRuntime) -> Result<(), Fail> {
    all_stand(&rt, &SIGNS)
}

static ROUNDINGS: [Sample; 3] = [
    // v at least 13; move 1 adds 11 for 1. At 11 the remainder is not used up, but what is left weighs nothing
    Sample {
        tables: tables_of! {
            head: (0, 0, 1),
            quantities: [(0, 100, 0)],
            conditions: [(0, 13, 2)],
            moves: [(1, 0, 3)],
            links: [(3, 1, 0, 0), (1, 1, 1, 0), (6, 1, 11, 0)],
        },
        cases: cases_of! {
            (0, [], AtLeast(2), [(1, 5_956, 1, 5_040)]),
            (0, [11], AtLeast(1), [(1, 916, 1, 5_038)]),
        },
    },
    // v at least 13; move 1 adds 11 for 3, move 2 adds 9 for 3
    Sample {
        tables: tables_of! {
            head: (0, 0, 1),
            quantities: [(0, 100, 0)],
            conditions: [(0, 13, 2)],
            moves: [(3, 0, 3), (3, 0, 4)],
            links: [(3, 1, 0, 0), (1, 1, 1, 0), (6, 1, 11, 0), (6, 1, 9, 0)],
        },
        cases: cases_of! {
            (0, [], AtLeast(4), [(1, 17_869, 1, 15_120), (1, 17_869, 2, 12_371)]),
        },
    },
    // v at least 1; move 1 adds 6,000 for 1: its weight is rounded down to 0, and there is no cut
    Sample {
        tables: tables_of! {
            head: (0, 0, 1),
            quantities: [(0, 10_000, 0)],
            conditions: [(0, 1, 2)],
            moves: [(1, 0, 3)],
            links: [(3, 1, 0, 0), (1, 1, 1, 0), (6, 1, 6_000, 0)],
        },
        cases: cases_of! {
            (0, [], AtLeast(0), []),
        },
    },
];

#[test]
fn roundings(rt: HostRuntime) -> Result<(), Fail> {
    all_stand(&rt, &ROUNDINGS)
}

static RECORDS: [Sample; 2] = [
    // two facts and v from -3 to 9; the goal is fact 0, which move 1 sets for 2, and v at least 5, to which move 2 adds 1 for 1
    Sample {
        tables: tables_of! {
            head: (2, 0, 1),
            quantities: [(-3, 9, -3)],
            conditions: [(0, 5, 3)],
            moves: [(2, 0, 4), (1, 0, 5)],
            links: [(2, 0, 0, 2), (3, 1, 0, 0), (1, 1, 1, 0), (4, 0, 0, 0), (6, 1, 1, 0)],
        },
        cases: cases_of! {
            (2, [-3], AtLeast(10), [(1, 40_320, 2, 5_040), (2, 10_080, 1, 10_080)]),
            (4, [-3], AtLeast(0), []),
            (u64::MAX, [-3], AtLeast(0), []),
            (0, [-4], AtLeast(0), []),
            (0, [10], AtLeast(0), []),
            (0, [i32::MIN], AtLeast(0), []),
            (0, [i32::MAX], AtLeast(0), []),
            (0, [0, 1], AtLeast(0), []),
            (0, [0, 0, 0, 0, 0, 0, 0, 0, 0, 0, 0, 0, 0, 0, 0, -1], AtLeast(0), []),
        },
    },
    // no moves: dead at a state, and at least 0 at what is none
    Sample {
        tables: tables_of! {
            head: (63, 0, 1),
            quantities: [],
            conditions: [],
            moves: [],
            links: [(2, 62, 0, 0)],
        },
        cases: cases_of! {
            (0, [], Dead, []),
            (1 << 62, [], AtLeast(0), []),
            (1 << 63, [], AtLeast(0), []),
            (0, [1], AtLeast(0), []),
        },
    },
];

#[test]
fn records_that_are_no_states(rt: HostRuntime) -> Result<(), Fail> {
    all_stand(&rt, &RECORDS)
}
