// The worked examples, at their start and further on.
use crate::cases::*;
use estimate::estimate::Estimate::*;
use samples::pads::*;
use samples::tables_of;
use std::test::Fail;

static EXAMPLES: [Sample; 4] = [
    // pads from 0 to 20; move 1 costs 5 and adds 5, move 2 costs 3 and adds 2; the goal is at least 7
    Sample {
        tables: PADS,
        cases: cases_of! {
            (0, [], AtLeast(7), [(1, 35_280, 1, 25_200), (1, 35_280, 2, 10_080)]),
            (0, [5], AtLeast(2), [(1, 10_080, 1, 25_200), (1, 10_080, 2, 10_080)]),
            (0, [7], AtLeast(0), []),
        },
    },
    // the same with 'more than 6'
    Sample {
        tables: MORE_THAN_6,
        cases: cases_of! {
            (0, [], AtLeast(7), [(1, 35_280, 1, 25_200), (1, 35_280, 2, 10_080)]),
            (0, [7], AtLeast(0), []),
        },
    },
    // v from 0 to 20; move 1 costs 10 and adds 1, move 2 costs 1, needs v at least 5 and adds 1; the goal is v at least 10
    Sample {
        tables: tables_of! {
            head: (0, 0, 1),
            quantities: [(0, 20, 0)],
            conditions: [(0, 10, 2), (0, 5, 2)],
            moves: [(10, 0, 4), (1, 3, 4)],
            links: [(3, 1, 0, 0), (1, 1, 1, 0), (3, 2, 0, 0), (6, 1, 1, 0)],
        },
        cases: cases_of! {
            (0, [], AtLeast(55), [
                (1, 50_400, 1, 5_040), (1, 50_400, 2, 5_040), (2, 226_800, 1, 45_360),
            ]),
            (0, [4], AtLeast(15), [
                (1, 30_240, 1, 5_040), (1, 30_240, 2, 5_040), (2, 45_360, 1, 45_360),
            ]),
            (0, [5], AtLeast(5), [(1, 25_200, 1, 5_040), (1, 25_200, 2, 5_040)]),
            (0, [10], AtLeast(0), []),
        },
    },
    // v from 0 to 20; move 1 costs 4 and adds 4, move 2 costs 3 and adds 2; the goal is v at least 6
    Sample {
        tables: tables_of! {
            head: (0, 0, 1),
            quantities: [(0, 20, 0)],
            conditions: [(0, 6, 2)],
            moves: [(4, 0, 3), (3, 0, 4)],
            links: [(3, 1, 0, 0), (1, 1, 1, 0), (6, 1, 4, 0), (6, 1, 2, 0)],
        },
        cases: cases_of! {
            (0, [], AtLeast(6), [(1, 30_240, 1, 20_160), (1, 30_240, 2, 10_080)]),
        },
    },
];

#[test]
fn examples(rt: HostRuntime) -> Result<(), Fail> {
    all_stand(&rt, &EXAMPLES)
}
