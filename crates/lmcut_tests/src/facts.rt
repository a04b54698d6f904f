// Tasks of facts: chains, shared links, moves of cost 0, ties, and goals that cannot be reached or ask for nothing.
use crate::cases::*;
use estimate::estimate::Estimate::*;
use samples::tables_of;
use std::test::Fail;

static CHAINS: [Sample; 2] = [
    // each of five facts but the first is needed for the next; they cost 3, 1, 4, 1 and 5
    Sample {
        tables: tables_of! {
            head: (5, 0, 5),
            quantities: [],
            conditions: [],
            moves: [(3, 0, 6), (1, 1, 7), (4, 2, 8), (1, 3, 9), (5, 4, 10)],
            links: [
                (2, 0, 0, 0), (2, 1, 0, 0), (2, 2, 0, 0), (2, 3, 0, 0), (2, 4, 0, 0), (4, 0, 0, 0),
                (4, 1, 0, 0), (4, 2, 0, 0), (4, 3, 0, 0), (4, 4, 0, 0),
            ],
        },
        cases: cases_of! {
            (0, [], AtLeast(14), [
                (1, 25_200, 5, 25_200), (2, 5_040, 4, 5_040), (3, 20_160, 3, 20_160),
                (4, 5_040, 2, 5_040), (5, 15_120, 1, 15_120),
            ]),
            (0b00100, [], AtLeast(6), [(1, 25_200, 5, 25_200), (2, 5_040, 4, 5_040)]),
            (0b01000, [], AtLeast(5), [(1, 25_200, 5, 25_200)]),
            (0b10000, [], AtLeast(0), []),
        },
    },
    // two ways to fact 0: move 1 for 5, or move 2, which sets fact 1, for 2 and then move 3 for 1
    Sample {
        tables: tables_of! {
            head: (2, 0, 1),
            quantities: [],
            conditions: [],
            moves: [(5, 0, 3), (2, 0, 4), (1, 2, 3)],
            links: [(2, 0, 0, 0), (2, 1, 0, 0), (4, 0, 0, 0), (4, 1, 0, 0)],
        },
        cases: cases_of! {
            (0, [], AtLeast(3), [
                (1, 5_040, 1, 5_040), (1, 5_040, 3, 5_040), (2, 10_080, 1, 10_080),
                (2, 10_080, 2, 10_080),
            ]),
            (2, [], AtLeast(1), [(1, 5_040, 1, 5_040), (1, 5_040, 3, 5_040)]),
        },
    },
];

#[test]
fn chains_of_facts(rt: HostRuntime) -> Result<(), Fail> {
    all_stand(&rt, &CHAINS)
}

static SHARED: [Sample; 2] = [
    // moves 1 and 2 have one chain of effects, which sets fact 0 and fact 1; the goal is both
    Sample {
        tables: tables_of! {
            head: (2, 0, 1),
            quantities: [],
            conditions: [],
            moves: [(7, 0, 3), (4, 0, 3)],
            links: [(2, 0, 0, 2), (2, 1, 0, 0), (4, 0, 0, 4), (4, 1, 0, 0)],
        },
        cases: cases_of! {
            (0, [], AtLeast(4), [(1, 20_160, 1, 20_160), (1, 20_160, 2, 20_160)]),
            (1, [], AtLeast(4), [(1, 20_160, 1, 20_160), (1, 20_160, 2, 20_160)]),
            (3, [], AtLeast(0), []),
        },
    },
    // the needs of move 3 and the goal meet in one link; move 1 clears fact 1 and then goes on as move 2 does
    Sample {
        tables: tables_of! {
            head: (3, 0, 1),
            quantities: [],
            conditions: [],
            moves: [(2, 0, 4), (3, 0, 5), (1, 2, 6)],
            links: [
                (2, 2, 0, 3), (2, 1, 0, 3), (2, 0, 0, 0), (5, 1, 0, 5), (4, 0, 0, 0), (4, 2, 0, 7),
                (4, 1, 0, 0),
            ],
        },
        cases: cases_of! {
            (0, [], Dead, []),
            (2, [], AtLeast(3), [
                (1, 5_040, 3, 5_040), (2, 10_080, 1, 10_080), (2, 10_080, 2, 10_080),
            ]),
            (4, [], AtLeast(2), [(1, 10_080, 1, 10_080), (1, 10_080, 2, 10_080)]),
        },
    },
];

#[test]
fn shared_links(rt: HostRuntime) -> Result<(), Fail> {
    all_stand(&rt, &SHARED)
}

static FREE: [Sample; 2] = [
    // a move of cost 0 sets the goal's fact: no cut is made, though the goal does not hold
    Sample {
        tables: tables_of! {
            head: (1, 0, 1),
            quantities: [],
            conditions: [],
            moves: [(0, 0, 2), (6, 0, 2)],
            links: [(2, 0, 0, 0), (4, 0, 0, 0)],
        },
        cases: cases_of! {
            (0, [], AtLeast(0), []),
        },
    },
    // move 1 sets fact 0 for 4; move 2 sets fact 1 from it for nothing, and move 3 does so for 9
    Sample {
        tables: tables_of! {
            head: (2, 0, 2),
            quantities: [],
            conditions: [],
            moves: [(4, 0, 3), (0, 1, 4), (9, 1, 4)],
            links: [(2, 0, 0, 0), (2, 1, 0, 0), (4, 0, 0, 0), (4, 1, 0, 0)],
        },
        cases: cases_of! {
            (0, [], AtLeast(4), [(1, 20_160, 1, 20_160)]),
            (1, [], AtLeast(0), []),
        },
    },
];

#[test]
fn moves_of_cost_zero(rt: HostRuntime) -> Result<(), Fail> {
    all_stand(&rt, &FREE)
}

static TIES: [Sample; 3] = [
    // move 3 needs facts 1 and 0, of one value, for fact 2: fact 0 is paid for first
    Sample {
        tables: tables_of! {
            head: (3, 0, 1),
            quantities: [],
            conditions: [],
            moves: [(2, 0, 4), (2, 0, 5), (1, 2, 6)],
            links: [
                (2, 2, 0, 0), (2, 1, 0, 3), (2, 0, 0, 0), (4, 0, 0, 0), (4, 1, 0, 0), (4, 2, 0, 0),
            ],
        },
        cases: cases_of! {
            (0, [], AtLeast(5), [
                (1, 5_040, 3, 5_040), (2, 10_080, 1, 10_080), (3, 10_080, 2, 10_080),
            ]),
        },
    },
    // the same, but fact 1 costs 3: it has the larger value, and is paid for first
    Sample {
        tables: tables_of! {
            head: (3, 0, 1),
            quantities: [],
            conditions: [],
            moves: [(2, 0, 4), (3, 0, 5), (1, 2, 6)],
            links: [
                (2, 2, 0, 0), (2, 1, 0, 3), (2, 0, 0, 0), (4, 0, 0, 0), (4, 1, 0, 0), (4, 2, 0, 0),
            ],
        },
        cases: cases_of! {
            (0, [], AtLeast(6), [
                (1, 5_040, 3, 5_040), (2, 15_120, 2, 15_120), (3, 10_080, 1, 10_080),
            ]),
        },
    },
    // the goal is v at least 3 and fact 0, of one value: the fact comes first
    Sample {
        tables: tables_of! {
            head: (1, 0, 1),
            quantities: [(0, 9, 0)],
            conditions: [(0, 3, 3)],
            moves: [(2, 0, 4), (6, 0, 5)],
            links: [(3, 1, 0, 2), (2, 0, 0, 0), (1, 1, 1, 0), (6, 1, 1, 0), (4, 0, 0, 0)],
        },
        cases: cases_of! {
            (0, [], AtLeast(12), [(1, 30_240, 2, 30_240), (2, 30_240, 1, 10_080)]),
            (0, [9], AtLeast(6), [(1, 30_240, 2, 30_240)]),
            (1, [2], AtLeast(2), [(1, 10_080, 1, 10_080)]),
        },
    },
];

#[test]
fn ties_between_needs(rt: HostRuntime) -> Result<(), Fail> {
    all_stand(&rt, &TIES)
}

static DEAD: [Sample; 4] = [
    // no move at all
    Sample {
        tables: tables_of! {
            head: (1, 0, 1),
            quantities: [],
            conditions: [],
            moves: [],
            links: [(2, 0, 0, 0)],
        },
        cases: cases_of! {
            (0, [], Dead, []),
            (1, [], AtLeast(0), []),
        },
    },
    // facts 0 and 1 need each other, in a circle
    Sample {
        tables: tables_of! {
            head: (2, 0, 1),
            quantities: [],
            conditions: [],
            moves: [(3, 2, 3), (2, 1, 4)],
            links: [(2, 0, 0, 0), (2, 1, 0, 0), (4, 0, 0, 0), (4, 1, 0, 0)],
        },
        cases: cases_of! {
            (0, [], Dead, []),
            (2, [], AtLeast(3), [(1, 15_120, 1, 15_120)]),
        },
    },
    // of the goal's two facts only one can be set; the other is only cleared
    Sample {
        tables: tables_of! {
            head: (2, 0, 1),
            quantities: [],
            conditions: [],
            moves: [(1, 0, 3)],
            links: [(2, 0, 0, 2), (2, 1, 0, 0), (4, 0, 0, 4), (5, 1, 0, 0)],
        },
        cases: cases_of! {
            (0, [], Dead, []),
            (1, [], Dead, []),
            (2, [], AtLeast(1), [(1, 5_040, 1, 5_040)]),
        },
    },
    // the goal is v at least 3 and w at least 1; the one move takes from v; a condition without terms stays as it is
    Sample {
        tables: tables_of! {
            head: (0, 0, 1),
            quantities: [(0, 9, 0), (0, 9, 0)],
            conditions: [(0, 3, 3), (0, 1, 4), (0, 1, 0)],
            moves: [(1, 0, 5), (1, 7, 6)],
            links: [
                (3, 1, 0, 2), (3, 2, 0, 0), (1, 1, 1, 0), (1, 2, 1, 0), (6, 1, -1, 0), (6, 2, 1, 0),
                (3, 3, 0, 0),
            ],
        },
        cases: cases_of! {
            (0, [2, 1], Dead, []),
            (0, [3], Dead, []),
            (0, [3, 1], AtLeast(0), []),
        },
    },
];

#[test]
fn dead_ends(rt: HostRuntime) -> Result<(), Fail> {
    all_stand(&rt, &DEAD)
}

static NO_GOAL: [Sample; 2] = [
    // empty tables
    Sample {
        tables: tables_of! {
            head: (0, 0, 0),
            quantities: [],
            conditions: [],
            moves: [],
            links: [],
        },
        cases: cases_of! {
            (0, [], AtLeast(0), []),
            (1, [], AtLeast(0), []),
        },
    },
    // nothing is asked for
    Sample {
        tables: tables_of! {
            head: (64, 0, 0),
            quantities: [(0, 9, 0)],
            conditions: [(0, 9, 1)],
            moves: [(1, 0, 2), (0, 3, 0)],
            links: [(1, 1, 1, 0), (6, 1, 1, 0), (3, 1, 0, 0)],
        },
        cases: cases_of! {
            (0, [], AtLeast(0), []),
            (u64::MAX, [9], AtLeast(0), []),
        },
    },
];

#[test]
fn goals_of_nothing(rt: HostRuntime) -> Result<(), Fail> {
    all_stand(&rt, &NO_GOAL)
}
