// The longest tables and the largest numbers.
ghost use Rattle.std.specs.Prelude.{◌<◌};

use crate::cases::*;
use estimate::estimate::Estimate::*;
use landmarks::Ground;
use samples::rows::*;
use samples::tables_of;
use std::array;
use std::test::Fail;
use tables::*;

// The longest tables. The goal is all 64 facts and all 64 conditions, which are four on each quantity: at least 0, 25, 50 and
// 100. Each of the first 64 moves sets one fact and clears another; the others, twelve for each quantity, add 1 to 12 to it.
// Every move needs 14 conditions that hold. The links: 128 of the goal, 64 terms, 128 and 192 effects, 14 needs for each move.
fn full_link(index: u32) -> Link
    requires { index < 4096 }
{
    let after = index + 2;
    match index {
        0..=63 => link(2, index, 0, after),
        64..=126 => link(3, index - 63, 0, after),
        127 => link(3, 64, 0, 0),
        128..=191 => link(1, (index - 128) / 4 + 1, 1, 0),
        192..=319 if index % 2 == 0 => link(4, (index - 192) / 2, 0, after),
        192..=319 => link(5, ((index - 192) / 2 + 1) % 64, 0, 0),
        320..=511 => link(
            6,
            (index - 320) / 12 + 1,
            ((index - 320) % 12 + 1) as i32,
            0,
        ),
        _ => {
            let place = (index - 512) % 14;
            link(3, 4 * place + 1, 0, if place == 13 { 0 } else { after })
        }
    }
}

fn full_condition(index: u32) -> Condition
    requires { index < 64 }
{
    let bound = match index % 4 {
        0 => 0,
        1 => 25,
        2 => 50,
        _ => 100,
    };
    condition(0, bound, 129 + index)
}

// The cost is 10,000 to set a fact, and 10 to 131 to add 1 to 12: adding 1 is the cheapest for each unit.
fn full_move(index: u32) -> Move
    requires { index < 256 }
{
    let needs = 513 + 14 * index;
    if index < 64 {
        action(10_000, needs, 193 + 2 * index)
    } else {
        action((11 * ((index - 64) % 12) + 10) as i32, needs, 257 + index)
    }
}

// A round for each fact, with the one move that sets it, then one for each quantity, in which a move pays for each unit it adds.
fn full_landmark(index: u32) -> Ground
    requires { index < 256 }
{
    let number = index + 1;
    if index < 64 {
        return Ground {
            round: number,
            weight: 50_400_000,
            number,
            charge: 50_400_000,
        };
    }
    let place = index - 64;
    Ground {
        round: 65 + place / 12,
        weight: 5_040_000,
        number,
        charge: 50_400 * u64::from(place % 12 + 1),
    }
}

#[test]
fn longest_tables(rt: HostRuntime) -> Result<(), Fail> {
    let conditions: [Condition; 64] = array::from_fn(|index| full_condition(index as u32));
    let moves: [Move; 256] = array::from_fn(|index| full_move(index as u32));
    let links: [Link; 4096] = array::from_fn(|index| full_link(index as u32));
    let records: [Ground; 256] = array::from_fn(|index| full_landmark(index as u32));
    let tables = Tables {
        head: Head {
            facts: 64,
            start: 0,
            goal: 1,
        },
        quantities: &[quantity(0, 100_000, 0); 16],
        conditions: &conditions,
        moves: &moves,
        links: &links,
    };
    let case = Case {
        facts: 0,
        values: &[],
        answer: AtLeast(656_000),
        records: &records,
    };
    all_hold(&rt, tables, &[case])
}

// The values at which sums with negative weights at odd numbers and positive ones at even are least, in the widest quantities,
// and those at which they are most.
static LEAST: [i32; 16] = [
    100_000, -100_000, 100_000, -100_000, 100_000, -100_000, 100_000, -100_000, 100_000, -100_000,
    100_000, -100_000, 100_000, -100_000, 100_000, -100_000,
];

static MOST: [i32; 16] = [
    -100_000, 100_000, -100_000, 100_000, -100_000, 100_000, -100_000, 100_000, -100_000, 100_000,
    -100_000, 100_000, -100_000, 100_000, -100_000, 100_000,
];

// A number of the sign that its place has in the weights.
fn signed(place: u32, size: i32) -> i32 {
    if place % 2 == 0 {
        size.wrapping_neg()
    } else {
        size
    }
}

// The largest weights and changes: the terms of a condition on all quantities, the effects of a move that raises each term as
// far as a move can, the effect of one that adds 1 to quantity 2, and two goals.
fn wide_link(index: u32) -> Link
    requires { index < 35 }
{
    let place = index % 16;
    let next = if place == 15 { 0 } else { index + 2 };
    match index {
        0..=15 => link(1, place + 1, signed(place, 10), next),
        16..=31 => link(6, place + 1, signed(place, 200_000), next),
        32 => link(6, 2, 1, 0),
        33 => link(3, 1, 0, 0),
        _ => link(3, 2, 0, 0),
    }
}

const WIDEST: Quantity = Quantity {
    lowest: -100_000,
    highest: 100_000,
    start: 0,
};

// The sum is more than 20,000,000, which is the goal at link 34, or at least -20,000,000, which is the one at link 35. Links
// still to be given.
const FAR: Tables<'static> = Tables {
    quantities: &[WIDEST; 16],
    ..tables_of! {
        head: (0, 0, 34),
        quantities: [],
        conditions: [(1, 20_000_000, 1), (0, -20_000_000, 1)],
        moves: [(10_000, 0, 17), (10_000, 0, 33)],
        links: [],
    }
};

// The same tables where the goal begins at another link.
fn with_goal(tables: Tables, goal: u32) -> Tables {
    Tables {
        head: Head {
            goal,
            ..tables.head
        },
        ..tables
    }
}

#[test]
fn largest_numbers(rt: HostRuntime) -> Result<(), Fail> {
    let links: [Link; 35] = array::from_fn(|index| wide_link(index as u32));
    let both = Tables {
        links: &links,
        ..FAR
    };
    let far = cases_of! {
        (0, LEAST, AtLeast(11_251), [(1, 56_700_001, 1, 50_400_000), (1, 56_700_001, 2, 16)]),
        (0, MOST, AtLeast(1_251), [(1, 6_300_001, 1, 50_399_996), (1, 6_300_001, 2, 16)]),
    };
    all_hold(&rt, both, far)?;
    let second = Tables {
        moves: &FAR.moves[1..2],
        ..both
    };
    let longest = cases_of! {
        (0, LEAST, AtLeast(36_000_001_000), [(1, 181_440_005_040_000, 1, 50_400_000)]),
    };
    all_hold(&rt, second, longest)?;
    let none = Tables { moves: &[], ..both };
    let dead = cases_of! { (0, LEAST, Dead, []), (0, MOST, Dead, []) };
    all_hold(&rt, none, dead)?;
    let near = cases_of! { (0, LEAST, AtLeast(0), []), (0, MOST, AtLeast(0), []) };
    all_hold(&rt, with_goal(both, 35), near)
}

// Four conditions on all quantities, each with a weight of 9 in one place; four moves, each of which makes that one quantity
// worse by 1 and quantity 16 better by 1, so that it gains 1 on one condition and nothing on the others; and the goal.
fn steep_link(index: u32) -> Link
    requires { index < 76 }
{
    match index {
        0..=63 => {
            let place = index % 16;
            let size = if place == index / 16 { 9 } else { 10 };
            let next = if place == 15 { 0 } else { index + 2 };
            link(1, place + 1, signed(place, size), next)
        }
        64..=71 if index % 2 == 0 => {
            let place = (index - 64) / 2;
            link(6, place + 1, signed(place, -1), index + 2)
        }
        64..=71 => link(6, 16, 1, 0),
        75 => link(3, 4, 0, 0),
        _ => link(3, index - 71, 0, index + 2),
    }
}

// The goal begins at a link: it is the conditions from one on. Links still to be given.
const STEEP: Tables<'static> = Tables {
    quantities: &[WIDEST; 16],
    ..tables_of! {
        head: (0, 0, 76),
        quantities: [],
        conditions: [(1, 20_000_000, 1), (1, 20_000_000, 17), (1, 20_000_000, 33), (1, 20_000_000, 49)],
        moves: [(10_000, 0, 65), (10_000, 0, 67), (10_000, 0, 69), (10_000, 0, 71)],
        links: [],
    }
};

// Each condition takes a round of more than a third of what ends the rounds, so the fourth is not made.
#[test]
fn most_that_is_told(rt: HostRuntime) -> Result<(), Fail> {
    let links: [Link; 76] = array::from_fn(|index| steep_link(index as u32));
    let steep = Tables {
        links: &links,
        ..STEEP
    };
    let weight = 1_809_360_050_400_000;
    let charge = 50_400_000;
    let one = cases_of! { (0, LEAST, AtLeast(359_000_010_000), [(1, weight, 4, charge)]) };
    all_hold(&rt, steep, one)?;
    let two = cases_of! {
        (0, LEAST, AtLeast(718_000_020_000), [(1, weight, 3, charge), (2, weight, 4, charge)]),
    };
    all_hold(&rt, with_goal(steep, 75), two)?;
    let three = cases_of! {
        (0, LEAST, AtLeast(1_000_000_000_000), [
            (1, weight, 2, charge), (2, weight, 3, charge), (3, weight, 4, charge),
        ]),
    };
    all_hold(&rt, with_goal(steep, 74), three)?;
    let three_of_four = cases_of! {
        (0, LEAST, AtLeast(1_000_000_000_000), [
            (1, weight, 1, charge), (2, weight, 2, charge), (3, weight, 3, charge),
        ]),
    };
    all_hold(&rt, with_goal(steep, 73), three_of_four)
}
