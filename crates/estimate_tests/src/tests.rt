use estimate::estimate::Estimate;
use estimate::estimate::Estimate::*;
use estimate::estimator::*;
use estimate::simple::*;
use samples::tables_of;
use std::test::Fail;
use tables::*;
use task::accepted::Task;
use task::state::State;

// v from 0 to 9, at 2; moves that add 3 for 7 and 1 for 4; the goal is v at least 5 and fact 0, which holds at the start.
const FIVE: Tables<'static> = tables_of! {
    head: (1, 1, 1),
    quantities: [(0, 9, 2)],
    conditions: [(0, 5, 3)],
    moves: [(7, 0, 4), (4, 0, 5)],
    links: [(2, 0, 0, 2), (3, 1, 0, 0), (1, 1, 1, 0), (6, 1, 3, 0), (6, 1, 1, 0)],
};

const NO_MOVES: Tables<'static> = Tables { moves: &[], ..FIVE };

const ZERO_OR_FLOOR: LargerOf<Zero, Floor> = LargerOf {
    first: Zero,
    second: Floor,
};

const FLOOR_OR_ZERO: LargerOf<Floor, Zero> = LargerOf {
    first: Floor,
    second: Zero,
};

const ZERO_OR_LARGER: LargerOf<Zero, LargerOf<Zero, Floor>> = LargerOf {
    first: Zero,
    second: ZERO_OR_FLOOR,
};

// What an estimator answers about a record of a task: its facts, its first value and its last.
fn asked<E: Estimator>(estimator: &E, task: &Task, facts: u64, value: i32, past: i32) -> Estimate {
    let mut values = [0; 16];
    values[0] = value;
    values[15] = past;
    estimator.ask(task, &State { facts, values })
}

#[test]
fn zero_and_floor(rt: HostRuntime) -> Result<(), Fail> {
    let five = Task::try_from(FIVE)?;
    let no_moves = Task::try_from(NO_MOVES)?;
    assert_eq!(rt; asked(&Zero, &five, 1, 2, 0), AtLeast(0));
    assert_eq!(rt; asked(&Floor, &five, 1, 2, 0), AtLeast(4));
    assert_eq!(rt; asked(&Floor, &five, 1, 5, 0), AtLeast(0), "the goal holds");
    assert_eq!(rt; asked(&Floor, &five, 0, 5, 0), AtLeast(4), "the fact fails");
    assert_eq!(rt; asked(&Floor, &no_moves, 1, 2, 0), Dead, "no moves");
    assert_eq!(rt;
        asked(&Floor, &no_moves, 1, 5, 0),
        AtLeast(0),
        "no moves, and none is needed"
    );
    Ok(())
}

#[test]
fn records_that_are_no_states(rt: HostRuntime) -> Result<(), Fail> {
    let five = Task::try_from(FIVE)?;
    let no_moves = Task::try_from(NO_MOVES)?;
    assert_eq!(rt;
        asked(&Floor, &five, 3, 2, 0),
        AtLeast(0),
        "a bit past the last fact"
    );
    assert_eq!(rt;
        asked(&Floor, &no_moves, 1, 2, 1),
        AtLeast(0),
        "a value past the last quantity"
    );
    assert_eq!(rt;
        asked(&Floor, &five, 1, 10, 0),
        AtLeast(0),
        "a value out of range"
    );
    assert_eq!(rt; asked(&Floor, &five, 1, i32::MIN, 0), AtLeast(0));
    assert_eq!(rt; asked(&FLOOR_OR_ZERO, &no_moves, 1, -1, 0), AtLeast(0));
    Ok(())
}

#[test]
fn larger_of_two(rt: HostRuntime) -> Result<(), Fail> {
    let five = Task::try_from(FIVE)?;
    let no_moves = Task::try_from(NO_MOVES)?;
    assert_eq!(rt; asked(&ZERO_OR_FLOOR, &five, 1, 2, 0), AtLeast(4));
    assert_eq!(rt; asked(&FLOOR_OR_ZERO, &five, 1, 2, 0), AtLeast(4));
    assert_eq!(rt; asked(&ZERO_OR_FLOOR, &no_moves, 1, 2, 0), Dead);
    assert_eq!(rt; asked(&FLOOR_OR_ZERO, &no_moves, 1, 2, 0), Dead);
    assert_eq!(rt; asked(&ZERO_OR_LARGER, &five, 0, 9, 0), AtLeast(4));
    Ok(())
}

#[test]
fn bounds_at_the_start(rt: HostRuntime) -> Result<(), Fail> {
    let task = Task::try_from(FIVE)?;
    assert_eq!(rt; bound_at_start(&Zero, &task), AtLeast(0));
    assert_eq!(rt; bound_at_start(&Floor, &task), AtLeast(4));
    Ok(())
}
