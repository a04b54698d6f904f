// Moves and the plan check.
use crate::answers::*;
use samples::pads::*;
use samples::tables_of;
use std::test::Fail;
use tables::*;
use task::accepted::Task;
use task::state::State;

#[test]
fn pads_plans(rt: HostRuntime) -> Result<(), Fail> {
    let pads = Task::try_from(PADS)?;
    assert_eq!(rt; judged(&pads, &[1, 2]), Ok(8));
    assert_eq!(rt; judged(&pads, &[2, 2]), Err([11, 2]));
    assert_eq!(rt; judged(&pads, &[1, 1, 1, 1, 1]), Err([10, 5]));
    assert_eq!(rt; judged(&pads, &[]), Err([11, 0]));
    assert_eq!(rt; judged(&pads, &[1, 3]), Err([9, 2]));
    assert_eq!(rt; judged(&pads, &[0]), Err([9, 1]));
    assert_eq!(rt;
        judged(&pads, &[1, 1, 1, 1, 9]),
        Err([9, 5]),
        "9 is told before 10 at one position"
    );
    let more_than_6 = Task::try_from(MORE_THAN_6)?;
    assert_eq!(rt; judged(&more_than_6, &[1, 2]), Ok(8));
    assert_eq!(rt; judged(&more_than_6, &[2, 2, 2]), Err([11, 3]));
    Ok(())
}

// What faults say as text: of a plan that misses the goal, and of tables whose links are gone.
#[test]
fn faults_as_text(rt: HostRuntime) -> Result<(), Fail> {
    let pads = Task::try_from(PADS)?;
    let Err(missed) = pads.check_plan(&[2, 2]) else {
        return Err(Fail::new("passed"));
    };
    assert_eq!(rt;
        format!(in rt.alloc(); "{missed}")?.as_str(),
        "rule 11 at position 2"
    );
    let Err(fault) = Task::try_from(Tables { links: &[], ..PADS }) else {
        return Err(Fail::new("accepted"));
    };
    assert_eq!(rt;
        format!(in rt.alloc(); "{fault}")?.as_str(),
        "rule 3 at table 2, record 1, link 2"
    );
    Ok(())
}

const ONE_MOVE: Tables<'static> = tables_of! {
    head: (0, 0, 0),
    quantities: [],
    conditions: [],
    moves: [(10_000, 0, 0)],
    links: [],
};

#[test]
fn long_lists(rt: HostRuntime) -> Result<(), Fail> {
    let list = vec![in rt.alloc(); 1u32; 65_537]?;
    assert!(rt; list.len() == 65_537);
    let task = Task::try_from(ONE_MOVE)?;
    assert_eq!(rt; judged(&task, &list[0..65_536]), Ok(655_360_000));
    assert_eq!(rt; judged(&task, &list), Err([9, 0]));
    Ok(())
}

// One quantity from 0 to 9 at 4 and two facts, the first holding. Move 1 clears and sets fact 0 and sets fact 1; move 2 clears
// fact 0; move 3 needs fact 1 and takes 5 from the quantity.
const FACTS_AND_CHANGES: Tables<'static> = tables_of! {
    head: (2, 1, 0),
    quantities: [(0, 9, 4)],
    conditions: [],
    moves: [(1, 0, 1), (1, 0, 4), (1, 5, 6)],
    links: [
        (4, 0, 0, 2),
        (5, 0, 0, 3),
        (4, 1, 0, 0),
        (5, 0, 0, 0),
        (2, 1, 0, 0),
        (6, 1, -5, 0),
    ],
};

// The facts and the first value after a list of moves, or none where it is not allowed.
fn after(task: &Task, list: &[u32]) -> Option<(u64, i32)> {
    let state = list
        .iter()
        .try_fold(task.start_state(), |state, m| task.result(&state, *m))?;
    Some((state.facts, state.values[0]))
}

#[test]
fn results(rt: HostRuntime) -> Result<(), Fail> {
    let task = Task::try_from(FACTS_AND_CHANGES)?;
    assert_eq!(rt; after(&task, &[]), Some((1, 4)));
    assert_eq!(rt;
        after(&task, &[1]),
        Some((3, 4)),
        "a fact both cleared and set ends up set"
    );
    assert_eq!(rt; after(&task, &[2]), Some((0, 4)));
    assert_eq!(rt; after(&task, &[3]), None, "its need does not hold");
    assert_eq!(rt; after(&task, &[1, 3]), None, "4 - 5 is out of range");
    assert_eq!(rt; after(&task, &[1, 4]), None, "no such move");
    Ok(())
}

#[test]
fn records_that_are_no_states(rt: HostRuntime) -> Result<(), Fail> {
    let task = Task::try_from(PADS)?;
    let start = task.start_state();
    assert!(rt; task.is_state(&start));
    assert!(rt; !task.goal_holds(&start));
    assert!(rt; task.allowed(&start, 1) && !task.allowed(&start, 3));
    assert!(rt;
        !task.is_state(&State {
            facts: 1,
            values: start.values,
        },)
    );
    let mut values = [0; 16];
    values[0] = 21;
    assert!(rt; !task.is_state(&State { facts: 0, values }));
    assert!(rt; task.goal_holds(&State { facts: 0, values }));
    values[0] = i32::MAX;
    assert!(rt; !task.allowed(&State { facts: 0, values }, 1));
    values[0] = 0;
    values[1] = 1;
    assert!(rt; !task.is_state(&State { facts: 0, values }));
    Ok(())
}
