// How tasks and what is expected of them are written down, and how LM-cut is held to it.
use estimate::estimate::*;
use estimate::estimator::Estimator;
use landmarks::*;
use lmcut::estimator::*;
use std::process::Abort;
use std::test::Fail;
use tables::*;
use task::accepted::Task;
use task::state::State;

// A record of a task (its facts, and its values, with 0 past those given), what LM-cut answers there, and the landmark records.
#[derive(Clone, Copy)]
pub struct Case<'a> {
    pub facts: u64,
    pub values: &'a [i32],
    pub answer: Estimate,
    pub records: &'a [Ground],
}

// A task, and what is expected of it.
pub struct Sample {
    pub tables: Tables<'static>,
    pub cases: &'static [Case<'static>],
}

// Cases from rows: the facts, the values, the answer, and the landmark records by round, weight, move and charge.
macro_rules! cases_of {
    ($(($facts:expr, $values:expr, $answer:expr, [$(($round:expr, $weight:expr, $number:expr, $charge:expr)),* $(,)?])),* $(,)?) => {
        &[$($crate::cases::Case {
            facts: $facts,
            values: &$values,
            answer: $answer,
            records: &[$(landmarks::Ground {
                round: $round,
                weight: $weight,
                number: $number,
                charge: $charge,
            }),*],
        }),*]
    };
}

pub(crate) use cases_of;

// What stands in a buffer before it is written to.
const BLANK: Ground = Ground {
    round: 9,
    weight: 99,
    number: 999,
    charge: 9999,
};

// The records come at the front of a buffer of some length, and what is past them stays as it was.
fn written(rt: &impl Abort, task: &Task, state: &State, records: &[Ground], length: usize) {
    let mut buffer = [BLANK; 300];
    assert!(rt; records.len() <= length && length <= 300);
    assert_eq!(rt;
        LmCut.grounds(task, state, &mut buffer[..length]),
        Ok(records.len())
    );
    let (found, past) = buffer.split_at(records.len());
    assert_eq!(rt; found, records);
    assert!(rt; past.iter().all(|blank| *blank == BLANK));
}

// A buffer of some length is refused as too short, and stays as it was.
fn refused(rt: &impl Abort, task: &Task, state: &State, length: usize) -> Result<(), Fail> {
    let mut buffer = [BLANK; 300];
    assert!(rt; length <= 300);
    let Err(fault) = LmCut.grounds(task, state, &mut buffer[..length]) else {
        return Err(Fail::new("not refused"));
    };
    assert_eq!(rt; fault.number(), 8);
    assert_eq!(rt; fault.place(), 0);
    assert_eq!(rt; buffer, [BLANK; 300]);
    Ok(())
}

// The landmark records come in buffers just long enough and longer, and not in buffers one too short or empty.
fn recorded(rt: &impl Abort, task: &Task, state: &State, records: &[Ground]) -> Result<(), Fail> {
    written(rt, task, state, records, records.len());
    written(rt, task, state, records, 300);
    if !records.is_empty() {
        refused(rt, task, state, records.len() - 1)?;
        refused(rt, task, state, 0)?;
    }
    Ok(())
}

// What LM-cut answers about a record of a task, the case at an index of a list, and its landmark records.
fn holds(rt: &impl Abort, task: &Task, case: &Case, index: usize) -> Result<(), Fail> {
    let mut values = [0; 16];
    for (value, given) in values.iter_mut().zip(case.values) {
        *value = *given;
    }
    let state = State {
        facts: case.facts,
        values,
    };
    assert_eq!(rt; LmCut.ask(task, &state), case.answer, "case {index}");
    recorded(rt, task, &state, case.records)
}

// The same at each record of a list.
pub(crate) fn all_hold(rt: &impl Abort, tables: Tables, cases: &[Case]) -> Result<(), Fail> {
    let task = Task::try_from(tables)?;
    for (index, case) in cases.iter().enumerate() {
        holds(rt, &task, case, index)?;
    }
    Ok(())
}

// Every sample is as expected.
pub(crate) fn all_stand(rt: &impl Abort, samples: &[Sample]) -> Result<(), Fail> {
    for sample in samples {
        all_hold(rt, sample.tables, sample.cases)?;
    }
    Ok(())
}
