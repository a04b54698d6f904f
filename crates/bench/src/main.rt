// Asks LM-cut about the states along a walk of two tasks, a small one and one with the largest tables, and prints what its answers
// add up to. With a word as argument it also prints the time of a question, in nanoseconds.
#![tactic(auto)]

mod largest;

use crate::largest::*;
use estimate::estimate::Estimate;
use estimate::estimator::Estimator;
use lmcut::estimator::*;
use samples::pads::PADS;
use std::env;
use std::time::Instant;
use tables::*;
use task::accepted::Task;

const ASKED: u32 = 512;

// What LM-cut's answers along walks of sixteen states add up to, where each state follows by the next move in turn, if it is allowed.
// The loop counts turns and indexes nothing.
fn asked(task: &Task, moves: u32) -> u64 {
    let mut state = task.start_state();
    let mut sum = 0u64;
    for turn in 0..ASKED {
        if turn % 16 == 0 {
            state = task.start_state();
        }
        if let Estimate::AtLeast(n) = LmCut.ask(task, &state) {
            sum = sum.wrapping_add(n);
        }
        if let Some(next) = task.result(&state, turn % moves.max(1) + 1) {
            state = next;
        }
    }
    sum
}

// Runs one task, and prints its sum and, where it is wanted, the time of a question.
fn run(rt: &HostRuntime, name: &str, tables: Tables, timed: bool) -> anyhow::Result<()> {
    match Task::try_from(tables) {
        Err(fault) => {
            let number = fault.number();
            println!(rt; "{name}: tables refused, rule {number}")?;
        }
        Ok(task) => {
            let moves = tables.moves.len() as u32;
            let start = Instant::now(rt)?;
            let sum = asked(&task, moves);
            let spent = start.elapsed(rt)?;
            println!(rt; "{name}: {ASKED} questions, answers add up to {sum}")?;
            if timed {
                let each = spent.as_nanos() / u128::from(ASKED);
                println!(rt; "{name}: {each} ns a question")?;
            }
        }
    }
    Ok(())
}

// Runs both tasks. Any argument asks for times.
fn all(rt: &HostRuntime) -> anyhow::Result<()> {
    let timed = env::args(rt)?.nth(1).is_some();
    run(rt, "small", PADS, timed)?;
    let conditions = conditions();
    let moves = moves();
    let links = links();
    let large = Tables {
        head: HEAD,
        quantities: &SIXTEEN,
        conditions: &conditions,
        moves: &moves,
        links: &links,
    };
    run(rt, "largest", large, timed)
}

fn main(rt: HostRuntime) -> anyhow::Result<()> {
    all(&rt)
}
