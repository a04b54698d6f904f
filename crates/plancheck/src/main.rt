// Checks the tables of one small task and a plan of it, asks the three simplest estimators on the way, and prints what it did.
#![tactic(auto)]

use estimate::estimator::Estimator;
use estimate::simple::*;
use samples::said::Said;
use samples::walk::walk;
use task::accepted::Task;
use task::state::State;

const LARGER: LargerOf<Zero, Floor> = LargerOf {
    first: Zero,
    second: Floor,
};

// Prints what each estimator answers about a state.
fn say_estimates(rt: &impl Print, task: &Task, state: &State) -> anyhow::Result<()> {
    let zero = Said(Zero.ask(task, state));
    let floor = Said(Floor.ask(task, state));
    let larger = Said(LARGER.ask(task, state));
    println!(rt; "  zero: {zero}")?;
    println!(rt; "  floor: {floor}")?;
    println!(rt; "  larger of both: {larger}")?;
    Ok(())
}

fn main(rt: HostRuntime) -> anyhow::Result<()> {
    walk(&rt, |task, state| say_estimates(&rt, task, state))
}
