// Checks the tables of one small task and a plan of it, asks estimators on the way, LM-cut with its landmark records, and prints
// what it did.
#![tactic(auto)]

use estimate::estimator::Estimator;
use estimate::simple::*;
use landmarks::Ground;
use lmcut::estimator::*;
use samples::pads::name_of;
use samples::said::Said;
use samples::walk::walk;
use task::accepted::Task;
use task::state::State;

const LARGER: LargerOf<Floor, LmCut> = LargerOf {
    first: Floor,
    second: LmCut,
};

// Four zeros; the library has no such record.
const NO_GROUND: Ground = Ground {
    round: 0,
    weight: 0,
    number: 0,
    charge: 0,
};

// Prints the landmark records behind LM-cut's answer about a state.
fn say_grounds(rt: &impl Print, task: &Task, state: &State) -> anyhow::Result<()> {
    let mut records = [NO_GROUND; 4];
    match LmCut.grounds(task, state, &mut records) {
        Ok(count) => {
            for ground in records.iter().take(count) {
                say_ground(rt, ground)?;
            }
        }
        Err(fault) => println!(rt; "    records refused: {fault}")?,
    }
    Ok(())
}

// Prints one of them, in this program's words.
fn say_ground(rt: &impl Print, ground: &Ground) -> anyhow::Result<()> {
    let Ground {
        round,
        weight,
        number,
        charge,
    } = *ground;
    let name = name_of(number);
    println!(rt; "    round {round} of weight {weight}: move {number} {name} is charged {charge}")?;
    Ok(())
}

// Prints what each estimator answers about a state, LM-cut with its landmark records.
fn say_estimates(rt: &impl Print, task: &Task, state: &State) -> anyhow::Result<()> {
    let zero = Said(Zero.ask(task, state));
    let floor = Said(Floor.ask(task, state));
    let lm_cut = Said(LmCut.ask(task, state));
    let larger = Said(LARGER.ask(task, state));
    println!(rt; "  zero: {zero}")?;
    println!(rt; "  floor: {floor}")?;
    println!(rt; "  LM-cut: {lm_cut}")?;
    say_grounds(rt, task, state)?;
    println!(rt; "  larger of floor and LM-cut: {larger}")?;
    Ok(())
}

fn main(rt: HostRuntime) -> anyhow::Result<()> {
    walk(&rt, |task, state| say_estimates(&rt, task, state))
}
