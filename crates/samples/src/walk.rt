// The walk that programs print: the check of the pads task and of a plan of it, and what happens along the plan.
use crate::pads::*;
use task::accepted::Task;
use task::state::State;

static PLAN: [u32; 2] = [1, 2];

// Checks the pads task and a plan of it, and prints each move with the pads after it, as far as the moves are allowed. `say`
// says what there is to say of the start and of the state after each move.
pub fn walk<F: Fn(&Task, &State) -> anyhow::Result<()>>(
    rt: &impl Print,
    say: F,
) -> anyhow::Result<()>
    requires { F.IsAlwaysCallable say }
{
    match Task::try_from(PADS) {
        Err(fault) => println!(rt; "tables refused: {fault}")?,
        Ok(task) => {
            println!(rt; "tables accepted")?;
            match task.check_plan(&PLAN) {
                Ok(cost) => println!(rt; "plan passed, cost {cost}")?,
                Err(fault) => println!(rt; "plan refused: {fault}")?,
            }
            follow(rt, &task, &PLAN, say)?;
        }
    }
    Ok(())
}

fn follow<F: Fn(&Task, &State) -> anyhow::Result<()>>(
    rt: &impl Print,
    task: &Task,
    list: &[u32],
    say: F,
) -> anyhow::Result<()>
    requires { F.IsAlwaysCallable say }
{
    let mut state = task.start_state();
    let pads = state.values[0];
    println!(rt; "start: pads {pads}")?;
    say(task, &state)?;
    for &number in list {
        let Some(next) = task.result(&state, number) else {
            println!(rt; "move {number} is not allowed")?;
            return Ok(());
        };
        let name = name_of(number);
        let pads = next.values[0];
        println!(rt; "move {number} {name}: pads {pads}")?;
        state = next;
        say(task, &state)?;
    }
    Ok(())
}
