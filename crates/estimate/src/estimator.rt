// What an estimator is: its answer for every problem and every record, that the answer is sound at every state of an accepted
// task, and that asking gives it.
ghost use Rattle.std.specs.Prelude.{◌≡◌, true, false};
ghost use Rattle.estimate.specs.Estimates.{Claims};
ghost use Rattle.estimate.specs.declared.estimate.Estimate.{Estimate};
ghost use Rattle.estimate.specs.declared.estimate.Estimate.TheVariants.{AtLeast};
ghost use Rattle.tables.specs.Check.{accepted};
ghost use Rattle.tables.specs.Problem.{Problem};
ghost use Rattle.task.specs.States.{is_state, start_state};
ghost use Rattle.task.specs.Tasks.{problem};
ghost use Rattle.task.specs.declared.state.State.{State};

use crate::estimate::Estimate;
use task::accepted::Task;
use task::state::State;

pub trait Estimator {
    // The answer that asking gives.
    ghost answer: { Self → Problem → State → Estimate };

    fn ask(&self, task: &Task, state: &State) -> Estimate
        ensures { result ≡ answer self.now (problem task.now) state.now };

    // At every state of an accepted task, what the answer claims is so.
    ghost sound: { (e : Self) (p : Problem) (s : State) → accepted p ≡ true → is_state p s ≡ true → Claims p s (answer e p s) };

    // At a record that is no state the answer is 'at least 0'.
    ghost plain: { (e : Self) (p : Problem) (s : State) → is_state p s ≡ false → answer e p s ≡ AtLeast 0 };
}

// A bound on the whole task: what the estimator answers at the start. Every plan of the task costs at least the figure told, and
// there is none where it says so.
pub fn bound_at_start<E: Estimator>(estimator: &E, task: &Task) -> Estimate
    ensures { Claims (problem task.now) (start_state (problem task.now)) result }
{
    let start = task.start_state();
    estimator.ask(task, &start)
}
