// The three simplest estimators.
ghost use Rattle.std.specs.Prelude.{◌≡◌};
ghost use Rattle.estimate.specs.Answers.{zero_answer, floor_answer, cheapest};
ghost use Rattle.estimate.specs.Estimates.{larger};
ghost use Rattle.estimate.specs.Cheapest.{floor_sound, floor_plain};
ghost use Rattle.estimate.specs.Simple.{zero_sound, zero_plain, larger_sound, larger_plain};

use crate::estimate::Estimate;
use crate::estimator::Estimator;
use tables::Move;
use task::accepted::Task;
use task::state::State;

// Answers 0.
#[derive(Clone, Copy)]
pub struct Zero;

// Answers 0 where the goal holds, else the cost of the cheapest move, or dead if there is none.
#[derive(Clone, Copy)]
pub struct Floor;

// Answers the larger of two estimators' numbers, and dead where either is.
#[derive(Clone, Copy)]
pub struct LargerOf<A, B> {
    pub first: A,
    pub second: B,
}

impl Estimator for Zero {
    ghost answer = { λ _. zero_answer };

    ghost sound = { λ e p s a i. zero_sound p s };

    ghost plain = { λ e p s i. zero_plain p s };

    fn ask(&self, _task: &Task, _state: &State) -> Estimate {
        Estimate::AtLeast(0)
    }
}

impl Estimator for Floor {
    ghost answer = { λ _. floor_answer };

    ghost sound = { λ e p s a. floor_sound p s };

    ghost plain = { λ e p s. floor_plain p s };

    #[tactic(auto, unfolding(crate::specs::Answers::floor_answer))]
    fn ask(&self, task: &Task, state: &State) -> Estimate {
        if !task.is_state(state) || task.goal_holds(state) {
            return Estimate::AtLeast(0);
        }
        let moves = task.tables().moves;
        if moves.is_empty() {
            return Estimate::Dead;
        }
        Estimate::AtLeast(least_cost(moves))
    }
}

// The cost of the cheapest move.
fn least_cost(moves: &[Move]) -> u64
    ensures { result ≡ cheapest moves.now }
{
    let lower = |least: u32, action: &Move| least.min(action.cost.unsigned_abs());
    u64::from(moves.iter().fold(10_000, lower))
}

impl<A: Estimator, B: Estimator> Estimator for LargerOf<A, B> {
    ghost answer = { λ e p s. larger (A.Estimator.answer e.first p s) (B.Estimator.answer e.second p s) };

    ghost sound = { λ e p s a i. larger_sound p s (A.answer e.first p s) (B.answer e.second p s) (A.sound e.first p s a i) (B.sound e.second p s a i) };

    ghost plain = { λ e p s i. larger_plain (A.answer e.first p s) (B.answer e.second p s) (A.plain e.first p s i) (B.plain e.second p s i) };

    fn ask(&self, task: &Task, state: &State) -> Estimate {
        let first = self.first.ask(task, state);
        let second = self.second.ask(task, state);
        first.max(second)
    }
}
