// What holds in a state of an accepted task.
ghost use Rattle.std.specs.Prelude.{◌≡◌, ℕ, ◌+◌, ◌-◌, ◌<◌, ◌≤◌, ◌*ℤ◌, length, unsigned_abs};
ghost use Rattle.tables.specs.Chains.{chain};
ghost use Rattle.tables.specs.Problem.{contents};
ghost use Rattle.tables.specs.Rules.{ChainKeeps, LinkFits};
ghost use Rattle.task.specs.States.{value_of, total, mark, gap, condition_at, condition_holds, need_holds, all_hold, goal_holds};
ghost use Rattle.task.specs.Tasks.{problem};
ghost use Rattle.tables.specs.declared.Role.TheVariants.{Terms, Needs};

use crate::accepted::Task;
use crate::chain::*;
use crate::records::numbered;
use crate::state::State;
use tables::kind::{LinkKind, Sense};
use tables::*;

impl Task<'_> {
    // What a term adds to its condition's sum: its weight × the value of its quantity.
    fn term(&self, link: &Link, state: &State) -> i64
        requires { LinkFits (problem self.now) Terms link.now }
        ensures is { result ≡ link.now.amount *ℤ value_of state.now link.now.subject }
        ensures small { unsigned_abs result ≤ 21474836480 }
    {
        i64::from(link.amount) * i64::from(state.values[link.subject as usize - 1])
    }

    // The sum of weight × value over the chain of terms that begins at a number.
    fn total(&self, first: u32, state: &State) -> i64
        requires { ChainKeeps (problem self.now) Terms first }
        ensures is { result ≡ total (chain (problem self.now).links first) state.now }
        ensures small { unsigned_abs result ≤ 87960930222080 }
    {
        Chain::new(self.tables.links, first)
            .map(|link| self.term(&link, state))
            .sum()
    }

    // Whether the condition with a number holds: its sum is at least its mark.
    fn condition_holds(&self, number: u32, state: &State) -> bool
        requires { (1 ≤ number) × (number ≤ length (problem self.now).conditions) }
        ensures { result ≡ condition_holds (problem self.now) state.now (condition_at (problem self.now) number) }
    {
        self.gap(number, state) <= 0
    }

    // How far the sum of the condition with a number is below its mark: at most 0 where it holds; 0 for a number of none.
    pub fn gap(&self, number: u32, state: &State) -> i64
        ensures { result ≡ gap (problem self.now) state.now number }
    {
        let Some(condition) = numbered(self.tables.conditions, number) else {
            return 0;
        };
        mark(&condition) - self.total(condition.terms, state)
    }

    fn need_holds(&self, need: &Link, state: &State) -> bool
        requires { LinkFits (problem self.now) Needs need.now }
        ensures { result ≡ need_holds (problem self.now) state.now need.now }
    {
        if need.kind == LinkKind::Fact as u32 {
            (state.facts >> need.subject) & 1 == 1
        } else {
            self.condition_holds(need.subject, state)
        }
    }

    // Whether every need of the chain that begins at a number holds.
    pub(crate) fn needs_hold(&self, first: u32, state: &State) -> bool
        requires { ChainKeeps (problem self.now) Needs first }
        ensures { result ≡ all_hold (problem self.now) state.now (chain (problem self.now).links first) }
    {
        Chain::new(self.tables.links, first).all(|need| self.need_holds(&need, state))
    }

    // Whether every need of the goal holds, at any record.
    pub fn goal_holds(&self, state: &State) -> bool
        ensures { result ≡ goal_holds (problem self.now) state.now }
    {
        self.needs_hold(self.tables.head.goal, state)
    }
}

// The least sum at which a condition holds: its bound, or one more for 'more than'.
fn mark(condition: &Condition) -> i64
    ensures is { result ≡ mark condition.now }
    ensures small { unsigned_abs result ≤ 2147483649 }
{
    match Sense::try_from(condition.kind) {
        Ok(Sense::AtLeast) => i64::from(condition.bound),
        _ => i64::from(condition.bound) + 1,
    }
}
