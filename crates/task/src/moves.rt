// States of an accepted task, and the moves between them.
ghost use Rattle.std.specs.Prelude.{◌≡◌, ℕ, ◌+◌, ◌-◌, ◌<◌, ◌≤◌, true, ◌&&◌, length, is_some, if◌then◌else◌, Some, None};
ghost use Rattle.tables.specs.Chains.{chain};
ghost use Rattle.tables.specs.Check.{in_range};
ghost use Rattle.task.specs.Meaning.{MovesMean};
ghost use Rattle.tables.specs.Rules.{ChainKeeps, LinkFits};
ghost use Rattle.task.specs.States.{is_state, start_state, start_value, value_fits, quantity_at, changed, after_effects, allowed, result_of};
ghost use Rattle.task.specs.Tasks.{problem};
ghost use Rattle.tables.specs.declared.Role.TheVariants.{Effects};

use crate::accepted::Task;
use crate::chain::*;
use crate::records::numbered;
use crate::state::State;
use std::array;
use tables::check::is_below;
use tables::kind::LinkKind;
use tables::*;

impl Task<'_> {
    // The state at the start.
    pub fn start_state(&self) -> State
        ensures is { result ≡ start_state (problem self.now) }
        ensures state { is_state (problem self.now) result ≡ true }
    {
        State {
            facts: self.tables.head.start,
            values: array::from_fn(|i| self.start_value(i)),
        }
    }

    // The value at an index at the start: the quantity's, or 0 past the last quantity.
    fn start_value(&self, i: usize) -> i32
        ensures { result ≡ start_value (problem self.now).quantities i }
    {
        let quantity = self.tables.quantities.get(i);
        quantity.map_or(0, |quantity| quantity.start)
    }

    // Whether a value may stand at an index in a state: in the quantity's range, or 0 past the last quantity.
    fn value_fits(&self, i: usize, value: i32) -> bool
        ensures { result ≡ value_fits (problem self.now).quantities i value }
    {
        let quantity = self.tables.quantities.get(i);
        quantity.map_or(value == 0, |quantity| quantity.holds(value))
    }

    // Whether a record is a state of the task.
    pub fn is_state(&self, state: &State) -> bool
        ensures { result ≡ is_state (problem self.now) state.now }
    {
        let fits = |(i, value): (usize, &i32)| self.value_fits(i, *value);
        is_below(state.facts, self.tables.head.facts) && state.values.iter().enumerate().all(fits)
    }

    // The value of a quantity after a change, where it stays in its range.
    fn changed(&self, change: &Link, state: &State) -> Option<i32>
        requires { (1 ≤ change.now.subject) × (change.now.subject ≤ length (problem self.now).quantities) }
        ensures { result ≡ (if in_range (quantity_at (problem self.now) change.now.subject) (changed state.now change.now) then Some (changed state.now change.now) else None) }
    {
        let at = change.subject as usize - 1;
        let value = state.values[at].checked_add(change.amount)?;
        self.tables.quantities[at].holds(value).then_some(value)
    }

    // The state after the effects of a chain, worked out on a copy: clears, then sets, and every change from the state before;
    // none where a quantity that they change would leave its range.
    fn effected(&self, first: u32, state: &State) -> Option<State>
        requires { ChainKeeps (problem self.now) Effects first }
        ensures { result ≡ after_effects (problem self.now) state.now (chain (problem self.now).links first) }
    {
        let mut values = state.values;
        let mut sets = 0u64;
        let mut clears = 0u64;
        for link in Chain::new(self.tables.links, first) {
            if link.kind == LinkKind::Set as u32 {
                sets |= 1 << link.subject;
            } else if link.kind == LinkKind::Clear as u32 {
                clears |= 1 << link.subject;
            } else {
                values[link.subject as usize - 1] = self.changed(&link, state)?;
            }
        }
        let kept = state.facts ^ (state.facts & clears);
        Some(State {
            facts: kept | sets,
            values,
        })
    }

    // The result of a move, at any record, where it is allowed there. At a state, `MovesMean` says what that means.
    pub fn result(&self, state: &State, number: u32) -> Option<State>
        ensures is { result ≡ result_of (problem self.now) state.now number }
        ensures means { (is_state (problem self.now) state.now ≡ true → MovesMean (problem self.now) state.now number) }
    {
        let action = numbered(self.tables.moves, number)?;
        if !self.needs_hold(action.needs, state) {
            return None;
        }
        self.effected(action.effects, state)
    }

    // Whether a move is allowed, at any record.
    #[tactic(auto, using(crate::proofs::Results::allowed_result))]
    pub fn allowed(&self, state: &State, number: u32) -> bool
        ensures { result ≡ allowed (problem self.now) state.now number }
    {
        self.result(state, number).is_some()
    }
}
