// Which nodes hold at a state, and by how much the conditions that do not hold fall short.
ghost use Rattle.std.specs.Prelude.{◌≡◌, ℕ, ◌<◌, ◌≤◌, true, false};
ghost use Rattle.landmarks.specs.Rounds.{in_zone};
ghost use Rattle.task.specs.States.{fact_holds, is_state};
ghost use Rattle.task.specs.Tasks.{problem};
ghost use Rattle.lmcut.specs.Prepared.{Standing};

use std::array;
use task::accepted::Task;
use task::state::State;

// A task and a state of it.
#[derive(Clone, Copy)]
pub(crate) struct Position<'a> {
    pub(crate) task: &'a Task<'a>,
    pub(crate) state: &'a State,
    ghost state_of: { is_state (problem task.now) state.now ≡ true },
}

// Which nodes hold, and the shortfall of each condition that does not: an array over nodes and one over conditions.
#[derive(Clone, Copy)]
pub(crate) struct Met {
    pub(crate) holds: [bool; 129],
    pub(crate) shorts: [u32; 64],
}

impl Position<'_> {
    // Which facts hold; no node past them does.
    fn facts_hold(&self) -> [bool; 129]
        ensures facts { (k : ℕ) → k < (problem self.now.task.now).head.facts → in_zone result k ≡ fact_holds self.now.state.now.facts k }
        ensures rest { (k : ℕ) → (problem self.now.task.now).head.facts ≤ k → in_zone result k ≡ false }
    {
        let facts = self.task.tables().head.facts as usize;
        let word = self.state.facts;
        array::from_fn(|node| node < facts && (word >> node) & 1 == 1)
    }

    // The facts, then the conditions: one holds where its gap is at most 0, and else the gap is its shortfall. The goal node does
    // not hold.
    pub(crate) fn standing(&self) -> Met
        ensures { Standing (problem self.now.task.now) self.now.state.now result.holds result.shorts }
    {
        let tables = self.task.tables();
        let facts = tables.head.facts as usize;
        let mut holds = self.facts_hold();
        let mut shorts = [0; 64];
        for (index, short) in shorts[..tables.conditions.len()].iter_mut().enumerate() {
            let gap = self.task.gap(index as u32 + 1, self.state);
            holds[facts + index] = gap <= 0;
            *short = gap.max(0) as u32;
        }
        Met { holds, shorts }
    }
}
