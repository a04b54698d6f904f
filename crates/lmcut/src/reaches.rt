// The nodes that the effects of a move reach at a state.
ghost use Rattle.std.specs.Prelude.{◌≡◌, ◌+◌, ◌<◌, ◌≤◌, false, not, ◌&&◌, length, replicate, is_some, IfSome, slice_index_or, unsigned_abs};
ghost use Rattle.tables.specs.Chains.{chain};
ghost use Rattle.tables.specs.Rules.{MoveKeeps};
ghost use Rattle.task.specs.States.{condition_at};
ghost use Rattle.task.specs.Tasks.{problem};
ghost use Rattle.landmarks.specs.Relaxed.{raises};
ghost use Rattle.lmcut.specs.Prepared.{weighed, Standing, Row};

use crate::effects::*;
use crate::standing::{Met, Position};
use tables::Move;
use task::accepted::Task;

// The gain of effects on the condition at an index, where it does not hold and they raise its sum.
fn gain_on(task: &Task, holds: &[bool; 129], done: &Doing, index: usize) -> Option<u32>
    requires inside { index < length (problem task.now).conditions }
    requires fits { unsigned_abs (weighed done.now.changes (chain (problem task.now).links (condition_at (problem task.now) (index + 1)).terms)) ≤ 32000000 }
    ensures some { let sum = weighed done.now.changes (chain (problem task.now).links (condition_at (problem task.now) (index + 1)).terms) in is_some result ≡ (raises sum && not (slice_index_or holds.now ((problem task.now).head.facts + index) false)) }
    ensures is { let sum = weighed done.now.changes (chain (problem task.now).links (condition_at (problem task.now) (index + 1)).terms) in IfSome result (λ g. g ≡ unsigned_abs sum) }
{
    let tables = task.tables();
    if holds[tables.head.facts as usize + index] {
        return None;
    }
    let gain = done.gain(task, tables.conditions[index].terms);
    (gain > 0).then(|| gain as u32)
}

impl Position<'_> {
    // The word of the nodes that the effects of a move reach, where it is told which conditions hold. The gains on the conditions
    // among these are written to a row of zeros.
    pub(crate) fn reached(&self, met: &Met, action: &Move, gains: &mut [u32; 64]) -> u128
        requires standing { Standing (problem self.now.task.now) self.now.state.now met.now.holds met.now.shorts }
        requires keeps { MoveKeeps (problem self.now.task.now) action.now }
        requires zeros { gains.old ≡ replicate 64 0 }
        ensures { Row (problem self.now.task.now) self.now.state.now (chain (problem self.now.task.now).links action.now.effects) result gains.new }
    {
        let tables = self.task.tables();
        let done = Doing::new(self.task, action.effects);
        let facts = tables.head.facts as usize;
        let mut nodes = u128::from(done.sets ^ (done.sets & self.state.facts));
        for (index, place) in gains[..tables.conditions.len()].iter_mut().enumerate() {
            if let Some(gain) = gain_on(self.task, &met.holds, &done, index) {
                nodes |= 1 << (facts + index);
                *place = gain;
            }
        }
        nodes
    }
}
