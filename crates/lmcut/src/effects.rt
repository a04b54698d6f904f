// What effects do to facts, quantities and the sums of conditions.
ghost use Rattle.std.specs.Prelude.{◌≡◌, ℕ, ◌<◌, ◌≤◌, pos, slice_index_or, unsigned_abs};
ghost use Rattle.tables.specs.Chains.{chain};
ghost use Rattle.tables.specs.Rules.{ChainKeeps};
ghost use Rattle.tables.specs.declared.Role.TheVariants.{Terms, Effects};
ghost use Rattle.task.specs.States.{made};
ghost use Rattle.task.specs.Tasks.{problem};
ghost use Rattle.lmcut.specs.Prepared.{weighed, Changes};

use tables::kind::LinkKind;
use task::accepted::Task;
use task::chain::*;

// What effects do: the facts that they set, and what they add to each quantity.
#[derive(Clone, Copy)]
pub(crate) struct Doing {
    pub(crate) sets: u64,
    pub(crate) changes: [i64; 16],
    ghost small: { (i : ℕ) → unsigned_abs (slice_index_or changes i (pos 0)) ≤ 819200000 },
}

impl Doing {
    // What the effects of a chain do.
    pub(crate) fn new(task: &Task, first: u32) -> Doing
        requires { ChainKeeps (problem task.now) Effects first }
        ensures sets { result.sets ≡ made (chain (problem task.now).links first) }
        ensures changes { Changes result.changes (chain (problem task.now).links first) }
    {
        let mut sets = 0u64;
        let mut changes = [0i64; 16];
        for link in Chain::new(task.tables().links, first) {
            if link.kind == LinkKind::Set as u32 {
                sets |= 1 << link.subject;
            } else if link.kind == LinkKind::Change as u32 {
                changes[link.subject as usize - 1] += i64::from(link.amount);
            }
        }
        Doing { sets, changes }
    }

    // The gain on a sum: weight × change, added up over the chain of terms that begins at a number.
    pub(crate) fn gain(&self, task: &Task, first: u32) -> i64
        requires { ChainKeeps (problem task.now) Terms first }
        ensures { result ≡ weighed self.now.changes (chain (problem task.now).links first) }
    {
        let mut sum = 0i64;
        for link in Chain::new(task.tables().links, first) {
            sum += i64::from(link.amount) * self.changes[link.subject as usize - 1];
        }
        sum
    }
}
