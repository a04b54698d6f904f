// The nodes that chains of needs name.
ghost use Rattle.tables.specs.Rules.{ChainKeeps};
ghost use Rattle.tables.specs.declared.Role.TheVariants.{Needs};
ghost use Rattle.task.specs.Tasks.{problem};
ghost use Rattle.landmarks.specs.Relaxed.{needs_of};
ghost use Rattle.lmcut.specs.Prepared.{Word};

use tables::kind::LinkKind;
use task::accepted::Task;
use task::chain::*;

// The word of the nodes that a chain of needs names.
pub(crate) fn needs_word(task: &Task, first: u32) -> u128
    requires { ChainKeeps (problem task.now) Needs first }
    ensures { Word result (needs_of (problem task.now) first) }
{
    let facts = task.tables().head.facts;
    let mut word = 0u128;
    for link in Chain::new(task.tables().links, first) {
        let node = if link.kind == LinkKind::Fact as u32 {
            link.subject
        } else {
            facts + link.subject - 1
        };
        word |= 1 << node;
    }
    word
}
