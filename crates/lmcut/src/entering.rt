// The edges by which an action enters a goal zone.
ghost use Rattle.std.specs.Prelude.{◌≡◌, ℕ, ◌-◌, ◌<◌, true, map, Some, slice_index};
ghost use Rattle.std.specs.Iterator.{YieldsFirst, item_count};
ghost use Rattle.task.specs.States.{fact_holds};
ghost use Rattle.landmarks.specs.Rounds.{into};
ghost use Rattle.lmcut.specs.Drawn.{zone_of};
ghost use Rattle.lmcut.specs.Questions.{edge_at, reach_edge, reaches_from};
ghost use Rattle.lmcut.specs.declared.question.Edge.{Edge};

use crate::bits::Bits;
use crate::question::{Asked, Edge};

// The nodes of the zone that the action reaches, and the helper's edge to the goal node: what is still to come.
#[derive(Clone, Copy)]
pub(crate) struct Entering<'r> {
    asked: Asked<'r>,
    action: usize,
    nodes: Bits,
    goal: Option<Edge>,
    ghost inside: { action < asked.question.now.actions },
    ghost reached: { (n : ℕ) → fact_holds nodes.word n ≡ true → fact_holds (slice_index asked.question.now.reach action) n ≡ true },
    ghost last: { (e : Edge) → goal ≡ Some e → edge_at asked.question.now action (asked.question.now.nodes - 1) ≡ Some e },
}

impl<'r> Entering<'r> {
    ghost use Rattle.lmcut.specs.Entered.{edges_to_come};

    // The edges of an action into the goal zone whose nodes below the goal node are those of a word.
    pub(crate) fn new(asked: Asked<'r>, action: usize, zone: u128) -> Entering<'r>
        requires { action < asked.question.now.actions }
        ensures { edges_to_come result ≡ map reach_edge (into (zone_of asked.entry.question.now true zone) (reaches_from asked.entry.question.now action 0 asked.entry.question.now.nodes)) }
    {
        Entering {
            asked,
            action,
            nodes: Bits::new(asked.question.reach[action] & zone),
            goal: (action + 1 == asked.question.actions).then_some(Edge { short: 1, gain: 1 }),
        }
    }
}

impl Iterator for Entering<'_> {
    ghost use Rattle.lmcut.specs.Entered.{edges_to_come};

    type Item = Edge;

    ghost can_next = { λ _. Unit {0} };

    ghost next_gives = { YieldsFirst edges_to_come };

    ghost remaining = { item_count edges_to_come };

    fn next(&mut self) -> Option<Edge> {
        let Some(node) = self.nodes.next() else {
            return self.goal.take();
        };
        Some(self.asked.inner(self.action, node))
    }
}
