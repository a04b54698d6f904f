// The node values of a round, found lowest first: an action makes its offers once, when the last of its needs leaves the open
// nodes. The goal node is needed by no action, so it takes offers but is never open.
ghost use Rattle.std.specs.Prelude.{◌≡◌, ◌+◌, ◌*◌, ◌<◌, ◌≤◌, length, MatchOption};
ghost use Rattle.lmcut.specs.Valued.{edge_weight, most_weight, Fired, ready_at, fires_at, infinite, ReachedTo, Begun, Opened, Valued};
ghost use Rattle.lmcut.specs.Queued.{orders, Queued, NoneWaits, Taken, put};
ghost use Rattle.order.specs.Laws.{Lawful};

use crate::bits::*;
use crate::left::Left;
use crate::node::*;
use crate::question::{Asked, Edge};
use order::Heap;

// What an edge weighs where `left` is left of its action's cost.
fn weight(left: u64, edge: Edge) -> u64
    requires { (left ≤ 50400000) × ((edge.short ≤ 36000001) × (1 ≤ edge.gain)) }
    ensures is { result ≡ edge_weight left edge }
    ensures small { result ≤ most_weight }
{
    edge.short * left / edge.gain
}

// A round whose values are being found, where `left` is left of the actions' costs: the nodes that are still open, the values so
// far, and a heap of the open nodes of finite value. The values are lent, as the heap's slice is: with no array in it the rest can
// stand in registers.
#[derive(Drop)]
struct Settling<'q, 'h> {
    asked: Asked<'q>,
    left: &'q Left,
    open_nodes: u128,
    values: &'h mut [u64; 129],
    heap: Heap<'h, Node>,
    ghost long: { length values.now ≡ 129 },
    ghost lawful: { Lawful orders heap },
    ghost queued: { ∥ Queued values.now open_nodes asked.question.now.nodes heap ∥₁ },
}

impl<'q, 'h> Settling<'q, 'h> {
    ghost use Rattle.lmcut.specs.Settled.{Kept};

    // The values before any action: 0 for a node that holds, else infinite. The nodes below the goal node that do not hold are open.
    fn new(
        asked: Asked<'q>,
        left: &'q Left,
        values: &'h mut [u64; 129],
        room: &'h mut [Node],
    ) -> Settling<'q, 'h>
        requires { length room.old ≡ 129 }
        ensures question { result.asked.question ≡ asked.entry.question }
        ensures left { result.left ≡ left.entry }
        ensures begun { Begun asked.entry.question.now result.values.now }
        ensures opened { Opened asked.entry.question.now result.open_nodes }
    {
        let mut open_nodes = 0u128;
        *values = [INFINITE; 129];
        // By index: a node's number is its bit in the word too.
        for (node, holds) in asked.question.holds[..asked.question.nodes - 1]
            .iter()
            .enumerate()
        {
            if *holds {
                values[node] = 0;
            } else {
                open_nodes |= 1 << node;
            }
        }
        Settling {
            asked,
            left,
            open_nodes,
            values,
            heap: Heap::new(room),
        }
    }

    // Gives a node a candidate for its value: the lower counts.
    fn offer(&mut self, node: usize, candidate: u64)
        requires inside { node < self.old.asked.question.now.nodes }
        requires finite { candidate < infinite }
        ensures kept { Kept self.old self.new }
        ensures is { self.new.values.now ≡ put self.old.values.now node candidate }
    {
        let old = self.values[node];
        if candidate < old {
            self.values[node] = candidate;
            if node + 1 < self.asked.question.nodes && (self.open_nodes >> node) & 1 == 1 {
                queue(&mut self.heap, node, old, candidate);
            }
        }
    }

    // Offers an action's edges, from a need value, if the action needs no open node.
    fn fire(&mut self, action: usize, top: u64)
        requires inside { action < self.old.asked.question.now.actions }
        requires small { top ≤ 129 * most_weight }
        ensures kept { Kept self.old self.new }
        ensures fired { Fired self.old.asked.question.now self.old.left.now.of self.old.open_nodes action top self.old.values.now self.new.values.now }
    {
        let asked = self.asked;
        let question = asked.question;
        let left = self.left.of[action];
        if question.needs[action] & self.open_nodes != 0 {
            return;
        }
        for node in Bits::new(question.reach[action]) {
            self.offer(node, top + weight(left, asked.inner(action, node)));
        }
        if action + 1 == question.actions {
            self.offer(question.nodes - 1, top + left);
        }
    }

    // The offers at the start, with value 0: of all actions, by number, as `settle` is of those that need a node.
    fn settle_first(&mut self)
        ensures kept { Kept self.old self.new }
        ensures reached { ReachedTo self.old.asked.question.now self.old.left.now.of (ready_at self.old.asked.question.now self.old.open_nodes) 0 self.old.asked.question.now.actions self.old.values.now self.new.values.now }
    {
        for action in 0..self.asked.question.actions {
            self.fire(action, 0);
        }
    }

    // The offers of the actions whose last need has just left the open nodes, with its value.
    fn settle(&mut self, last: Node)
        requires inside { last.number < 128 }
        requires small { last.value ≤ 129 * most_weight }
        ensures kept { Kept self.old self.new }
        ensures reached { ReachedTo self.old.asked.question.now self.old.left.now.of (fires_at self.old.asked.question.now self.old.open_nodes last.number) last.value self.old.asked.question.now.actions self.old.values.now self.new.values.now }
    {
        for action in ActionBits::new(&self.asked.question.needing[last.number]) {
            self.fire(action, last.value);
        }
    }

    // Takes the node of lowest value out of the heap and the open nodes.
    fn take(&mut self) -> Option<Node>
        ensures question { self.new.asked.question ≡ self.old.asked.question }
        ensures left { self.new.left ≡ self.old.left }
        ensures values { self.new.values.now ≡ self.old.values.now }
        ensures taken { MatchOption result
            (NoneWaits self.old.values.now self.old.open_nodes self.old.asked.question.now.nodes)
            (λ x. Taken self.old.values.now self.old.open_nodes self.old.asked.question.now.nodes x self.new.open_nodes) }
    {
        let lowest = self.heap.pop()?;
        self.open_nodes ^= self.open_nodes & (1 << lowest.number);
        Some(lowest)
    }
}

impl Asked<'_> {
    // The node values of a round, where `left` is left of the actions' costs.
    pub(crate) fn values(self, left: &Left) -> [u64; 129]
        ensures { Valued self.entry.question.now left.now.of result }
    {
        let mut values = [0; 129];
        let mut room = [Node {
            value: 0,
            number: 0,
        }; 129];
        let mut settling = Settling::new(self, left, &mut values, &mut room);
        settling.settle_first();
        while let Some(last) = settling.take() {
            settling.settle(last);
        }
        *settling.values
    }
}
