// The goal zone, spread node by node, and the start zone, spread action by action until nothing changes. A zone is a word with a bit
// for each node below the goal node, which is in each goal zone and in no start zone.
ghost use Rattle.std.specs.Prelude.{◌≡◌, ℕ, ◌+◌, ◌-◌, ◌*◌, ◌<◌, true, false, List, take, nat_lt, slice_index, Some};
ghost use Rattle.lmcut.specs.Drawn.{edges_in, zone_of};
ghost use Rattle.task.specs.States.{fact_holds};
ghost use Rattle.lmcut.specs.Questions.{edge_at, relaxed_of};
ghost use Rattle.lmcut.specs.declared.question.Edge.{Edge};
ghost use Rattle.landmarks.specs.Rounds.{in_zone, goal_zone, start_zone};
ghost use Rattle.lmcut.specs.Spreading.{Stepped, Closed, Sources, joins};

use crate::bits::*;
use crate::graph::*;
use crate::question::Asked;

impl Asked<'_> {
    // The nodes that hold.
    fn held(self) -> u128
        ensures { (i : ℕ) → in_zone (zone_of self.entry.question.now false result) i ≡ in_zone (take self.entry.question.now.nodes self.entry.question.now.holds) i }
    {
        let mut zone = 0u128;
        for (node, holds) in self.question.holds[..self.question.nodes - 1]
            .iter()
            .enumerate()
        {
            if *holds {
                zone |= 1 << node;
            }
        }
        zone
    }
}

impl Graph<'_> {
    // Whether the edge from an action to a node that it reaches weighs 0.
    fn weightless(&self, action: usize, node: usize) -> bool
        requires inside { action < self.now.asked.question.now.actions }
        requires reached { fact_holds (slice_index self.now.asked.question.now.reach action) node ≡ true }
        ensures { (e : Edge) → edge_at self.now.asked.question.now action node ≡ Some e → result ≡ nat_lt (e.short * slice_index self.now.left.now.of action) e.gain }
    {
        let edge = self.asked.inner(action, node);
        edge.short * self.left.of[action] < edge.gain
    }

    // An action's chosen need, as a word, where its edge to a node that it reaches weighs 0.
    fn lead(&self, node: usize, action: usize) -> u128
        requires inside { action < self.now.asked.question.now.actions }
        requires reached { fact_holds (slice_index self.now.asked.question.now.reach action) node ≡ true }
        ensures { Sources self.now.asked.question.now self.now.left.now.of self.now.sources.now node action (action + 1) result }
    {
        match self.sources[action] {
            Some(source) if self.weightless(action, node) => 1 << source,
            _ => 0,
        }
    }

    // The chosen needs of all actions that lead to a node below the goal node by edges of weight 0.
    fn leads(&self, node: usize) -> u128
        requires { node + 1 < self.now.asked.question.now.nodes }
        ensures { Sources self.now.asked.question.now self.now.left.now.of self.now.sources.now node 0 384 result }
    {
        let mut found = 0u128;
        for action in ActionBits::new(&self.asked.question.reaching[node]) {
            found |= self.lead(node, action);
        }
        found
    }

    // The helper's chosen need, as a word, where its edge to the goal node weighs 0. That edge is in no word, and weighs what is left
    // of its cost, so `lead` does not serve.
    fn last_lead(&self) -> u128
        ensures { Sources self.now.asked.question.now self.now.left.now.of self.now.sources.now (self.now.asked.question.now.nodes - 1) 0 384 result }
    {
        let helper = self.asked.question.actions - 1;
        match self.sources[helper] {
            Some(source) if self.left.of[helper] == 0 => 1 << source,
            _ => 0,
        }
    }

    // The goal node and all nodes that lead to it over edges of weight 0: a fresh node joins the zone, and those that lead to it are
    // fresh unless in the zone.
    pub(crate) fn goal_zone(&self) -> u128
        ensures { (i : ℕ) → in_zone (zone_of self.now.asked.question.now true result) i ≡ in_zone (goal_zone (relaxed_of self.now.asked.question.now) (edges_in self.now.asked.question.now self.now.left.now.of self.now.sources.now)) i }
    {
        let mut zone = 0u128;
        let mut fresh = self.last_lead();
        while fresh != 0 {
            let node = fresh.trailing_zeros();
            zone |= 1 << node;
            let found = fresh | self.leads(node as usize);
            fresh = found ^ (found & zone);
        }
        zone
    }

    // For each action that starts in a zone, adds the nodes that it reaches outside the goal zone.
    fn start_pass(&self, near: u128, from: u128) -> u128
        ensures { Stepped self.now.asked.question.now false (joins self.now.asked.question.now self.now.sources.now (zone_of self.now.asked.question.now true near)) (Closed (joins self.now.asked.question.now self.now.sources.now (zone_of self.now.asked.question.now true near)) self.now.asked.question.now.nodes) from result }
    {
        let sources = self.sources;
        let mut zone = from;
        for (action, &source) in sources[..self.asked.question.actions].iter().enumerate() {
            if starts(source, zone) {
                let reach = self.asked.question.reach[action];
                zone |= reach ^ (reach & near);
            }
        }
        zone
    }

    // The nodes that hold, and what edges reach from the ground and these without entering the goal zone.
    pub(crate) fn start_zone(&self, near: u128) -> u128
        ensures { (rs : List ℕ) (i : ℕ) → in_zone (zone_of self.now.asked.question.now false result) i ≡ in_zone (start_zone (relaxed_of self.now.asked.question.now) (edges_in self.now.asked.question.now rs self.now.sources.now) (zone_of self.now.asked.question.now true near)) i }
    {
        let mut zone = self.asked.held();
        loop {
            let next = self.start_pass(near, zone);
            if next == zone {
                return zone;
            }
            zone = next;
        }
    }
}
