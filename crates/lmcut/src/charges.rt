// The cut of a round: its weight, what each action is charged, and what is left of the costs.
ghost use Rattle.std.specs.Prelude.{◌≡◌, ◌<◌, ◌≤◌, true, false, take, None, slice_index, slice_index_or};
ghost use Rattle.lmcut.specs.Drawn.{edges_in, paid, zone_of, Light};
ghost use Rattle.lmcut.specs.Questions.{reaches_from};
ghost use Rattle.landmarks.specs.Rounds.{starts, into, crossings, lightest, cut_weight, charge, left_after};

use crate::entering::Entering;
use crate::graph::*;
use crate::left::Left;

// The edges of a graph that run from the start zone into the goal zone.
#[derive(Clone, Copy)]
pub(crate) struct Cut<'r> {
    pub(crate) graph: Graph<'r>,
    pub(crate) near: u128,
    pub(crate) start: u128,
}

impl Cut<'_> {
    // The smallest weight of an action's edges into the goal zone, if there are any.
    fn lightest(&self, action: usize) -> Option<u64>
        requires { action < self.now.graph.asked.question.now.actions }
        ensures { result ≡ lightest (slice_index self.now.graph.left.now.of action) (into (zone_of self.now.graph.asked.question.now true self.now.near) (reaches_from self.now.graph.asked.question.now action 0 self.now.graph.asked.question.now.nodes)) }
    {
        let left = self.graph.left.of[action];
        Entering::new(self.graph.asked, action, self.near)
            .map(|edge| edge.short * left / edge.gain)
            .min()
    }

    // The smallest weight of its edges, 0 if there are none.
    pub(crate) fn weight(&self) -> u64
        ensures { result ≡ cut_weight (crossings (edges_in self.now.graph.asked.question.now self.now.graph.left.now.of self.now.graph.sources.now) (zone_of self.now.graph.asked.question.now true self.now.near) (zone_of self.now.graph.asked.question.now false self.now.start)) }
    {
        // By `fold`, which asks for the next weight at one place. `min` does so at two, and the chain is then called there.
        (0..self.graph.asked.question.actions)
            .filter(|&action| starts(self.graph.sources[action], self.start))
            .filter_map(|action| self.lightest(action))
            .fold(None, |least: Option<u64>, weight| {
                Some(least.unwrap_or(weight).min(weight))
            })
            .unwrap_or(0)
    }

    // The largest charge of an action's edges into the goal zone, none of which weighs less than the cut.
    fn charge(&self, weight: u64, action: usize) -> u64
        requires inside { action < self.now.graph.asked.question.now.actions }
        requires light { Light self.now.graph.asked.question.now (slice_index self.now.graph.left.now.of action) (zone_of self.now.graph.asked.question.now true self.now.near) weight action }
        ensures exact { result ≡ charge weight (into (zone_of self.now.graph.asked.question.now true self.now.near) (reaches_from self.now.graph.asked.question.now action 0 self.now.graph.asked.question.now.nodes)) }
        ensures within { result ≤ slice_index self.now.graph.left.now.of action }
    {
        Entering::new(self.graph.asked, action, self.near)
            .map(|edge| (weight * edge.gain).div_ceil(edge.short))
            .max()
            .unwrap_or(0)
    }

    // What an action is charged: nothing if its edges do not run from the start zone.
    fn charge_of(&self, weight: u64, action: usize) -> u64
        requires inside { action < self.now.graph.asked.question.now.actions }
        requires light { starts (zone_of self.now.graph.asked.question.now false self.now.start) (slice_index_or self.now.graph.sources.now action None) ≡ true → Light self.now.graph.asked.question.now (slice_index self.now.graph.left.now.of action) (zone_of self.now.graph.asked.question.now true self.now.near) weight action }
        ensures exact { result ≡ paid self.now.graph.asked.question.now self.now.graph.sources.now (zone_of self.now.graph.asked.question.now true self.now.near) (zone_of self.now.graph.asked.question.now false self.now.start) weight action }
        ensures within { result ≤ slice_index self.now.graph.left.now.of action }
    {
        if starts(self.graph.sources[action], self.start) {
            self.charge(weight, action)
        } else {
            0
        }
    }

    // What is left of each action's cost once it is charged, where the cut weighs what is told.
    pub(crate) fn left_after(&self, weight: u64) -> Left
        requires { weight ≡ cut_weight (crossings (edges_in self.now.graph.asked.question.now self.now.graph.left.now.of self.now.graph.sources.now) (zone_of self.now.graph.asked.question.now true self.now.near) (zone_of self.now.graph.asked.question.now false self.now.start)) }
        ensures { take self.now.graph.asked.question.now.actions result.of ≡ left_after weight (crossings (edges_in self.now.graph.asked.question.now self.now.graph.left.now.of self.now.graph.sources.now) (zone_of self.now.graph.asked.question.now true self.now.near) (zone_of self.now.graph.asked.question.now false self.now.start)) }
    {
        let mut left = self.graph.left.of;
        for (action, left) in left[..self.graph.asked.question.actions]
            .iter_mut()
            .enumerate()
        {
            *left -= self.charge_of(weight, action);
        }
        Left { of: left }
    }
}
