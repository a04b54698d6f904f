// The landmark of a round, once its values are known.
ghost use Rattle.std.specs.Prelude.{◌≡◌, take};
ghost use Rattle.lmcut.specs.Drawn.{cut_of};
ghost use Rattle.lmcut.specs.Questions.{relaxed_of};
ghost use Rattle.landmarks.specs.Rounds.{loaded, cut_weight, left_after};

use crate::charges::Cut;
use crate::graph::Graph;
use crate::left::Left;
use crate::question::Asked;

impl Asked<'_> {
    // Charges the cut of a round to its actions, and returns its weight.
    pub(crate) fn pay(self, values: &[u64; 129], left: &mut Left) -> u64
        ensures weighs { result ≡ cut_weight (cut_of self.entry.question.now values.now left.old.of) }
        ensures charged { take self.entry.question.now.actions left.new.of ≡ left_after result (cut_of self.entry.question.now values.now left.old.of) }
        ensures loads { loaded (relaxed_of self.entry.question.now).actions left.new.of ≡ loaded (relaxed_of self.entry.question.now).actions (left_after result (cut_of self.entry.question.now values.now left.old.of)) }
    {
        let sources = self.sources(values);
        let graph = Graph {
            asked: self,
            left,
            sources: &sources,
        };
        let near = graph.goal_zone();
        let start = graph.start_zone(near);
        let cut = Cut { graph, near, start };
        let weight = cut.weight();
        *left = cut.left_after(weight);
        weight
    }
}
