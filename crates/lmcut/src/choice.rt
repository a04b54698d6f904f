// The need of each action that its edges run from.
ghost use Rattle.std.specs.Prelude.{◌≡◌, ℕ, ◌<◌, Some, None, slice_index_or};
ghost use Rattle.lmcut.specs.Drawn.{values_of, Placed};
ghost use Rattle.lmcut.specs.Preferred.{first_largest, below};
ghost use Rattle.lmcut.specs.Questions.{action_at};
ghost use Rattle.landmarks.specs.Rounds.{chosen};

use crate::bits::*;
use crate::question::Asked;

// The node of larger value: the best so far, unless a later node's is larger.
fn preferred(values: &[u64; 129], best: Option<u8>, node: usize) -> Option<u8>
    requires { (node < 129) × (below best node) }
    ensures { result ≡ first_largest values.now best node }
{
    match best {
        Some(earlier) if values[earlier as usize] >= values[node] => best,
        _ => Some(node as u8),
    }
}

impl Asked<'_> {
    // The need of largest value, the smallest node on a tie; none for an action without needs.
    fn chosen(self, values: &[u64; 129], action: usize) -> Option<u8>
        requires { action < self.question.now.actions }
        ensures { result ≡ chosen (values_of self.entry.question.now.nodes values.now) (action_at self.entry.question.now action).needs }
    {
        let mut best = None;
        for node in Bits::new(self.question.needs[action]) {
            best = preferred(values, best, node);
        }
        best
    }

    // The chosen needs of all actions.
    pub(crate) fn sources(self, values: &[u64; 129]) -> [Option<u8>; 257]
        ensures chosen { (a : ℕ) → a < self.entry.question.now.actions → slice_index_or result a None ≡ chosen (values_of self.entry.question.now.nodes values.now) (action_at self.entry.question.now a).needs }
        ensures placed { Placed self.entry.question.now result }
    {
        let mut sources = [None; 257];
        for (action, source) in sources[..self.question.actions].iter_mut().enumerate() {
            *source = self.chosen(values, action);
        }
        sources
    }
}
