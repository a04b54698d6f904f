// The rounds on a prepared question.
ghost use Rattle.std.specs.Prelude.{◌≡◌, ℕ, List, take};
ghost use Rattle.lmcut.specs.Questions.{relaxed_of};
ghost use Rattle.landmarks.specs.Rounds.{full_costs, Found, outcome};
ghost use Rattle.lmcut.specs.Totalled.{tally_of, laid};

use crate::left::Left;
use crate::node::INFINITE;
use crate::question::Asked;
use landmarks::Ground;

// Weights and charges count the parts of a cost of 1.
pub(crate) const PARTS: u64 = 5040;

// No estimate tells more.
pub(crate) const MOST_TOLD: u64 = 1_000_000_000_000;

// No more rounds once the total is this.
const MOST: u64 = PARTS * MOST_TOLD;

// What the rounds add up to: their total weight, and how many landmark records there are.
#[derive(Clone, Copy)]
pub(crate) struct Tally {
    pub(crate) total: u64,
    pub(crate) records: usize,
}

impl Asked<'_> {
    // What is left of the costs before the first round.
    fn full_costs(self) -> Left
        ensures { take self.entry.question.now.actions result.of ≡ full_costs (relaxed_of self.entry.question.now).actions }
    {
        // A loop and not `map` of the array, which copies it several times.
        let mut of = [0; 257];
        for (action, left) in of.iter_mut().enumerate() {
            *left = PARTS * u64::from(self.question.costs[action]);
        }
        Left { of }
    }

    // Makes the rounds and writes their landmark records, as far as there is room; all of them are counted. None where the goal's
    // value is infinite.
    pub(crate) fn run(self, records: &mut [Ground]) -> Option<Tally>
        ensures tallied { result ≡ tally_of (outcome (relaxed_of self.entry.question.now)) }
        ensures written { (t : ℕ) (gs : List Ground) → outcome (relaxed_of self.entry.question.now) ≡ Found t gs → records.new ≡ laid gs records.old }
    {
        let mut left = self.full_costs();
        let mut tally = Tally {
            total: 0,
            records: 0,
        };
        let mut round = 1u32;
        'rounds: loop {
            let values = self.values(&left);
            let goal = values[self.question.nodes - 1];
            if goal == INFINITE {
                break 'rounds None;
            }
            if goal == 0 || tally.total >= MOST {
                break 'rounds Some(tally);
            }
            let before = left;
            let weight = self.pay(&values, &mut left);
            // A record for each action that was charged.
            'charged: for (action, (had, has)) in before.of[..self.question.actions]
                .iter()
                .zip(&left.of)
                .enumerate()
            {
                let charge = had - has;
                if charge == 0 {
                    continue 'charged;
                }
                if tally.records < records.len() {
                    records[tally.records] = Ground {
                        round,
                        weight,
                        number: action as u32 + 1,
                        charge,
                    };
                }
                tally.records += 1;
            }
            tally.total += weight;
            round += 1;
        }
    }
}
