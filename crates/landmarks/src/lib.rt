// LM-cut by rounds: its definition, and the laws that make it a lower bound on the cost of every plan from a state of a simple
// numeric planning task.
#![tactic(auto)]

ghost use Rattle.landmarks.specs.Laws.{EstimateSound, GroundsStand, GroundsExplain, SizesStand, CountsStand, RelaxedFits, ValuesSettle, ValuesOnly, CutStands, RoundsEnd, GoalZoneOnly, StartZoneOnly};
ghost use Rattle.landmarks.specs.Worked.{Worked};

// A landmark record: in the round with this number, the cut weighed this much, and the move with this number was charged this much.
#[derive(Clone, Copy, PartialEq, Eq, Debug)]
pub struct Ground {
    pub round: u32,
    pub weight: u64,
    pub number: u32,
    pub charge: u64,
}

// The laws of the estimator: what it answers is sound, its landmark records stand, come in order and explain the answer, and its
// numbers fit 64 bits.
pub fn laws_stand() -> u8
    ensures sound { EstimateSound }
    ensures landmarks { GroundsStand }
    ensures explained { GroundsExplain }
    ensures sizes { SizesStand }
    ensures counts { CountsStand }
{
    0
}

// The laws of a round, over every well formed relaxed task, as the one of a question is: the values settle and no other
// valuation is justified, the zones are the only closed ones within them, the cut stands, and the rounds end.
pub fn rounds_stand() -> u8
    ensures fits { RelaxedFits }
    ensures settled { ValuesSettle }
    ensures only { ValuesOnly }
    ensures near_goal { GoalZoneOnly }
    ensures near_start { StartZoneOnly }
    ensures cuts { CutStands }
    ensures ends { RoundsEnd }
{
    0
}

// The worked examples hold of the definitions.
pub fn examples_stand() -> u8
    ensures { Worked }
{
    0
}
