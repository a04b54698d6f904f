// A question prepared for the rounds: which nodes hold, what each action needs and reaches, and which actions need and reach a
// node. Nodes are the facts, then the conditions, then the goal node; actions are the moves, then the helper that reaches the goal
// node.
ghost use Rattle.std.specs.Prelude.{◌≡◌, ℕ, ◌<◌, ◌≤◌, true, Some, slice_index};
ghost use Rattle.task.specs.States.{fact_holds};
ghost use Rattle.lmcut.specs.Questions.{edge_at, Fits};

// 64 facts, 64 conditions and the goal node. Arrays have their greatest length, with counts beside them: nothing is allocated.
pub const MOST_NODES: usize = 129;

// 256 moves and the helper.
pub const MOST_ACTIONS: usize = 257;

#[derive(Clone, Copy)]
pub struct Question {
    pub(crate) facts: usize,
    pub(crate) nodes: usize,
    pub(crate) actions: usize,
    pub(crate) holds: [bool; MOST_NODES],
    // An array for each, not one of structs: the passes over all actions read needs or reaches alone, and marking takes a whole one.
    pub(crate) costs: [u32; MOST_ACTIONS],
    pub(crate) needs: [u128; MOST_ACTIONS],
    pub(crate) reach: [u128; MOST_ACTIONS],
    pub(crate) needing: [[u128; 3]; 128],
    pub(crate) reaching: [[u128; 3]; 128],
    // Numbers, not options: a condition that holds has no shortfall, and an action has a gain exactly where it reaches the condition.
    pub(crate) shorts: [u32; 64],
    pub(crate) gains: [[u32; 64]; 256],
}

// An edge's shortfall and gain.
#[derive(Clone, Copy)]
pub struct Edge {
    pub(crate) short: u64,
    pub(crate) gain: u64,
}

// A question that keeps the limits which the rounds rest on. What is asked of an action's number, as that there is one, stands in
// the clauses: a type for it would be made anew for each action of each loop.
#[derive(Clone, Copy)]
pub(crate) struct Asked<'q> {
    pub(crate) question: &'q Question,
    ghost fits: { Fits question.now },
}

impl Asked<'_> {
    // The edge by which an action reaches a node of its word.
    pub(crate) fn inner(self, action: usize, node: usize) -> Edge
        requires { (action < self.question.now.actions) × (fact_holds (slice_index self.question.now.reach action) node ≡ true) }
        ensures { edge_at self.entry.question.now action node ≡ Some result }
    {
        let question = self.question;
        if node < question.facts {
            return Edge { short: 1, gain: 1 };
        }
        let condition = node - question.facts;
        Edge {
            short: u64::from(question.shorts[condition]),
            gain: u64::from(question.gains[action][condition]),
        }
    }
}
