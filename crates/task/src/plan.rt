// The plan check: tells the cost of a list of moves that is a plan, or the first fault.
ghost use Rattle.std.specs.Prelude.{◌≡◌, ◌≤◌, length, is_ok, Decides, IfSome, if◌then◌else◌, Some, None};
ghost use Rattle.task.specs.Plans.{plan_number, plan_position, fault_text, plan_answer, judged, cost_of, is_move, Plan, Judges};
ghost use Rattle.task.specs.States.{start_state};
ghost use Rattle.task.specs.Tasks.{problem};

use crate::accepted::Task;
use crate::records::numbered;
use crate::state::State;
use std::error::Error;
use std::fmt;

pub const MOST_LISTED: usize = 65536;

// Why a list of moves is no plan. Positions count from 1; `GoalMissed` stands at the list's length.
#[derive(Clone, Copy, PartialEq, Eq, Debug)]
pub enum PlanFault {
    TooLong,
    NoSuchMove(u32),
    NotAllowed(u32),
    GoalMissed(u32),
}

impl PlanFault {
    // The number of the broken rule, 9 to 11.
    pub fn number(self) -> u32
        ensures { result ≡ plan_number self }
    {
        match self {
            PlanFault::TooLong | PlanFault::NoSuchMove(_) => 9,
            PlanFault::NotAllowed(_) => 10,
            PlanFault::GoalMissed(_) => 11,
        }
    }

    // The position in the list, 0 for a list that is too long.
    pub fn position(self) -> u32
        ensures { result ≡ plan_position self }
    {
        match self {
            PlanFault::TooLong => 0,
            PlanFault::NoSuchMove(k) | PlanFault::NotAllowed(k) | PlanFault::GoalMissed(k) => k,
        }
    }
}

impl fmt::Display for PlanFault {
    ghost output = { λ fault. Some (fault_text fault) };

    fn fmt<W: fmt::Write>(&self, f: &mut fmt::Formatter<W>) -> fmt::Result {
        write!(f, "rule {} at position {}", self.number(), self.position())
    }
}

impl Error for PlanFault {}

impl Task<'_> {
    // The cost of the list where it is a plan of the task; else the first fault.
    pub fn check_plan(&self, list: &[u32]) -> Result<u64, PlanFault>
        ensures answer { result ≡ plan_answer (problem self.now) list.now }
        ensures judges { Judges (problem self.now) list.now result }
        ensures exact { Decides (is_ok result) ((length list.now ≤ 65536) × Plan (problem self.now) list.now) }
    {
        if list.len() > MOST_LISTED {
            return Err(PlanFault::TooLong);
        }
        self.judge(list)
    }

    // The answer for a list that is not too long.
    fn judge(&self, list: &[u32]) -> Result<u64, PlanFault>
        requires { length list.now ≤ 65536 }
        ensures { result ≡ judged (problem self.now) 1 (start_state (problem self.now)) 0 list.now }
    {
        let mut state = self.start_state();
        let mut spent = 0u64;
        for (position, number) in (1..).zip(list) {
            spent += self.cost(*number).ok_or(PlanFault::NoSuchMove(position))?;
            state = self
                .result(&state, *number)
                .ok_or(PlanFault::NotAllowed(position))?;
        }
        if self.goal_holds(&state) {
            Ok(spent)
        } else {
            Err(PlanFault::GoalMissed(list.len() as u32))
        }
    }

    // The cost of the move with a number, where it is in the table.
    fn cost(&self, number: u32) -> Option<u64>
        ensures is { result ≡ (if is_move (problem self.now) number then Some (cost_of (problem self.now) number) else None) }
        ensures small { IfSome result (λ n. n ≤ 10000) }
    {
        let action = numbered(self.tables.moves, number)?;
        Some(u64::from(action.cost.unsigned_abs()))
    }
}
