// LM-cut as an estimator, and the landmark records behind its answers.
ghost use Rattle.std.specs.Prelude.{◌≡◌, true, length, Some};
ghost use Rattle.task.specs.States.{is_state};
ghost use Rattle.task.specs.Tasks.{problem};
ghost use Rattle.landmarks.specs.Laws.{Landmarked, Explained};
ghost use Rattle.landmarks.specs.Rounds.{estimate, grounds};
ghost use Rattle.lmcut.specs.Recorded.{fault_number, fault_place, fault_text, recorded, record_buffer};
ghost use Rattle.landmarks.proofs.Soundness.{estimate_claims};
ghost use Rattle.lmcut.specs.Answering.{none_estimate};

use crate::prepare::*;
use crate::question::Asked;
use crate::rounds::*;
use estimate::estimate::Estimate;
use estimate::estimator::Estimator;
use landmarks::Ground;
use std::error::Error;
use std::fmt;
use task::accepted::Task;
use task::state::State;

// Answers by the rounds of LM-cut.
#[derive(Clone, Copy)]
pub struct LmCut;

// Why landmark records are refused: the error of a `Result`, which has one case.
#[derive(Clone, Copy, PartialEq, Eq, Debug)]
pub enum GroundsFault {
    TooShort,
}

impl GroundsFault {
    // The number of the broken rule.
    pub fn number(self) -> u32
        ensures { result ≡ fault_number self }
    {
        match self {
            GroundsFault::TooShort => 8,
        }
    }

    // The place of the fault: it has none.
    pub fn place(self) -> u32
        ensures { result ≡ fault_place self }
    {
        match self {
            GroundsFault::TooShort => 0,
        }
    }
}

impl fmt::Display for GroundsFault {
    ghost output = { λ fault. Some (fault_text fault) };

    fn fmt<W: fmt::Write>(&self, f: &mut fmt::Formatter<W>) -> fmt::Result {
        write!(f, "rule {}", self.number())
    }
}

impl Error for GroundsFault {}

// The answer at a state. By itself: with the test of `ask` before it, the compiler clears the question twice in a caller that it
// builds `ask` into.
fn estimated(task: &Task, state: &State) -> Estimate
    requires { is_state (problem task.now) state.now ≡ true }
    ensures { result ≡ estimate (problem task.now) state.now }
{
    let mut question = BLANK;
    prepare(task, state, &mut question);
    let asked = Asked {
        question: &question,
    };
    match asked.run(&mut []) {
        None => Estimate::Dead,
        Some(tally) => Estimate::AtLeast(tally.total.div_ceil(PARTS).min(MOST_TOLD)),
    }
}

impl Estimator for LmCut {
    ghost answer = { λ _. estimate };

    ghost sound = { λ e p s a i. estimate_claims p a s };

    ghost plain = { λ e p s i. none_estimate p s i };

    fn ask(&self, task: &Task, state: &State) -> Estimate {
        if !task.is_state(state) {
            return Estimate::AtLeast(0);
        }
        estimated(task, state)
    }
}

impl LmCut {
    // Writes the landmark records of the answer at a record of a task to the front of a buffer, and tells how many there are.
    pub fn grounds(
        &self,
        task: &Task,
        state: &State,
        buffer: &mut [Ground],
    ) -> Result<usize, GroundsFault>
        ensures told { result ≡ recorded (problem task.now) state.now (length buffer.old) }
        ensures written { buffer.new ≡ record_buffer (problem task.now) state.now buffer.old }
        ensures landmarks { Landmarked (problem task.now) state.now (grounds (problem task.now) state.now) }
        ensures explained { Explained (problem task.now) state.now }
    {
        if !task.is_state(state) {
            return Ok(0);
        }
        // One question for both runs.
        let mut question = BLANK;
        prepare(task, state, &mut question);
        let asked = Asked {
            question: &question,
        };
        let Some(tally) = asked.run(&mut []) else {
            return Ok(0);
        };
        if tally.records > buffer.len() {
            return Err(GroundsFault::TooShort);
        }
        let _ = asked.run(buffer);
        Ok(tally.records)
    }
}
