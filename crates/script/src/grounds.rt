// The records behind LM-cut's answers: the directive `grounds` asks for them in a buffer with a number of places.
ghost use Rattle.std.specs.Prelude.{◌≡◌, IfOk};
ghost use Rattle.landmarks.specs.Rounds.{grounds};
ghost use Rattle.lmcut.specs.Recorded.{recorded};
ghost use Rattle.task.specs.Tasks.{problem};
ghost use Rattle.script.specs.Answers.{told_grounds};
ghost use Rattle.script.specs.Said.{seen};

use crate::answer::*;
use landmarks::Ground;
use lmcut::estimator::LmCut;
use std::alloc::{AllocError, Global};
use task::accepted::Task;
use task::state::State;

// No answer has more landmark records, so a longer buffer is answered as one with this many places.
const MOST_RECORDS: u64 = 8_421_890;

// What a place of the buffer holds before.
const BLANK: Ground = Ground {
    round: 0,
    weight: 0,
    number: 0,
    charge: 0,
};

pub fn records(heap: Global, task: &Task, room: u64, state: &State) -> Result<Answer, AllocError>
    ensures { IfOk result (λ a. seen a ≡ told_grounds (grounds (problem task.now) state.now) (recorded (problem task.now) state.now room)) }
{
    let mut buffer = Vec::new(heap);
    buffer.resize(room.min(MOST_RECORDS) as usize, BLANK)?;
    match LmCut.grounds(task, state, buffer.as_mut_slice()) {
        Ok(count) => {
            buffer.truncate(count);
            Ok(Answer::Grounds(buffer))
        }
        Err(fault) => Ok(Answer::RefusedSearch(fault)),
    }
}
