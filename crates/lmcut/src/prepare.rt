// Prepares a question from a task and a state of it: all that the rounds look at, read off the tables once.
ghost use Rattle.std.specs.Prelude.{◌≡◌, true};
ghost use Rattle.task.specs.States.{is_state};
ghost use Rattle.task.specs.Tasks.{problem};
ghost use Rattle.landmarks.specs.Relaxed.{relaxed};
ghost use Rattle.landmarks.specs.Rounds.{outcome};
ghost use Rattle.lmcut.specs.Prepared.{Blank, Prepared};
ghost use Rattle.lmcut.specs.Questions.{relaxed_of, Fits};

use crate::marks::mark_all;
use crate::needs::needs_word;
use crate::question::Question;
use crate::standing::Position;
use task::accepted::Task;
use task::state::State;

// A question with nothing in it.
pub(crate) const BLANK: Question = Question {
    facts: 0,
    nodes: 0,
    actions: 0,
    holds: [false; 129],
    costs: [0; 257],
    needs: [0; 257],
    reach: [0; 257],
    needing: [[0; 3]; 128],
    reaching: [[0; 3]; 128],
    shorts: [0; 64],
    gains: [[0; 64]; 256],
};

// What each move costs, needs and reaches, and after the moves the helper, which costs nothing and needs what the goal needs.
#[tactic(auto, using(crate::proofs::Lent::few_moves))]
fn draw(position: &Position, question: &mut Question)
    requires { Blank question.old }
    ensures { Prepared (problem position.now.task.now) position.now.state.now question.new }
{
    let task = position.task;
    let tables = task.tables();
    let facts = tables.head.facts as usize;
    let moves = tables.moves.len();
    let met = position.standing();
    // By index: it is a move's place in four arrays, of which a `zip` would make a tuple of tuples.
    for (index, action) in tables.moves.iter().enumerate() {
        question.costs[index] = action.cost.unsigned_abs();
        question.needs[index] = needs_word(task, action.needs);
        question.reach[index] = position.reached(&met, action, &mut question.gains[index]);
    }
    question.needs[moves] = needs_word(task, tables.head.goal);
    mark_all(&question.needs, &mut question.needing);
    mark_all(&question.reach, &mut question.reaching);
    *question = Question {
        facts,
        nodes: facts + tables.conditions.len() + 1,
        actions: moves + 1,
        holds: met.holds,
        shorts: met.shorts,
        ..*question
    };
}

// Fills a blank question with that of a state of a task: its limits are kept, and its rounds are those of the task and the state.
pub(crate) fn prepare(task: &Task, state: &State, question: &mut Question)
    requires state { is_state (problem task.now) state.now ≡ true }
    requires blank { Blank question.old }
    ensures fits { Fits question.new }
    ensures rounds { outcome (relaxed_of question.new) ≡ outcome (relaxed (problem task.now) state.now) }
{
    draw(&Position { task, state }, question);
}
