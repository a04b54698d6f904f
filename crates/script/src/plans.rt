// The plan layer: the directive `check` asks for the check of a list of moves.
ghost use Rattle.std.specs.Prelude.{◌≡◌};
ghost use Rattle.task.specs.Plans.{plan_answer};
ghost use Rattle.task.specs.Tasks.{problem};
ghost use Rattle.script.specs.Answers.{told_plan};
ghost use Rattle.script.specs.Said.{seen};

use crate::answer::*;
use task::accepted::Task;

pub fn check(task: &Task, list: &[u32]) -> Answer
    ensures { seen result ≡ told_plan (plan_answer (problem task.now) list.now) }
{
    task.check_plan(list)
        .map_or_else(Answer::RefusedPlan, Answer::Cost)
}
