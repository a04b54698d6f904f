// What the library answers to a block.
ghost use Rattle.std.specs.Prelude.{◌≡◌, ◌++◌, map, IfOk, OnOk};
ghost use Rattle.tables.specs.Check.{told, first_fault};
ghost use Rattle.tables.specs.Problem.{contents};
ghost use Rattle.task.specs.Tasks.{problem};
ghost use Rattle.script.specs.Answers.{waiting, served, after_check, block_answers};
ghost use Rattle.script.specs.Said.{seen};
ghost use Rattle.script.specs.Filled.{filled, asks};

use crate::answer::*;
use crate::block::*;
use crate::directive::*;
use crate::{grounds, plans};
use estimate::estimator::Estimator;
use std::alloc::{AllocError, Global};
use tables::Tables;
use task::accepted::Task;

// The answers to all that a block asks, in order.
pub fn answers(heap: Global, block: &Block) -> Result<Vec<Answer>, AllocError>
    ensures { IfOk result (λ v. map seen v.items ≡ block_answers (filled block.now) (asks block.now)) }
{
    let mut said = Vec::new(heap);
    let mut rest = block.asked();
    while let Some((directive, after)) = rest.split_first() {
        if let Directive::Accept = directive {
            accept(heap, block.tables(), rest, &mut said)?;
            return Ok(said);
        }
        said.push(before_accept(directive))?;
        rest = after;
    }
    Ok(said)
}

// The answer to a directive that comes before any `accept`.
fn before_accept(directive: &Directive) -> Answer
    ensures { seen result ≡ waiting directive.now }
{
    match directive {
        Directive::Malformed(line) => Answer::BadLine(*line),
        _ => Answer::NothingAccepted,
    }
}

// Adds the answers from the first `accept` on. Where the tables are refused, it alone is answered.
fn accept(
    heap: Global,
    tables: Tables,
    rest: &[Directive],
    said: &mut Vec<Answer>,
) -> Result<(), AllocError>
    ensures { OnOk result (map seen said.new.items ≡ map seen said.old.items ++ after_check (contents tables.entry) rest.now (told (first_fault (contents tables.entry)))) }
{
    match tables.check() {
        Err(fault) => {
            said.push(Answer::RefusedTask(fault))?;
            Ok(())
        }
        Ok(()) => serve_all(heap, &Task::new(tables), rest, said),
    }
}

// Adds the answers on an accepted task.
fn serve_all(
    heap: Global,
    task: &Task,
    rest: &[Directive],
    said: &mut Vec<Answer>,
) -> Result<(), AllocError>
    ensures { OnOk result (map seen said.new.items ≡ map seen said.old.items ++ map (served (problem task.now)) rest.now) }
{
    for directive in rest {
        said.push(serve(heap, task, directive)?)?;
    }
    Ok(())
}

// The answer to a directive on an accepted task.
fn serve(heap: Global, task: &Task, directive: &Directive) -> Result<Answer, AllocError>
    ensures { IfOk result (λ a. seen a ≡ served (problem task.now) directive.now) }
{
    match directive {
        Directive::Accept => Ok(Answer::Accepted),
        Directive::Check(list) => Ok(plans::check(task, list.as_slice())),
        Directive::Est(asked, state) => Ok(asked.ask(task, state).into()),
        Directive::Grounds(room, state) => grounds::records(heap, task, *room, state),
        Directive::Later => Ok(Answer::NotServed),
        Directive::Malformed(line) => Ok(Answer::BadLine(*line)),
    }
}
