// What a directive is answered: one line of the output.
ghost use Rattle.std.specs.Prelude.{◌≡◌, Some};
ghost use Rattle.std.specs.Fmt.{WritesOnOk};
ghost use Rattle.script.specs.Said.{seen};
ghost use Rattle.script.specs.Told.{told_estimate};
ghost use Rattle.script.specs.Texts.{text, task_fault_text, plan_fault_text, search_fault_text, ground_text, grounds_text};

use estimate::estimate::Estimate;
use landmarks::Ground;
use lmcut::estimator::GroundsFault;
use std::fmt;
use tables::fault::TaskFault;
use task::plan::PlanFault;

// A case for each line that the format has. `NothingAccepted` answers a directive that needs an accepted task and has none, `NotServed` one that is known and not served
// yet, and `BadLine` a malformed line, by its number.
#[derive(Drop)]
pub enum Answer {
    Accepted,
    RefusedTask(TaskFault),
    Cost(u64),
    RefusedPlan(PlanFault),
    AtLeast(u64),
    Dead,
    Grounds(Vec<Ground>),
    RefusedSearch(GroundsFault),
    NothingAccepted,
    NotServed,
    BadLine(u64),
}

// The answer to a question to an estimator.
impl From<Estimate> for Answer {
    ghost from_gives = { λ estimate answer. seen answer ≡ told_estimate estimate };

    fn from(estimate: Estimate) -> Answer {
        match estimate {
            Estimate::AtLeast(n) => Answer::AtLeast(n),
            Estimate::Dead => Answer::Dead,
        }
    }
}

// The text format has words of its own for refusals, other than those of the faults' `Display`.
impl fmt::Display for Answer {
    ghost output = { λ a. Some (text a) };

    fn fmt<W: fmt::Write>(&self, f: &mut fmt::Formatter<W>) -> fmt::Result {
        match self {
            Answer::Accepted => f.write_str("accepted"),
            Answer::RefusedTask(fault) => {
                let place = fault.place();
                write!(
                    f,
                    "refused task {} {} {} {}",
                    fault.number(),
                    place.table,
                    place.record,
                    place.link
                )
            }
            Answer::Cost(cost) => write!(f, "cost {cost}"),
            Answer::RefusedPlan(fault) => {
                write!(f, "refused plan {} {}", fault.number(), fault.position())
            }
            Answer::AtLeast(n) => write!(f, "atleast {n}"),
            Answer::Dead => f.write_str("dead"),
            Answer::Grounds(records) => show_grounds(records.as_slice(), f),
            Answer::RefusedSearch(fault) => write!(f, "refused search {}", fault.number()),
            Answer::NothingAccepted => f.write_str("nothing accepted"),
            Answer::NotServed => f.write_str("later"),
            Answer::BadLine(line) => write!(f, "malformed {line}"),
        }
    }
}

// How many landmark records there are, then each of them. A function and no `Display` of a type of its own: one place writes it.
fn show_grounds<W: fmt::Write>(records: &[Ground], f: &mut fmt::Formatter<W>) -> fmt::Result
    ensures { WritesOnOk W.Write.write_str_gives f.old result (grounds_text records.now) f.new }
{
    write!(f, "grounds {}", records.len())?;
    for ground in records {
        let Ground {
            round,
            weight,
            number,
            charge,
        } = ground;
        write!(f, " ({round},{weight},{number},{charge})")?;
    }
    Ok(())
}
