// Check and making of an accepted task in one.
ghost use Rattle.task.specs.Tasks.{Accepts};

use crate::accepted::Task;
use tables::Tables;
use tables::fault::TaskFault;

// The accepted task of the tables, or the first fault that the check meets.
impl<'a> TryFrom<Tables<'a>> for Task<'a> {
    type Error = TaskFault;

    ghost try_from_gives = { Accepts };

    fn try_from(tables: Tables<'a>) -> Result<Self, TaskFault> {
        tables.check()?;
        Ok(Task::new(tables))
    }
}
