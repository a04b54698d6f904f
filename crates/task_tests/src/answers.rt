// Answers with a refusal told by the numbers that the rules state for it, and not by the case of an enum.
use tables::*;
use task::accepted::Task;

// The check's answer; a refusal by its number, table, record and link.
pub(crate) fn told(tables: &Tables) -> Result<(), [u32; 4]> {
    tables.check().map_err(|fault| {
        let place = fault.place();
        [fault.number(), place.table, place.record, place.link]
    })
}

// The plan check's answer, the cost; a refusal by its number and position.
pub(crate) fn judged(task: &Task, list: &[u32]) -> Result<u64, [u32; 2]> {
    task.check_plan(list)
        .map_err(|fault| [fault.number(), fault.position()])
}
