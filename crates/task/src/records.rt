// The records of a table by their numbers, which count from 1.
ghost use Rattle.std.specs.Prelude.{◌≡◌, ◌-◌, ◌<◌, ◌≤◌, ◌⊎◌, length, MatchOption, slice_index_or};

// The record with a number, where the table has it.
pub(crate) fn numbered<T: Copy>(records: &[T], number: u32) -> Option<T>
    ensures { MatchOption result
        ((number ≡ 0) ⊎ (length records.now < number))
        (λ x. (1 ≤ number) × (number ≤ length records.now) × ((d : T) → x ≡ slice_index_or records.now (number - 1) d)) }
{
    let index = number.checked_sub(1)?;
    records.get(index as usize).copied()
}
