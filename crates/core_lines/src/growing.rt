ghost use Rattle.std.specs.Prelude.{◌≡◌, ℕ, ◌≤◌, false, length, slice_index, slice_index_or, OnOk};

use std::alloc::AllocError;
use wide_num::List;

/// Makes a list of flags at least this long, by flags that are false.
pub fn grow_flags(flags: &mut List<bool>, count: usize) -> Result<(), AllocError>
    ensures same { (k : ℕ) → slice_index_or flags.new k false ≡ slice_index_or flags.old k false }
    ensures long { OnOk result (count ≤ length flags.new) }
{
    while flags.len() < count {
        flags.push(false)?;
    }
    Ok(())
}

/// Makes a list of marks at least this long, by marks of 0.
pub fn grow_marks(marks: &mut List<u32>, count: usize) -> Result<(), AllocError>
    ensures same { (k : ℕ) → slice_index marks.new k ≡ slice_index marks.old k }
    ensures long { OnOk result (count ≤ length marks.new) }
{
    while marks.len() < count {
        marks.push(0)?;
    }
    Ok(())
}
