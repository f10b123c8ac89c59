ghost use Rattle.std.specs.Prelude.{◌≡◌, Some};
ghost use Rattle.smps_words.specs.Tables.{◌or◌};
ghost use Rattle.core_lines.specs.SideLines.{is_used};
ghost use Rattle.core_lines.specs.States.{Keeps};

use crate::kinds::Stop;
use std::alloc::Global;
use wide_num::{List, Text, same};

/// Whether a line with this set name is of the used set.
pub fn is_used(set: &Option<Text>, name: &[u8]) -> bool
    ensures { result ≡ is_used set.now name.now }
{
    match set {
        Some(set) => same(name, set.as_slice()),
        None => true,
    }
}

/// Makes the set of this name the used one, where it is the first.
pub fn use_set(alloc: Global, set: &mut Option<Text>, name: &[u8]) -> Result<(), Stop>
    ensures { Keeps result (set.new ≡ (set.old or Some name.now)) }
{
    if set.is_some() {
        return Ok(());
    }
    match List::from_slice(alloc, name) {
        Ok(name) => {
            *set = Some(name);
            Ok(())
        }
        Err(_) => Err(Stop::Memory),
    }
}
