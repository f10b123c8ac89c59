ghost use Rattle.smps_words.specs.Memory.{MayRefuse};
ghost use Rattle.core_lines.specs.Meaning.{meaning};
ghost use Rattle.smps_core.specs.CoreMeaning.{Reads};

use crate::joining::core_of;
use core_lines::{CoreFault, read_state};
use smps_words::Core;
use std::alloc::Global;

/// The data of a core file. `At` comes exactly where the file has a fault, and
/// names the first one: its line, counted from 1, and its kind. `Memory` comes
/// only where a line is read before the first fault of the lines.
pub fn read_core(alloc: Global, bytes: &[u8]) -> Result<Core, CoreFault>
    ensures { Reads (MayRefuse bytes.now) result (meaning bytes.now) }
{
    match read_state(alloc, bytes) {
        Ok(state) => match core_of(alloc, state) {
            Ok(core) => Ok(core),
            Err(_) => Err(CoreFault::Memory),
        },
        Err(fault) => Err(fault),
    }
}
