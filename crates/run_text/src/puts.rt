ghost use Rattle.std.specs.Prelude.{◌<◌, length, IfOk};
ghost use Rattle.io_edge.specs.Faults.{Counts};
ghost use Rattle.run_text.specs.Puts.{PutsText, text_fault};

use crate::fault::TextFault;
use io_edge::{EdgeFault, Sink};
use wide_num::Text;

/// Puts a text that isn't empty. Where the put fails or memory is refused, a front
/// of it is written.
pub fn put_text<K: Sink>(out: &mut K, text: &Text) -> Result<(), TextFault>
    requires { 0 < length text.now }
    ensures text { PutsText text.now (K.written out.old) (K.written out.new) result }
    ensures count { Counts (K.count out.old) (K.count out.new) (text_fault result) }
{
    match out.put(text.as_slice()) {
        Ok(()) => Ok(()),
        Err(EdgeFault::Failed) => Err(TextFault::Failed),
        Err(EdgeFault::Memory) => Err(TextFault::Memory),
    }
}
