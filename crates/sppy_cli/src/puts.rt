ghost use Rattle.std.specs.Prelude.{◌≡◌};
ghost use Rattle.std.specs.List.{concat};
ghost use Rattle.io_edge.specs.Faults.{CountsTo};
ghost use Rattle.sppy_cli.specs.Statuses.{reported, write_fault_of};
ghost use Rattle.sppy_cli.specs.Texts.{PutsText, heading_text};
ghost use Rattle.text_lines.specs.Lines.{AreFull};

use crate::instance::Instance;
use crate::status::Status;
use crate::writer::write_lines;
use io_edge::{EdgeFault, Sink};
use std::alloc::Global;
use text_lines::heading_lines;
use wide_num::{List, Text};

/// Writes lines, each by one put. Where one fails, nothing more is put, and the
/// answer is the status of the command.
pub fn put_lines<K: Sink>(out: &mut K, lines: &List<Text>) -> Result<(), Status>
    requires { AreFull lines.now }
    ensures text { PutsText (concat lines.now) (K.written out.old) (K.written out.new) result }
    ensures count { CountsTo (K.count out.old) (K.count out.new) (reported write_fault_of result) }
{
    match write_lines(out, lines) {
        Ok(()) => Ok(()),
        Err(EdgeFault::Failed) => Err(Status::WriteFault {
            faults: out.faults(),
        }),
        Err(EdgeFault::Memory) => Err(Status::Memory),
    }
}

/// Writes the heading of a run. Where a put fails or memory is refused, a front
/// of it is written, and the answer is the status of the command.
pub fn put_heading<K: Sink>(alloc: Global, out: &mut K, instance: &Instance) -> Result<(), Status>
    ensures text { PutsText (heading_text instance.now) (K.written out.old) (K.written out.new)
        result }
    ensures count { CountsTo (K.count out.old) (K.count out.new) (reported write_fault_of result) }
{
    let Ok(lines) = heading_lines(alloc, &instance.triple.core, &instance.run) else {
        return Err(Status::Memory);
    };
    put_lines(out, &lines)
}
