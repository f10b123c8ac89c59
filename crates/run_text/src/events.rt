ghost use Rattle.std.specs.List.{concat};
ghost use Rattle.io_edge.specs.Faults.{Counts};
ghost use Rattle.run_text.specs.Puts.{PutsText, text_fault};
ghost use Rattle.run_text.specs.RunLines.{event_lines_of, event_text};
ghost use Rattle.text_lines.specs.Lines.{line_of};

use crate::fault::TextFault;
use crate::lines::event_line;
use crate::puts::put_text;
use io_edge::Sink;
use run_log::Event;
use std::alloc::Global;

// Writes the line of an event.
fn put_event<K: Sink>(alloc: Global, out: &mut K, event: Event) -> Result<(), TextFault>
    ensures text { PutsText (line_of (event_text event)) (K.written out.old) (K.written out.new)
        result }
    ensures count { Counts (K.count out.old) (K.count out.new) (text_fault result) }
{
    let Ok(line) = event_line(alloc, event) else {
        return Err(TextFault::Memory);
    };
    put_text(out, &line)
}

/// Writes a line for each event.
pub fn put_events<K: Sink>(alloc: Global, out: &mut K, events: &[Event]) -> Result<(), TextFault>
    ensures text { PutsText (concat (event_lines_of events.now)) (K.written out.old)
        (K.written out.new) result }
    ensures count { Counts (K.count out.old) (K.count out.new) (text_fault result) }
{
    for event in events {
        match put_event(alloc, out, *event) {
            Ok(()) => (),
            Err(fault) => return Err(fault),
        }
    }
    Ok(())
}
