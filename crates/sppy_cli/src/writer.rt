ghost use Rattle.std.specs.Prelude.{◌≡◌, OnErr, OnOk};
ghost use Rattle.std.specs.List.{concat};
ghost use Rattle.io_edge.specs.Faults.{Counts, edge_fault};
ghost use Rattle.io_edge.specs.Sinks.{AppendsFront, appended};
ghost use Rattle.text_lines.specs.Lines.{AreFull};

use io_edge::{EdgeFault, Sink};
use wide_num::{List, Text};

/// Writes lines, none of them empty, one put a line.
pub fn write_lines<K: Sink>(out: &mut K, lines: &List<Text>) -> Result<(), EdgeFault>
    requires { AreFull lines.now }
    ensures ok { OnOk result (K.written out.new ≡ appended (K.written out.old) (concat lines.now)) }
    ensures err { OnErr result
        (AppendsFront (K.written out.old) (K.written out.new) (concat lines.now)) }
    ensures count { Counts (K.count out.old) (K.count out.new) (edge_fault result) }
{
    for line in lines.as_slice() {
        out.put(line.as_slice())?;
    }
    Ok(())
}
