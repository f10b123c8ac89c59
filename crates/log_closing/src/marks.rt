ghost use Rattle.std.specs.Prelude.{◌≡◌, ◌+◌, ◌*◌, ◌<◌, ◌≤◌, length};
ghost use Rattle.log_closing.specs.Marks.{Marks, mark_of};

use wide_num::List;

// Where the mark of a spoke's reply to a put stands.
fn place(marks: &[bool], most: usize, spoke: usize, put: usize) -> usize
    requires put { put ≤ most }
    requires there { spoke * (most + 1) + most < length marks.now }
    ensures is { result ≡ spoke * (most + 1) + put }
    ensures within { result < length marks.now }
{
    let _marks = marks;
    spoke * (most + 1) + put
}

/// Marks that a spoke's reply to a put was taken.
pub fn mark(marks: &mut List<bool>, most: usize, spoke: usize, put: usize)
    requires put { put ≤ most }
    requires there { spoke * (most + 1) + most < length marks.old }
    ensures { Marks marks.old marks.new most spoke put }
{
    let index = place(marks.as_slice(), most, spoke, put);
    marks.set(index, true);
}

/// Whether a spoke's reply to a put is marked.
pub fn is_marked(marks: &[bool], most: usize, spoke: usize, put: usize) -> bool
    requires put { put ≤ most }
    requires there { spoke * (most + 1) + most < length marks.now }
    ensures { result ≡ mark_of most marks.now spoke put }
{
    marks[spoke * (most + 1) + put]
}
