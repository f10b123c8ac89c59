ghost use Rattle.std.specs.Prelude.{◌≡◌, ◌+◌, IfOk, replicate};
ghost use Rattle.window_places.specs.Places.{ArePlaces};

use std::alloc::{AllocError, Global};
use window_words::Meaning;

/// Where the windows lie: one behind the other, each with its stamp first, and the
/// stop word before them all.
#[derive(Drop)]
pub struct Places {
    /// The place of each window's stamp.
    pub starts: Vec<usize>,
    /// How many words there are, the stop word among them.
    pub words: usize,
}

/// So many words, all 0.
pub fn zeros(alloc: Global, count: usize) -> Result<Vec<u64>, AllocError>
    ensures { IfOk result (λ words. words.items ≡ replicate count 0) }
{
    let words = vec![in alloc; 0; count]?;
    Ok(words)
}

/// Where a window ends and the next begins. Words whose number has no `usize`
/// are refused as memory is.
fn past(start: usize, width: usize) -> Result<usize, AllocError>
    ensures { IfOk result (λ next. next ≡ start + width + 1) }
{
    let end = start.checked_add(width).ok_or(AllocError)?;
    end.checked_add(1).ok_or(AllocError)
}

/// Where the windows of a meaning lie. It fails where memory is refused, or where the
/// words are more than a `usize` can number.
pub fn places_of<M: Meaning>(alloc: Global, of: &M) -> Result<Places, AllocError>
    ensures { IfOk result (λ places. ArePlaces (M.wide of.now) (M.count of.now)
        places.starts.items places.words) }
{
    let mut starts = Vec::new(alloc);
    let mut next = 1;
    for window in 0..of.windows() {
        let width = of.width(window);
        starts.push(next)?;
        next = past(next, width)?;
    }
    Ok(Places {
        starts,
        words: next,
    })
}
