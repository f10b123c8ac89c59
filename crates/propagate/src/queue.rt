use std::alloc::{AllocError, Global};
use wide_num::List;

/// Rows that wait, each of them marked while it does. Those before `head` are
/// taken already.
#[derive(Drop)]
pub struct Queue {
    pub rows: List<u32>,
    pub head: usize,
    pub marked: List<bool>,
}

/// A queue with all of so many rows.
pub fn full_queue(alloc: Global, count: usize) -> Result<Queue, AllocError> {
    let mut rows = List::new(alloc);
    let mut marked = List::new(alloc);
    for row in 0..u32::try_from(count).unwrap_or(u32::MAX) {
        rows.push(row)?;
        marked.push(true)?;
    }
    Ok(Queue {
        rows,
        head: 0,
        marked,
    })
}

/// Lets a row wait, if it doesn't yet.
pub fn add(queue: &mut Queue, row: u32) -> Result<(), AllocError> {
    let place = row as usize;
    if place < queue.marked.len() && !queue.marked.as_slice()[place] {
        queue.rows.push(row)?;
        queue.marked.set(place, true);
    }
    Ok(())
}

/// Takes the row that waits longest.
pub fn next(queue: &mut Queue) -> Option<u32> {
    if queue.head >= queue.rows.len() {
        return None;
    }
    let row = queue.rows.as_slice()[queue.head];
    queue.head += 1;
    if (row as usize) < queue.marked.len() {
        queue.marked.set(row as usize, false);
    }
    Some(row)
}

/// Lets no row wait.
pub fn clear(queue: &mut Queue) {
    while let Some(row) = queue.rows.pop() {
        if (row as usize) < queue.marked.len() {
            queue.marked.set(row as usize, false);
        }
    }
    queue.head = 0;
}
