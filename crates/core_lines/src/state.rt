use crate::headers::Headers;
use crate::parts::{BoundPart, ColumnPart, RowPart, SidePart};

/// What the lines so far have said.
#[derive(Drop)]
pub struct State {
    pub headers: Headers,
    pub rows: RowPart,
    pub columns: ColumnPart,
    pub rights: SidePart,
    pub ranges: SidePart,
    pub bounds: BoundPart,
}
