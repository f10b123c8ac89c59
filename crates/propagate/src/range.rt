/// The numbers from `low` to `high`, both among them.
#[derive(Clone, Copy, Debug, Drop, PartialEq, Eq)]
pub struct Range {
    pub low: i128,
    pub high: i128,
}
