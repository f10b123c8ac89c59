/// The section of a stoch file that a header begins.
#[derive(Clone, Copy, Debug, Drop, PartialEq, Eq)]
pub enum Heading {
    Indep,
    Blocks,
    Scenarios,
}
