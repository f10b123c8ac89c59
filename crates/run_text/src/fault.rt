/// Why a text isn't written whole; a front of it is.
#[derive(Clone, Copy, Debug, Drop, PartialEq, Eq)]
pub enum TextFault {
    /// A put failed, and the sink counted it.
    Failed,
    /// Memory was refused.
    Memory,
}
