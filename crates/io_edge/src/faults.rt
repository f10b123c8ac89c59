use thiserror::Error;

/// Why a file was not loaded.
#[derive(Clone, Copy, Debug, Drop, Error, PartialEq, Eq)]
pub enum LoadFault {
    /// The file could not be read, or there is none of that name.
    #[error("the file could not be read")]
    Failed,
    /// The file has more bytes than the limit.
    #[error("the file is longer than the limit")]
    TooLong,
    /// There was no memory for it.
    #[error("out of memory")]
    Memory,
}

/// Why bytes were not written or stored.
#[derive(Clone, Copy, Debug, Drop, Error, PartialEq, Eq)]
pub enum EdgeFault {
    /// The write failed.
    #[error("the write failed")]
    Failed,
    /// There was no memory for it.
    #[error("out of memory")]
    Memory,
}
