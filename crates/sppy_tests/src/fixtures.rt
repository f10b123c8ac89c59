use io_edge::{SureShelf, SureSink};
use sample_files::{SMALL_CORE, SMALL_STOCH, SMALL_TIME};
use sppy_cli::{InputFault, InputFile, InputKind, Status, desk};
use std::alloc::{AllocError, Global};
use std::process::Abort;

/// The core, time and stoch file of the worked example SMALL.
pub const SMALL: [&str; 3] = [SMALL_CORE, SMALL_TIME, SMALL_STOCH];

/// A stoch file without sections: one scenario with the core's data.
pub const NO_STOCH: &str = "STOCH\nENDATA\n";

/// The stoch file of SMALL with a demand that no plan meets in the second
/// scenario.
pub const HARD_STOCH: &str =
    "STOCH SMALL\nSCENARIOS DISCRETE\n SC LOW ROOT 0.5 T2\n RHS NEED 2\n SC HIGH ROOT 0.5 T2\n RHS NEED 30\nENDATA\n";

/// The heading that `wait` writes of SMALL.
pub const HEADING: &str =
    "sppy 1\nscenarios 2 periods 2 nodes 3\ncolumns 2 taken-whole 2 rows 1\nunit 1/20\n";

/// The text that `wait` writes of SMALL.
pub const TEXT: &str =
    "sppy 1\nscenarios 2 periods 2 nodes 3\ncolumns 2 taken-whole 2 rows 1\nunit 1/20\nfirst 80 none\nlower 80 = 4\nupper none\n";

/// The words of `wait` over files of these names.
pub const WAIT: &str = "wait core time stoch --scale 2 --rho 1";

/// The words as a program is given them: those between blanks.
pub fn words(alloc: Global, given: &str) -> Result<Vec<String>, AllocError> {
    let mut words = Vec::new(alloc);
    for word in given.split(' ') {
        words.push(String::from_str(alloc, word)?)?;
    }
    Ok(words)
}

/// What a command over these files wrote, and its status, where no call fails.
pub fn ran(
    alloc: Global,
    given: &str,
    core: &str,
    time: &str,
    stoch: &str,
) -> Result<(Status, Vec<u8>), AllocError> {
    let mut shelf = SureShelf::new(alloc);
    shelf.add("core", core.as_bytes())?;
    shelf.add("time", time.as_bytes())?;
    shelf.add("stoch", stoch.as_bytes())?;
    let mut out = SureSink::new(alloc);
    let status = desk(alloc, &words(alloc, given)?, &mut shelf, &mut out);
    let written = Vec::from_slice(alloc, out.bytes())?;
    Ok((status, written))
}

/// Asserts a status and what was written.
pub fn expect(rt: &impl Abort, found: &(Status, Vec<u8>), status: Status, text: &str, which: &str) {
    assert_eq!(rt; found.0, status, "{which}");
    assert_eq!(rt; found.1.as_slice(), text.as_bytes(), "{which}");
}

/// The status of a fault of a file.
pub fn input(file: InputFile, line: u64, kind: InputKind) -> Status {
    Status::Input(InputFault { file, line, kind })
}
