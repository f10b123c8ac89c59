use crate::fixtures::{SMALL, WAIT, input, ran};
use sppy_cli::{CoreKind, InputFile, InputKind, StochKind, TimeKind};
use std::test::Fail;

// The first file that has a fault is told, whatever stands behind it.
#[test]
fn files_are_read_in_turn(rt: HostRuntime) -> Result<(), Fail> {
    let alloc = rt.alloc();
    let [core, time, stoch] = SMALL;
    for (core, time, stoch, file, line, kind) in [
        (
            time,
            time,
            stoch,
            InputFile::Core,
            1,
            InputKind::Core(CoreKind::Section),
        ),
        (
            core,
            core,
            core,
            InputFile::Time,
            1,
            InputKind::Time(TimeKind::Section),
        ),
        (
            core,
            time,
            time,
            InputFile::Stoch,
            1,
            InputKind::Stoch(StochKind::Section),
        ),
        (
            "",
            "",
            "",
            InputFile::Core,
            0,
            InputKind::Core(CoreKind::NoEnd),
        ),
    ] {
        let found = ran(alloc, WAIT, core, time, stoch)?;
        assert_eq!(rt; found.0, input(file, line, kind));
        assert_eq!(rt; found.1.len(), 0);
    }
    Ok(())
}
