use crate::fixtures::input;
use io_edge::{EdgeFault, MemorySink, SureSink};
use sppy_cli::{
    CoreKind, InputFile, InputKind, JoinKind, ScheduleKind, Status, StochKind, TimeKind, report,
};
use std::test::Fail;

#[test]
fn statuses_are_told(rt: HostRuntime) -> Result<(), Fail> {
    let alloc = rt.alloc();
    for (status, code, line) in [
        (Status::Done, 0, ""),
        (Status::Words, 2, "sppy: words\n"),
        (
            input(
                InputFile::Stoch,
                12,
                InputKind::Stoch(StochKind::EarlyEntry),
            ),
            3,
            "sppy: input stoch line 12 EarlyEntry\n",
        ),
        (
            input(InputFile::Core, 0, InputKind::TooLong),
            3,
            "sppy: input core line 0 TooLong\n",
        ),
        (
            input(InputFile::Core, 7, InputKind::Core(CoreKind::UnknownColumn)),
            3,
            "sppy: input core line 7 UnknownColumn\n",
        ),
        (
            input(InputFile::Time, 3, InputKind::Time(TimeKind::Order)),
            3,
            "sppy: input time line 3 Order\n",
        ),
        (
            input(InputFile::Join, 0, InputKind::Join(JoinKind::TooManyCells)),
            3,
            "sppy: input join line 0 TooManyCells\n",
        ),
        (
            input(
                InputFile::Schedule,
                1,
                InputKind::Schedule(ScheduleKind::Actor),
            ),
            3,
            "sppy: input schedule line 1 Actor\n",
        ),
        (
            Status::Infeasible { scenario: 0 },
            4,
            "sppy: infeasible 1\n",
        ),
        (
            Status::Infeasible { scenario: u32::MAX },
            4,
            "sppy: infeasible 4294967296\n",
        ),
        (
            Status::Spent {
                scenario: 2,
                opened: 17,
            },
            5,
            "sppy: spent 3 opened 17\n",
        ),
        (
            Status::Wide {
                reach: 170141183460469231731687303715884105728,
            },
            6,
            "sppy: wide 170141183460469231731687303715884105728\n",
        ),
        (Status::ReadFault { faults: 3 }, 7, "sppy: read fault 3\n"),
        (Status::WriteFault { faults: 1 }, 8, "sppy: write fault 1\n"),
        (Status::Memory, 9, "sppy: memory\n"),
    ] {
        let mut out = SureSink::new(alloc);
        assert_eq!(rt; report(alloc, &status, &mut out), Ok(()), "{line}");
        assert_eq!(rt; out.bytes(), line.as_bytes());
        assert_eq!(rt; status.code(), code, "{line}");
    }
    Ok(())
}

#[test]
fn a_report_may_fail(rt: HostRuntime) -> Result<(), Fail> {
    let alloc = rt.alloc();
    let mut out = MemorySink::new(alloc, vec![in alloc; 1u64]?);
    assert_eq!(rt;
        report(alloc, &Status::Words, &mut out),
        Err(EdgeFault::Failed)
    );
    assert_eq!(rt; report(alloc, &Status::Done, &mut out), Ok(()));
    assert_eq!(rt; out.bytes().len(), 0);
    Ok(())
}
