use crate::fixtures::ran;
use sppy_cli::Status;
use std::test::Fail;

// Twelve rows, each with two right sides.
const CORE: &str =
    "ROWS\n N COST\n G R0\n G R1\n G R2\n G R3\n G R4\n G R5\n G R6\n G R7\n G R8\n G R9\n G R10\n G R11\nCOLUMNS\n X COST 1\n Y COST 1 R0 1\n Y R1 1\n Y R2 1\n Y R3 1\n Y R4 1\n Y R5 1\n Y R6 1\n Y R7 1\n Y R8 1\n Y R9 1\n Y R10 1\n Y R11 1\nBOUNDS\n UP BND X 1\n UP BND Y 1\nENDATA\n";

const TIME: &str = "PERIODS\n X COST T1\n Y R0 T2\nENDATA\n";

const STOCH: &str =
    "STOCH\nINDEP DISCRETE\n RHS R0 0 0.5\n RHS R0 1 0.5\n RHS R1 0 0.5\n RHS R1 1 0.5\n RHS R2 0 0.5\n RHS R2 1 0.5\n RHS R3 0 0.5\n RHS R3 1 0.5\n RHS R4 0 0.5\n RHS R4 1 0.5\n RHS R5 0 0.5\n RHS R5 1 0.5\n RHS R6 0 0.5\n RHS R6 1 0.5\n RHS R7 0 0.5\n RHS R7 1 0.5\n RHS R8 0 0.5\n RHS R8 1 0.5\n RHS R9 0 0.5\n RHS R9 1 0.5\n RHS R10 0 0.5\n RHS R10 1 0.5\n RHS R11 0 0.5\n RHS R11 1 0.5\nENDATA\n";

/// How many bytes the text has: a scenario's line and twelve of limits, 4096 times.
const LEN: usize = 1254528;

#[test]
fn as_many_scenarios_as_may_be(rt: HostRuntime) -> Result<(), Fail> {
    let found = ran(rt.alloc(), "show core time stoch", CORE, TIME, STOCH)?;
    assert_eq!(rt; found.0, Status::Done);
    assert_eq!(rt; found.1.len(), LEN);
    Ok(())
}
