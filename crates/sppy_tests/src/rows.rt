use crate::fixtures::{HARD_STOCH, HEADING, NO_STOCH, SMALL, TEXT, WAIT, expect, input, ran};
use sample_files::{PAIR_CORE, PAIR_TIME};
use sppy_cli::{CoreKind, InputFile, InputKind, JoinKind, Status};
use std::test::Fail;

// Each command with its files, and the text that it must write.
#[test]
fn texts_are_written(rt: HostRuntime) -> Result<(), Fail> {
    let alloc = rt.alloc();
    for (given, core, time, stoch, text) in [
        (WAIT, SMALL[0], SMALL[1], SMALL[2], TEXT),
        (
            "show core time stoch --scale 1",
            PAIR_CORE,
            PAIR_TIME,
            "STOCH\nINDEP DISCRETE\n RHS C1 2 0.5\n RHS C1 6 0.5\n RHS C2 1 0.25\n RHS C2 3 0.75\nENDATA\n",
            "sppy 1\nscenarios 4 periods 2 nodes 5\ncolumns 3 taken-whole 3 rows 2\nunit 1/1000\ncolumn X 1 0 10\ncolumn Y1 2 0 10\ncolumn Y2 2 0 10\nrow C1 2 1\nrow C2 2 1\nscenario 1 weight 125 nodes 1 2\nlimits 1 C1 2 none\nlimits 1 C2 1 none\nscenario 2 weight 375 nodes 1 3\nlimits 2 C1 2 none\nlimits 2 C2 3 none\nscenario 3 weight 125 nodes 1 4\nlimits 3 C1 6 none\nlimits 3 C2 1 none\nscenario 4 weight 375 nodes 1 5\nlimits 4 C1 6 none\nlimits 4 C2 3 none\n",
        ),
        (
            "show core time stoch --scale 1",
            PAIR_CORE,
            PAIR_TIME,
            "STOCH\nBLOCKS DISCRETE\n BL B1 T2 0.5\n RHS C1 4 C2 3\n BL B1 T2 0.5\n RHS C1 6\nENDATA\n",
            "sppy 1\nscenarios 2 periods 2 nodes 3\ncolumns 3 taken-whole 3 rows 2\nunit 1/10\ncolumn X 1 0 10\ncolumn Y1 2 0 10\ncolumn Y2 2 0 10\nrow C1 2 1\nrow C2 2 1\nscenario 1 weight 5 nodes 1 2\nlimits 1 C1 4 none\nlimits 1 C2 3 none\nscenario 2 weight 5 nodes 1 3\nlimits 2 C1 6 none\nlimits 2 C2 3 none\n",
        ),
        (
            "show core time stoch",
            PAIR_CORE,
            "PERIODS\n X COST T1\n Y1 C1 T2\n Y2 C2 T3\nENDATA\n",
            "STOCH\nSCENARIOS DISCRETE\n SC S1 'ROOT' 0.5 T1\n SC S2 S1 0.25 T3\n SC S3 S1 0.25 T2\nENDATA\n",
            "sppy 1\nscenarios 3 periods 3 nodes 6\ncolumns 3 taken-whole 3 rows 2\nunit 1/100000\ncolumn X 1 0 10\ncolumn Y1 2 0 10\ncolumn Y2 3 0 10\nrow C1 2 1\nrow C2 3 1\nscenario 1 weight 50 nodes 1 2 4\nlimits 1 C1 2 none\nlimits 1 C2 1 none\nscenario 2 weight 25 nodes 1 2 5\nlimits 2 C1 2 none\nlimits 2 C2 1 none\nscenario 3 weight 25 nodes 1 3 6\nlimits 3 C1 2 none\nlimits 3 C2 1 none\n",
        ),
        (
            "show core time stoch",
            "NAME SMALL\nROWS\n N COST\n E NEED\nCOLUMNS\n X COST 1 NEED 1\n Y COST 3 NEED 1\nRHS\n RHS NEED 5\nRANGES\n RNG NEED -2\nBOUNDS\n UP BND X 10\n UP BND Y 10\nENDATA\n",
            SMALL[1],
            NO_STOCH,
            "sppy 1\nscenarios 1 periods 2 nodes 2\ncolumns 2 taken-whole 2 rows 1\nunit 1/1000\ncolumn X 1 0 10\ncolumn Y 2 0 10\nrow NEED 2 1\nscenario 1 weight 1 nodes 1 2\nlimits 1 NEED 3 5\n",
        ),
        (
            "show core time stoch",
            "NAME SMALL\nROWS\n N COST\n E NEED\nCOLUMNS\n X COST 1 NEED 1\n Y COST 3 NEED 1\nRHS\n RHS NEED 5\nRANGES\n RNG NEED 2\nBOUNDS\n UP BND X 10\n UP BND Y 10\nENDATA\n",
            SMALL[1],
            NO_STOCH,
            "sppy 1\nscenarios 1 periods 2 nodes 2\ncolumns 2 taken-whole 2 rows 1\nunit 1/1000\ncolumn X 1 0 10\ncolumn Y 2 0 10\nrow NEED 2 1\nscenario 1 weight 1 nodes 1 2\nlimits 1 NEED 5 7\n",
        ),
        (
            "show core time stoch",
            "NAME SMALL\nROWS\n N COST\n L NEED\nCOLUMNS\n X COST 1 NEED 1\n Y COST 3 NEED 1\nRHS\n RHS NEED 5\nRANGES\n RNG NEED -2\nBOUNDS\n UP BND X 10\n UP BND Y 10\nENDATA\n",
            SMALL[1],
            NO_STOCH,
            "sppy 1\nscenarios 1 periods 2 nodes 2\ncolumns 2 taken-whole 2 rows 1\nunit 1/1000\ncolumn X 1 0 10\ncolumn Y 2 0 10\nrow NEED 2 1\nscenario 1 weight 1 nodes 1 2\nlimits 1 NEED 3 5\n",
        ),
        (
            "show core time stoch",
            "NAME SMALL\nROWS\n N COST\n G NEED\nCOLUMNS\n X COST 1 NEED 1\n Y COST 3 NEED 1\nRHS\n RHS NEED 5\nRANGES\n RNG NEED -2\nBOUNDS\n UP BND X 10\n UP BND Y 10\nENDATA\n",
            SMALL[1],
            NO_STOCH,
            "sppy 1\nscenarios 1 periods 2 nodes 2\ncolumns 2 taken-whole 2 rows 1\nunit 1/1000\ncolumn X 1 0 10\ncolumn Y 2 0 10\nrow NEED 2 1\nscenario 1 weight 1 nodes 1 2\nlimits 1 NEED 5 7\n",
        ),
        (
            "wait core time stoch --scale 2 --rho 1 --iterations 0",
            "NAME SMALL\nROWS\n N COST\n G NEED\n G WIDE\nCOLUMNS\n X COST 1 NEED 1\n X WIDE 132922799578491587290380706028029661\n Y COST 3 NEED 1\nRHS\n RHS NEED 2 WIDE -6\nBOUNDS\n UP BND X 10\n UP BND Y 10\nENDATA\n",
            SMALL[1],
            SMALL[2],
            "sppy 1\nscenarios 2 periods 2 nodes 3\ncolumns 2 taken-whole 2 rows 2\nunit 1/20\nfirst 80 none\nlower 80 = 4\nupper none\n",
        ),
        (
            "show core time stoch --box 10",
            "NAME SMALL\nROWS\n N COST\n G NEED\nCOLUMNS\n X COST 1 NEED 1\n Y COST 3 NEED 1\nRHS\n RHS NEED 2\nBOUNDS\n MI BND X\n UP BND X -1\n UP BND Y 10\nENDATA\n",
            SMALL[1],
            NO_STOCH,
            "sppy 1\nscenarios 1 periods 2 nodes 2\ncolumns 2 taken-whole 2 rows 1\nunit 1/1000\ncolumn X 1 -11 -1\ncolumn Y 2 0 10\nrow NEED 2 1\nscenario 1 weight 1 nodes 1 2\nlimits 1 NEED 2 none\n",
        ),
        (
            "show core time stoch --box 50",
            "NAME SMALL\nROWS\n N COST\n G NEED\nCOLUMNS\n X COST 1 NEED 1\n Y COST 3 NEED 1\nRHS\n RHS NEED 2\nBOUNDS\n UP BND X 1e30\n UP BND Y 10\nENDATA\n",
            SMALL[1],
            NO_STOCH,
            "sppy 1\nscenarios 1 periods 2 nodes 2\ncolumns 2 taken-whole 2 rows 1\nunit 1/1000\ncolumn X 1 0 50\ncolumn Y 2 0 10\nrow NEED 2 1\nscenario 1 weight 1 nodes 1 2\nlimits 1 NEED 2 none\n",
        ),
        (
            "show core time stoch --scale 2 --rho 1",
            "NAME SMALL\nROWS\n N COST\n G NEED\nCOLUMNS\n X COST 1e36 NEED 1\n Y COST 3 NEED 1\nRHS\n RHS NEED 2\nBOUNDS\n UP BND X 0\n UP BND Y 10\nENDATA\n",
            SMALL[1],
            SMALL[2],
            "sppy 1\nscenarios 2 periods 2 nodes 3\ncolumns 2 taken-whole 2 rows 1\nunit 1/20\ncolumn X 1 0 0\ncolumn Y 2 0 10\nrow NEED 2 1\nscenario 1 weight 5 nodes 1 2\nlimits 1 NEED 2 none\nscenario 2 weight 5 nodes 1 3\nlimits 2 NEED 6 none\n",
        ),
        (
            "show core time stoch --scale 1",
            "NAME SMALL\nROWS\n N COST\n G NEED\nCOLUMNS\n X COST 1 NEED 1\n Y COST 2.5 NEED 1\nRHS\n RHS NEED 2\nBOUNDS\n UP BND X 10\n UP BND Y 10\nENDATA\n",
            SMALL[1],
            "STOCH\nSCENARIOS DISCRETE\n SC A ROOT 1 T2\n RHS NEED 2.25\n SC B A 1 T2\n Y NEED 0.5\nENDATA\n",
            "sppy 1\nscenarios 2 periods 2 nodes 3\ncolumns 2 taken-whole 2 rows 1\nunit 1/20\ncolumn X 1 0 10\ncolumn Y 2 0 10\nrow NEED 2 100\nscenario 1 weight 1 nodes 1 2\nlimits 1 NEED 225 none\nscenario 2 weight 1 nodes 1 3\nlimits 2 NEED 225 none\n",
        ),
        (
            "wait core time stoch --scale 2 --rho 1 --budget 71",
            SMALL[0],
            SMALL[1],
            SMALL[2],
            TEXT,
        ),
    ] {
        let found = ran(alloc, given, core, time, stoch)?;
        expect(&rt, &found, Status::Done, text, given);
    }
    Ok(())
}

// Each refusal with its cause; nothing, or the heading, is written.
#[test]
fn causes_are_told(rt: HostRuntime) -> Result<(), Fail> {
    let alloc = rt.alloc();
    let core = |line, kind| input(InputFile::Core, line, InputKind::Core(kind));
    let join = |line, kind| input(InputFile::Join, line, InputKind::Join(kind));
    for (given, core, time, stoch, status, text) in [
        (
            "show core time stoch",
            PAIR_CORE,
            "PERIODS\n X COST T1\n Y1 C2 T2\nENDATA\n",
            NO_STOCH,
            join(9, JoinKind::Anticipates),
            "",
        ),
        (
            "wait core time stoch --scale 2 --rho 1",
            "NAME SMALL\nROWS\n N COST\n G NEED\nCOLUMNS\n X COST 1 NEED 1\n Y COST 3 NEED 1\nRHS\n RHS NEED 2\nBOUNDS\n UP BND X 10\n UP BND Y 10\n",
            SMALL[1],
            SMALL[2],
            core(12, CoreKind::NoEnd),
            "",
        ),
        (
            "wait core time stoch --scale 2 --rho 1",
            "",
            SMALL[1],
            SMALL[2],
            core(0, CoreKind::NoEnd),
            "",
        ),
        (
            "wait core time stoch --scale 2 --rho 1 --iterations 0",
            "NAME SMALL\nROWS\n N COST\n G NEED\n G WIDE\nCOLUMNS\n X COST 1 NEED 1\n X WIDE 132922799578491587290380706028029661\n Y COST 3 NEED 1\nRHS\n RHS NEED 2 WIDE -7\nBOUNDS\n UP BND X 10\n UP BND Y 10\nENDATA\n",
            SMALL[1],
            SMALL[2],
            Status::Wide {
                reach: 1329227995784915872903807060280344577,
            },
            "",
        ),
        (
            "wait core time stoch --scale 2 --rho 1",
            "NAME SMALL\nROWS\n N COST\n G NEED\nCOLUMNS\n X COST 1 NEED 1\n Y COST 3 NEED 1\nRHS\n RHS NEED 2\nBOUNDS\n UP BND X -1\n UP BND Y 10\nENDATA\n",
            SMALL[1],
            SMALL[2],
            core(11, CoreKind::BadBound),
            "",
        ),
        (
            "show core time stoch",
            "NAME SMALL\nROWS\n N COST\n G NEED\nCOLUMNS\n X COST 1 NEED 1\n Y COST 3 NEED 1\nRHS\n RHS NEED 2\nBOUNDS\n LO BND X 2.2\n UP BND X 2.8\n UP BND Y 10\nENDATA\n",
            SMALL[1],
            NO_STOCH,
            core(14, CoreKind::EmptyBox),
            "",
        ),
        (
            "wait core time stoch --scale 2 --rho 1",
            SMALL[0],
            SMALL[1],
            HARD_STOCH,
            Status::Infeasible { scenario: 1 },
            HEADING,
        ),
        (
            "show core time stoch",
            "ROWS\n N COST\n G R0\n G R1\n G R2\n G R3\n G R4\n G R5\n G R6\n G R7\n G R8\n G R9\n G R10\n G R11\n G R12\nCOLUMNS\n X COST 1\n Y COST 1 R0 1\n Y R1 1\n Y R2 1\n Y R3 1\n Y R4 1\n Y R5 1\n Y R6 1\n Y R7 1\n Y R8 1\n Y R9 1\n Y R10 1\n Y R11 1\n Y R12 1\nBOUNDS\n UP BND X 1\n UP BND Y 1\nENDATA\n",
            "PERIODS\n X COST T1\n Y R0 T2\nENDATA\n",
            "STOCH\nINDEP DISCRETE\n RHS R0 0 0.5\n RHS R0 1 0.5\n RHS R1 0 0.5\n RHS R1 1 0.5\n RHS R2 0 0.5\n RHS R2 1 0.5\n RHS R3 0 0.5\n RHS R3 1 0.5\n RHS R4 0 0.5\n RHS R4 1 0.5\n RHS R5 0 0.5\n RHS R5 1 0.5\n RHS R6 0 0.5\n RHS R6 1 0.5\n RHS R7 0 0.5\n RHS R7 1 0.5\n RHS R8 0 0.5\n RHS R8 1 0.5\n RHS R9 0 0.5\n RHS R9 1 0.5\n RHS R10 0 0.5\n RHS R10 1 0.5\n RHS R11 0 0.5\n RHS R11 1 0.5\n RHS R12 0 0.5\n RHS R12 1 0.5\nENDATA\n",
            join(0, JoinKind::TooManyScenarios),
            "",
        ),
        (
            "wait core time stoch --scale 2 --rho 1 --budget 1",
            SMALL[0],
            SMALL[1],
            SMALL[2],
            Status::Spent {
                scenario: 0,
                opened: 1,
            },
            HEADING,
        ),
    ] {
        let found = ran(alloc, given, core, time, stoch)?;
        expect(&rt, &found, status, text, given);
    }
    Ok(())
}
