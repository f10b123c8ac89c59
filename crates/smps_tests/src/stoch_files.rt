use crate::problems::{FARM, PAIR, Problem, THREE};
use smps_core::read_core;
use smps_stoch::{Stoch, read_stoch};
use smps_time::read_time;
use std::alloc::{AllocError, Global};
use std::test::Fail;
use stoch_lines::{StochEntry, StochFault};

// The places and values of entries, as text.
fn entries_text(alloc: Global, entries: &[StochEntry]) -> Result<String, AllocError> {
    let mut all = String::new(alloc);
    for entry in entries {
        let value = entry.value;
        all = format!(in alloc;
            "{all} {:?}={}e-{}",
            entry.place, value.mantissa, value.places
        )?;
    }
    Ok(all)
}

// What was read, as text: weights and entries of elements or scenarios.
fn data_text(alloc: Global, stoch: &Stoch) -> Result<String, AllocError> {
    let mut all = String::new(alloc);
    match stoch {
        Stoch::Product(elements) => {
            for element in elements.as_slice() {
                all = format!(in alloc; "{all}[{}", element.period)?;
                for realisation in element.realisations.as_slice() {
                    let said = entries_text(alloc, realisation.entries.as_slice())?;
                    all = format!(in alloc; "{all}; {}:{said}", realisation.weight)?;
                }
                all = format!(in alloc; "{all}]")?;
            }
        }
        Stoch::Scenarios(branches) => {
            for branch in branches.as_slice() {
                let said = entries_text(alloc, branch.entries.as_slice())?;
                all = format!(in alloc;
                    "{all}({:?} {} {}:{said})",
                    branch.parent, branch.weight, branch.period
                )?;
            }
        }
    }
    Ok(all)
}

// What a stoch file says beside a problem, or its fault, as text.
fn stoch_text(alloc: Global, problem: &Problem, bytes: &[u8]) -> Result<String, AllocError> {
    let Ok(core) = read_core(alloc, problem.core.as_bytes()) else {
        return format!(in alloc; "no core");
    };
    let Ok(periods) = read_time(alloc, problem.time.as_bytes(), &core) else {
        return format!(in alloc; "no periods");
    };
    match read_stoch(alloc, bytes, &core, &periods) {
        Ok(stoch) => data_text(alloc, &stoch),
        Err(StochFault::At { line, kind }) => format!(in alloc; "{line} {kind:?}"),
        Err(StochFault::Memory) => format!(in alloc; "memory"),
    }
}

// The files of a table that say something else than what stands beside them.
fn wrong_ones(
    alloc: Global,
    problem: &Problem,
    table: &[(&str, &str)],
) -> Result<String, AllocError> {
    let mut wrong = String::new(alloc);
    for (text, said) in table {
        let read = stoch_text(alloc, problem, text.as_bytes())?;
        if read.as_str() != *said {
            wrong = format!(in alloc; "{wrong}{text} is read as {read}\n")?;
        }
    }
    Ok(wrong)
}

#[test]
fn stoch_files_are_read(rt: HostRuntime) -> Result<(), Fail> {
    let wrong = wrong_ones(
        rt.alloc(),
        &PAIR,
        &[
            ("STOCH\nENDATA\n", ""),
            (
                "STOCH\nINDEP DISCRETE\n RHS C1 2 0.5\n RHS C1 6 0.5\n RHS C2 1 0.25\n RHS C2 3 0.75\nENDATA\n",
                "[2; 5: Right(0)=2e-0; 5: Right(0)=6e-0][2; 25: Right(1)=1e-0; 75: Right(1)=3e-0]",
            ),
            (
                "STOCH\nBLOCKS DISCRETE\n BL B1 T2 0.5\n RHS C1 4 C2 3\n BL B1 T2 0.5\n RHS C1 6\nENDATA\n",
                "[2; 5: Right(0)=4e-0 Right(1)=3e-0; 5: Right(0)=6e-0]",
            ),
            (
                "STOCH\nSCENARIOS DISCRETE\n SC A ROOT 0.5 T2\n X C1 3\n SC B A 0.25 T2\n RHS C2 7\nENDATA\n",
                "(None 50 2: Cell(0, 0)=3e-0)(Some(0) 25 2: Right(1)=7e-0)",
            ),
        ],
    )?;
    assert_eq!(rt; wrong.as_str(), "");
    let wrong = wrong_ones(
        rt.alloc(),
        &FARM,
        &[(
            "STOCH FARM\nSCENARIOS DISCRETE\n SC GOOD ROOT 0.333333 T2\n X1 WHEAT 3\n X2 CORN 3.6\n X3 BEETS 24\n SC POOR ROOT 0.333333 T2\n X1 WHEAT 2\n X2 CORN 2.4\n X3 BEETS 16\nENDATA\n",
            "(None 333333 2: Cell(1, 0)=3e-0 Cell(2, 1)=36e-1 Cell(3, 2)=24e-0)(None 333333 2: Cell(1, 0)=2e-0 Cell(2, 1)=24e-1 Cell(3, 2)=16e-0)",
        )],
    )?;
    assert_eq!(rt; wrong.as_str(), "");
    let wrong = wrong_ones(
        rt.alloc(),
        &THREE,
        &[
            (
                "INDEP REPLACE\n RHS C1 2 0.5\n Y2 COST -1.5 T3 1\n RHS C1 6 0.5\nBLOCKS\n BL B T3 1\n X C2 4\nINDEP DISCRETE REPLACE\n Y2 COST 2 T3 0.7\n RHS C1 7 T2 9\nENDATA x",
                "11 Fields",
            ),
            (
                "INDEP REPLACE\n RHS C1 2 0.5\n Y2 COST -1.5 T3 1\n RHS C1 6 0.5\nBLOCKS\n BL B T3 1\n X C2 4\nINDEP DISCRETE REPLACE\n Y2 COST 2 T3 0.7\n RHS C1 7 T2 9\nENDATA",
                "[2; 5: Right(1)=2e-0; 5: Right(1)=6e-0; 90: Right(1)=7e-0][3; 10: Cost(2)=-15e-1; 7: Cost(2)=2e-0][3; 1: Cell(2, 0)=4e-0]",
            ),
            (
                "SCENARIOS\n SC A ROOT 0.5 T2\n RHS C1 5\n SC B A 0.25 T3\n X C2 7\n SC C 'ROOT' 0.125 T1\n SC D B 1 T2\n Y1 COST 1e-3\nENDATA\n",
                "(None 500 2: Right(1)=5e-0)(Some(0) 250 3: Cell(2, 0)=7e-0)(None 125 1:)(Some(1) 1000 2: Cost(1)=1e-3)",
            ),
        ],
    )?;
    assert_eq!(rt; wrong.as_str(), "");
    Ok(())
}

#[test]
fn faults_are_told(rt: HostRuntime) -> Result<(), Fail> {
    let wrong = wrong_ones(
        rt.alloc(),
        &THREE,
        &[
            ("", "0 NoEnd"),
            ("*\nSTOCH\nINDEP\n", "3 NoEnd"),
            ("MODE\n\u{80}", "2 NotAscii"),
            ("ENDATA\n\u{7}\n", "2 NotAscii"),
            (" RHS C1 1 1\n", "1 Section"),
            ("INDEP\nSTOCH x\n", "2 Section"),
            ("SCENARIOS\nBLOCKS\n", "2 Section"),
            ("INDEP\nSCENARIOS\n", "2 Section"),
            ("SCENARIOS\nSCENARIOS x\n", "2 Section"),
            ("BLOCKS\n BL B T2 1\nBLOCKS\n RHS C1 1\n", "4 Section"),
            ("SCENARIOS\n RHS C1\n", "2 Section"),
            ("INDEP REPLACE DISCRETE\n", "1 Mode"),
            ("BLOCKS ADD\n", "1 Mode"),
            ("INDEP\n RHS C1 1\n Z C1 1 1\n", "2 Fields"),
            ("SCENARIOS\n SC A ROOT 1\n", "2 Fields"),
            ("BLOCKS\n BL A T2\nENDATA\n", "2 Fields"),
            ("ENDATA x\n", "1 Fields"),
            ("INDEP\n RHS C1 x 0\n", "2 Number"),
            ("SCENARIOS\n SC A ROOT x T9\n", "2 Number"),
            ("INDEP\n RHS C1 0.0000000001 1\n", "2 TooManyPlaces"),
            ("BLOCKS\n BL B T2 1e-10\n", "2 TooManyPlaces"),
            ("INDEP\n RHS C1 1e37 1\n", "2 TooLarge"),
            ("INDEP\n RHS C1 1 1e37\n", "2 TooLarge"),
            ("INDEP\n Z C1 x 1\n", "2 Unknown"),
            ("INDEP\n RHS COST 1 1\n", "2 Unknown"),
            ("BLOCKS\n BL B T9 0\n", "2 Unknown"),
            (
                "BLOCKS\n BL B T3 1\n RHS C1 1 Y2 2\n Y2 C1 1\n",
                "3 Unknown",
            ),
            ("INDEP\n RHS C1 1 0\n", "2 Weight"),
            ("BLOCKS\n BL B T1 1000000000.5\n", "2 Weight"),
            ("INDEP\n RHS LAND 1 1\n", "2 EarlyEntry"),
            ("INDEP\n RHS C1 1 T3 1\n", "2 EarlyEntry"),
            ("BLOCKS\n BL B T1 1\n", "2 EarlyEntry"),
            ("SCENARIOS\n SC A ROOT 1 T3\n Y1 COST 1\n", "3 EarlyEntry"),
            ("INDEP\n Y1 LAND 1 T1 1\n", "2 Anticipates"),
            ("BLOCKS\n BL B T3 1\n Y2 C2 1 C1 2\n", "3 Anticipates"),
            ("INDEP\n RHS C2 1 T2 1\n RHS C2 1 T1 1\n", "3 Clash"),
            ("BLOCKS\n BL B T2 1\n BL B T3 1\n", "3 Clash"),
            (
                "BLOCKS\n BL A T2 1\n RHS C1 1\n BL B T2 1\n RHS C1 1\n",
                "5 Twice",
            ),
            (
                "BLOCKS\n BL A T2 1\n RHS C1 1\nINDEP\n RHS C1 1 1\n",
                "5 Twice",
            ),
            ("SCENARIOS\n SC A ROOT 1 T2\n RHS C1 1 C1 2\n", "3 Twice"),
            (
                "SCENARIOS\n SC A ROOT 1 T2\n RHS C1 1\n RHS C1 1\n",
                "4 Twice",
            ),
            ("SCENARIOS\n SC A ROOT 1 T2\n SC A A 1 T2\n", "3 Twice"),
            ("SCENARIOS\n SC 'ROOT' ROOT 1 T2\n", "2 Twice"),
            ("SCENARIOS\n SC A A 0 T2\n", "2 Parent"),
            ("SCENARIOS\n SC A root 1 T2\n", "2 Parent"),
        ],
    )?;
    assert_eq!(rt; wrong.as_str(), "");
    Ok(())
}

// One more line than a line may be long, past the greatest number of scenarios,
// and at it.
#[test]
fn limits_are_told(rt: HostRuntime) -> Result<(), Fail> {
    let mut long = String::new(rt.alloc());
    for _ in 0..1024 {
        long.push('x')?;
    }
    let text = format!(in rt.alloc(); "INDEP\n {long}\n{long}")?;
    assert_eq!(rt;
        stoch_text(rt.alloc(), &PAIR, text.as_bytes())?.as_str(),
        "2 LongLine"
    );
    // A comment may be longer.
    let text = format!(in rt.alloc(); "*{long}\nBLOCKS\n{long}x")?;
    assert_eq!(rt;
        stoch_text(rt.alloc(), &PAIR, text.as_bytes())?.as_str(),
        "3 LongLine"
    );
    let mut many = String::new(rt.alloc());
    many.push_str("SCENARIOS\n")?;
    for number in 0..4096 {
        let line = format!(in rt.alloc(); " SC S{number} ROOT 1 T2\n")?;
        many.push_str(line.as_str())?;
    }
    for (line, said) in [
        (" SC S0 NONE 1", "4098 Fields"),
        (" SC S0 NONE 0 T9", "4098 Limit"),
        (" SC S4096 S4095 1 T2", "4098 Limit"),
        ("ENDATA x", "4098 Fields"),
    ] {
        let text = format!(in rt.alloc(); "{many}{line}\n")?;
        assert_eq!(rt;
            stoch_text(rt.alloc(), &PAIR, text.as_bytes())?.as_str(),
            said
        );
    }
    Ok(())
}

// Each cut of a file is refused, but for the one before its last newline.
#[test]
fn cut_files_are_refused(rt: HostRuntime) -> Result<(), Fail> {
    for text in [
        "STOCH x\nINDEP\n RHS C1 2 0.5\n RHS C1 6 0.5\nENDATA\n",
        "BLOCKS\n BL B T2 0.5\n RHS C1 4 C2 3\n BL B T2 0.5\nENDATA\n",
        "SCENARIOS\n SC A ROOT 1 T2\n RHS C1 1\nENDATA\n",
    ] {
        let bytes = text.as_bytes();
        for end in 0..bytes.len() {
            let read = stoch_text(rt.alloc(), &THREE, &bytes[..end])?;
            let refused = read
                .as_str()
                .starts_with(|first: char| first.is_ascii_digit());
            assert_eq!(rt; refused, end + 1 < bytes.len(), "{text} {end}");
        }
    }
    Ok(())
}
