ghost use Rattle.scenario_lists.specs.ScenarioList.{HaveAllParents};

use crate::{ListFault, scenario_count, scenario_marks, scenarios};
use dec_core::Decimal;
use smps_stoch::{Element, Realisation, Stoch, StochEntry, StochPlace};
use std::alloc::{AllocError, Global};
use std::test::Fail;
use wide_num::List;

// The entries of a right side of each of these rows, one behind another.
fn rights(alloc: Global, sides: &[(u32, i128)]) -> Result<List<StochEntry>, AllocError> {
    let mut entries = List::new(alloc);
    for (row, mantissa) in sides {
        entries.push(StochEntry {
            place: StochPlace::Right(*row),
            value: Decimal {
                mantissa: *mantissa,
                places: 0,
            },
            line: 1,
        })?;
    }
    Ok(entries)
}

// An element of two realisations of the second period.
fn element(
    alloc: Global,
    weights: (i128, i128),
    first: &[(u32, i128)],
    second: &[(u32, i128)],
) -> Result<Element, AllocError> {
    let mut realisations = List::new(alloc);
    realisations.push(Realisation {
        weight: weights.0,
        entries: rights(alloc, first)?,
    })?;
    realisations.push(Realisation {
        weight: weights.1,
        entries: rights(alloc, second)?,
    })?;
    Ok(Element {
        period: 2,
        realisations,
    })
}

// The number of scenarios, their weights, right sides and marks, as text.
fn text(alloc: Global, stages: u8, stoch: &Stoch) -> Result<String, AllocError>
    requires { HaveAllParents stoch.now }
{
    let mut all = String::new(alloc);
    let Ok(count) = scenario_count(stoch) else {
        return Ok(all);
    };
    let Ok(listed) = scenarios(alloc, stoch, &[], count, 100) else {
        return Ok(all);
    };
    for scenario in listed.as_slice() {
        all = format!(in alloc; "{all}{}:", scenario.weight)?;
        for entry in scenario.entries.as_slice() {
            all = format!(in alloc; "{all} {:?}={}", entry.place, entry.value.mantissa)?;
        }
        all = format!(in alloc; "{all}; ")?;
    }
    for marks in scenario_marks(alloc, stages, stoch, count)?.as_slice() {
        all = format!(in alloc; "{all}{:?}", marks.as_slice())?;
    }
    Ok(all)
}

#[test]
fn combinations(rt: HostRuntime) -> Result<(), Fail> {
    let alloc = rt.alloc();
    let mut elements = List::new(alloc);
    elements.push(element(alloc, (5, 5), [(0, 2)].as_slice(), [(0, 6)].as_slice())?)?;
    elements.push(element(alloc, (25, 75), [(1, 1)].as_slice(), [(1, 3)].as_slice())?)?;
    assert_eq!(rt;
        text(alloc, 2, &Stoch::Product(elements))?.as_str(),
        "125: Right(0)=2 Right(1)=1; 375: Right(0)=2 Right(1)=3; 125: Right(0)=6 Right(1)=1; 375: Right(0)=6 Right(1)=3; [0, 0][0, 1][0, 2][0, 3]"
    );
    // The second realisation leaves out a place, and takes the first one's value.
    let mut block = List::new(alloc);
    block.push(element(
        alloc,
        (5, 5),
        [(0, 4), (1, 3)].as_slice(),
        [(0, 6)].as_slice(),
    )?)?;
    assert_eq!(rt;
        text(alloc, 2, &Stoch::Product(block))?.as_str(),
        "5: Right(0)=4 Right(1)=3; 5: Right(0)=6 Right(1)=3; [0, 0][0, 1]"
    );
    assert_eq!(rt;
        text(alloc, 2, &Stoch::Product(List::new(alloc)))?.as_str(),
        "1:; [0, 0]"
    );
    Ok(())
}

// How many entries two combinations have where two of three columns stay: in each one
// a cost of each column and the right side of a row.
fn entries_within(alloc: Global, limit: usize) -> Result<usize, ListFault> {
    let mut entries = rights(alloc, [(0, 4)].as_slice())?;
    for column in 0..3 {
        entries.push(StochEntry {
            place: StochPlace::Cost(column),
            value: Decimal {
                mantissa: 1,
                places: 0,
            },
            line: 1,
        })?;
    }
    let mut realisations = List::new(alloc);
    realisations.push(Realisation { weight: 5, entries })?;
    realisations.push(Realisation {
        weight: 5,
        entries: List::new(alloc),
    })?;
    let mut elements = List::new(alloc);
    elements.push(Element {
        period: 2,
        realisations,
    })?;
    let stoch = Stoch::Product(elements);
    let Ok(count) = scenario_count(&stoch) else {
        return Ok(0);
    };
    let listed = scenarios(alloc, &stoch, &[true, false, true], count, limit)?;
    let mut total = 0;
    for scenario in listed.as_slice() {
        total = scenario.entries.len().saturating_add(total);
    }
    Ok(total)
}

#[test]
fn columns_that_leave_do_not_count(rt: HostRuntime) -> Result<(), Fail> {
    let alloc = rt.alloc();
    assert_eq!(rt; entries_within(alloc, 6), Ok(6));
    assert_eq!(rt; entries_within(alloc, 5), Err(ListFault::TooManyEntries));
    Ok(())
}
