ghost use Rattle.std.specs.Prelude.{◌≡◌, ◌++◌, ◌∷◌, [], List, true, IfOk, OnOk, length, map, unsigned_abs};
ghost use Rattle.std.specs.List.{All, fold};
ghost use Rattle.sp_model.specs.Changes.{Data, all_data, core_data, data_of};
ghost use Rattle.sp_model.specs.RunFacts.{IsScenario, is_change};
ghost use Rattle.sp_model.specs.declared.program.Column.{Column};
ghost use Rattle.reach_core.specs.Changed.{raised_by};
ghost use Rattle.reach_core.specs.Greatest.{AreGreatest};
ghost use Rattle.reach_core.specs.Places.{AreOrdered, AreThere};
ghost use Rattle.reach_core.specs.Rows.{AreOfCore};

use crate::magnitudes::{larger, size};
use crate::rows::{CoreRows, core_rows, greatest_row};
use crate::scenario_rows::scenario_row;
use sp_model::{Change, Column, Program, Scenario};
use std::alloc::{AllocError, Global};

/// The greatest magnitude of each column's cost, and the greatest row up to the
/// cap, among some data of a program.
#[derive(Drop)]
pub struct Greatest {
    pub tops: Vec<u128>,
    pub rows: u128,
}

// The magnitudes of the costs of some columns.
fn sizes(alloc: Global, columns: &[Column]) -> Result<Vec<u128>, AllocError>
    ensures { IfOk result
        (λ sizes. sizes.items ≡ map (λ (column : Column). unsigned_abs column.cost) columns.now) }
{
    let mut sizes = Vec::new(alloc);
    for column in columns {
        sizes.push(size(column.cost))?;
    }
    Ok(sizes)
}

// Takes the cost of a change among the greatest ones.
fn raise(tops: &mut Vec<u128>, program: &Program, change: &Change)
    requires there { is_change (length program.now.rows) (length program.now.columns) change.now
        ≡ true }
    requires long { length tops.old.items ≡ length program.now.columns }
    ensures { tops.new.items ≡ raised_by tops.old.items change.now }
{
    if let Change::Cost { column, value } = change {
        let column = *column as usize;
        tops[column] = larger(tops[column], size(*value));
    }
}

// Takes the costs of some changes among the greatest ones.
fn raise_all(tops: &mut Vec<u128>, program: &Program, changes: &[Change])
    requires there { All
        (λ c. is_change (length program.now.rows) (length program.now.columns) c ≡ true)
        changes.now }
    requires long { length tops.old.items ≡ length program.now.columns }
    ensures { tops.new.items ≡ fold raised_by tops.old.items changes.now }
{
    for change in changes {
        raise(tops, program, change);
    }
}

// Those of the core.
fn of_core(alloc: Global, program: &Program, core: &CoreRows) -> Result<Greatest, AllocError>
    requires { AreOfCore program.now core.now }
    ensures { IfOk result (λ g. AreGreatest program.now (core_data program.now ∷ []) g) }
{
    let tops = sizes(alloc, program.columns.as_slice())?;
    let rows = greatest_row(core.limits.as_slice(), core.sums.as_slice());
    Ok(Greatest { tops, rows })
}

impl Greatest {
    // Takes one more scenario among them.
    fn add(
        &mut self,
        alloc: Global,
        program: &Program,
        core: &CoreRows,
        scenario: &Scenario,
    ) -> Result<(), AllocError>
        requires ordered { AreOrdered program.now }
        requires scenario { IsScenario program.now scenario.now }
        requires core { AreOfCore program.now core.now }
        requires long { length self.old.tops.items ≡ length program.now.columns }
        ensures { (ds : List Data) →
            AreGreatest program.now (core_data program.now ∷ ds) self.old →
            OnOk result
            (AreGreatest program.now
            (core_data program.now ∷ ds ++ data_of program.now scenario.now ∷ []) self.new) }
    {
        let row = scenario_row(alloc, program, core, scenario)?;
        self.rows = larger(self.rows, row);
        raise_all(&mut self.tops, program, scenario.changes.as_slice());
        Ok(())
    }
}

/// Those of the core and of all scenarios. The core's rows are added up once;
/// a scenario takes the time of its changes, and of one copy of a number for
/// each row.
pub fn of_all(alloc: Global, program: &Program) -> Result<Greatest, AllocError>
    requires there { AreThere program.now }
    requires ordered { AreOrdered program.now }
    requires scenarios { All (IsScenario program.now) program.now.scenarios }
    ensures { IfOk result (λ g. AreGreatest program.now (all_data program.now) g) }
{
    let core = core_rows(alloc, program)?;
    let mut greatest = of_core(alloc, program, &core)?;
    for scenario in program.scenarios.as_slice() {
        greatest.add(alloc, program, &core, scenario)?;
    }
    Ok(greatest)
}
