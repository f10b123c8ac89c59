ghost use Rattle.std.specs.Prelude.{◌≡◌, ◌<◌, ℕ, false, length, slice_index_or};
ghost use Rattle.std.specs.List.{AllPairs};
ghost use Rattle.sp_model.specs.Changes.{core_data, data_of};
ghost use Rattle.sp_model.specs.RunFacts.{IsScenario, is_same_place};
ghost use Rattle.sp_model.specs.Values.{Has, IsUntouched, SameAt};
ghost use Rattle.sp_model.specs.declared.program.Change.{Change};
ghost use Rattle.sp_model.specs.declared.program.Program.{Program};
ghost use Rattle.sp_model.specs.declared.program.Scenario.{Scenario};

/// A law, not a call: a scenario has at the place of each of its changes what
/// the change gives, and at every other place what the core has.
pub fn scenario_values()
    ensures given { (program : Program) (scenario : Scenario) → IsScenario program scenario →
        (k : ℕ) (d : Change) → k < length scenario.changes
        → Has (data_of program scenario) (slice_index_or scenario.changes k d) }
    ensures kept { (program : Program) (scenario : Scenario) (place : Change)
        → IsUntouched scenario place →
        SameAt (data_of program scenario) (core_data program) place }
{}
