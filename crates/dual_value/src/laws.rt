ghost use Rattle.std.specs.Prelude.{◌≡◌, ℤ, Some};
ghost use Rattle.sp_model.specs.Plans.{dual_of};
ghost use Rattle.sp_model.specs.Problems.{scenarios};
ghost use Rattle.sp_model.specs.ScenarioPoints.{HavePoints};
ghost use Rattle.sp_model.specs.declared.plan.Multipliers.{Multipliers};
ghost use Rattle.sp_model.specs.declared.run.Run.{Run};

/// Where each scenario has a feasible point, all multipliers have a dual value.
pub fn points_make_duals()
    ensures { (run : Run) (multipliers : Multipliers) → HavePoints run (scenarios run)
        → (value : ℤ) × (dual_of run multipliers ≡ Some value) }
{}
