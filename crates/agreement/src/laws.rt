ghost use Rattle.std.specs.Prelude.{◌≡◌, ℕ, Some};
ghost use Rattle.agreement.specs.Agreeing.{AreAgreed};
ghost use Rattle.put_words.specs.Puts.{Made, put_of};
ghost use Rattle.sp_model.specs.Plans.{IsPlan};
ghost use Rattle.sp_model.specs.declared.run.Run.{Run};

/// Where the values of a put agree, the points that it was made from are a plan.
pub fn agreed_points_are_a_plan()
    ensures { (run : Run) (k : ℕ) (made : Made) → put_of run k ≡ Some made →
        AreAgreed run made.put.x → IsPlan run made.plan }
{}
