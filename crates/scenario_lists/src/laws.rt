ghost use Rattle.std.specs.Prelude.{◌≡◌, ◌↔◌, ℕ, ◌+◌, ◌<◌, ◌≤◌, List, false, length, map, max, slice_index_or};
ghost use Rattle.std.specs.List.{AllPairs, range_with_len};
ghost use Rattle.stoch_lines.specs.Places.{same_place};
ghost use Rattle.stoch_lines.specs.declared.places.StochEntry.{StochEntry};
ghost use Rattle.smps_stoch.specs.StochFacts.{no_branch};
ghost use Rattle.smps_stoch.specs.declared.stoch.Branch.{Branch};
ghost use Rattle.smps_stoch.specs.declared.stoch.Element.{Element};
ghost use Rattle.smps_stoch.specs.declared.stoch.Stoch.{Stoch};
ghost use Rattle.smps_stoch.specs.declared.stoch.Stoch.TheVariants.{Scenarios};
ghost use Rattle.tree_core.specs.Marks.{AreNested, mark_of};
ghost use Rattle.scenario_lists.specs.Combinations.{Agree, all_choices, choices_of, combinations, mark_in};
ghost use Rattle.scenario_lists.specs.Distinct.{first_of_each};
ghost use Rattle.scenario_lists.specs.Nesting.{HavePeriods};
ghost use Rattle.scenario_lists.specs.ScenarioList.{HaveAllParents, HaveParents, count_of, inherited_mark, marks_of};

/// The combinations, by their numbers, are all choices in order: those that
/// begin with the first realisation of the first element, then those that begin
/// with its second, and so on.
pub fn combinations_in_order()
    ensures { (elements : List Element) →
        map (choices_of elements) (range_with_len 0 (combinations elements))
        ≡ all_choices elements }
{}

/// Two combinations have the same mark at a stage exactly where they choose the
/// same realisation in every element of a period up to it.
pub fn marks_of_agreeing()
    ensures { (elements : List Element) (t s u : ℕ) → s < combinations elements →
        u < combinations elements →
        (mark_in elements (choices_of elements s) t ≡ mark_in elements (choices_of elements u) t)
        ↔ Agree elements (choices_of elements s) (choices_of elements u) t }
{}

/// No two entries of a scenario are of one place.
pub fn places_differ()
    ensures { (entries : List StochEntry) →
        AllPairs (λ e f. same_place e.place f.place ≡ false) (first_of_each entries) }
{}

/// Scenarios that have the same mark at a stage have the same one at the stage
/// before, and no two have the same mark at the last stage. There is one list of
/// marks for each scenario.
pub fn marks_branch()
    ensures nested { (stages : ℕ) (stoch : Stoch) → HaveAllParents stoch →
        AreNested stages (marks_of stages stoch) }
    ensures apart { (stages : ℕ) (stoch : Stoch) → 1 ≤ stages → HavePeriods stages stoch → (s u : ℕ)
        → s < count_of stoch → u < count_of stoch →
        mark_of (marks_of stages stoch) stages s ≡ mark_of (marks_of stages stoch) stages u
        → s ≡ u }
    ensures long { (stages : ℕ) (stoch : Stoch) → length (marks_of stages stoch) ≡ count_of stoch }
{}

/// The mark of a listed scenario at a stage is its number, counted from 1, from its
/// period on, which counts as the second at least; before that it is its parent's
/// mark at the stage, and 0 where the parent is the core.
pub fn marks_are_own_or_parents()
    ensures own { (stages : ℕ) (branches : List Branch) (t k : ℕ) → HaveParents branches → 1 ≤ t →
        t ≤ stages → k < length branches → max 2 (slice_index_or branches k no_branch).period ≤ t
        → mark_of (marks_of stages (Scenarios branches)) t k ≡ k + 1 }
    ensures parents { (stages : ℕ) (branches : List Branch) (t k : ℕ) → HaveParents branches → 1 ≤ t
        → t ≤ stages → k < length branches → t < max 2 (slice_index_or branches k no_branch).period
        → mark_of (marks_of stages (Scenarios branches)) t k
        ≡ inherited_mark (marks_of stages (Scenarios branches))
        (slice_index_or branches k no_branch).parent t }
{}
