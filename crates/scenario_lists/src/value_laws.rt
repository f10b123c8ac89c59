ghost use Rattle.std.specs.Prelude.{◌≡◌, ◌<◌, ◌*◌, ℕ, List, [], ◌∷◌, length, map, slice_index_or};
ghost use Rattle.std.specs.List.{range_with_len, sum_by};
ghost use Rattle.std.specs.Option.{option_or};
ghost use Rattle.base_words.specs.FirstAnswers.{first_some};
ghost use Rattle.stoch_lines.specs.declared.places.StochPlace.{StochPlace};
ghost use Rattle.smps_stoch.specs.LawWords.{value_at_place};
ghost use Rattle.smps_stoch.specs.StochFacts.{no_branch};
ghost use Rattle.smps_stoch.specs.declared.stoch.Branch.{Branch};
ghost use Rattle.smps_stoch.specs.declared.stoch.Element.{Element};
ghost use Rattle.smps_stoch.specs.StochData.{no_realisation};
ghost use Rattle.scenario_lists.specs.Combinations.{choices_of, combinations};
ghost use Rattle.scenario_lists.specs.ScenarioList.{HaveParents, scenario_in, weight_in};
ghost use Rattle.scenario_lists.specs.Values.{chosen_value, listed_value, parent_value, size_of, sums_product};

/// A law, not a call: the value of a place in a listed scenario is that of its own
/// entry, or else its parent's value, and none where the parent is the core.
pub fn values_are_own_or_parents()
    ensures { (branches : List Branch) (k : ℕ) (place : StochPlace) →
        HaveParents branches → k < length branches →
        listed_value branches place k
        ≡ option_or (value_at_place place (slice_index_or branches k no_branch).entries)
        (parent_value branches place (slice_index_or branches k no_branch).parent) }
{}

/// A law, not a call: the value of a place in the scenario of some choices is that
/// of the first element that gives one: in the chosen realisation, or else in the
/// element's first realisation. It is none where no element gives one.
pub fn values_are_chosen_or_first()
    ensures { (elements : List Element) (choices : List ℕ) (place : StochPlace) →
        value_at_place place (scenario_in elements choices).entries
        ≡ first_some (chosen_value elements choices place)
        (range_with_len 0 (length elements)) }
{}

/// A law, not a call: the weight of some choices is the product of the weights of
/// what they choose, and the weights of all combinations add up to the product of
/// the elements' sums of weights.
pub fn weights_multiply()
    ensures none { weight_in [] [] ≡ 1 }
    ensures each { (element : Element) (elements : List Element) (choice : ℕ) (choices : List ℕ) →
        weight_in (element ∷ elements) (choice ∷ choices)
        ≡ size_of (slice_index_or element.realisations choice no_realisation)
        * weight_in elements choices }
    ensures all { (elements : List Element) →
        sum_by (weight_in elements)
        (map (choices_of elements) (range_with_len 0 (combinations elements)))
        ≡ sums_product elements }
{}
