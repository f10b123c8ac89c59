ghost use Rattle.std.specs.Prelude.{◌≡◌, ℕ, List, None, Some, false, ◌↔◌};
ghost use Rattle.std.specs.List.{All, Contains};
ghost use Rattle.dec_core.specs.declared.decimal.Decimal.{Decimal};
ghost use Rattle.smps_words.specs.TextLines.{TextLine};
ghost use Rattle.smps_words.specs.declared.core_file.Core.{Core};
ghost use Rattle.smps_words.specs.declared.periods.Periods.{Periods};
ghost use Rattle.stoch_lines.specs.Before.{before_of, entries_of, realisations_of, sayings_of};
ghost use Rattle.stoch_lines.specs.Places.{same_place};
ghost use Rattle.stoch_lines.specs.declared.places.StochEntry.{StochEntry};
ghost use Rattle.stoch_lines.specs.declared.places.StochPlace.{StochPlace};
ghost use Rattle.smps_stoch.specs.LawWords.{first_entries, value_in, value_at_place, AreByElement, AreByName, AreClean, IsOnLine, LastTellsAll};
ghost use Rattle.smps_stoch.specs.StochData.{entries_at};
ghost use Rattle.smps_stoch.specs.StochFacts.{EntryFacts};
ghost use Rattle.smps_stoch.specs.declared.stoch.Element.{Element};
ghost use Rattle.smps_stoch.specs.declared.stoch.Realisation.{Realisation};

/// A law, not a call: where no line of a file has a fault or ends it, a
/// realisation or scenario has exactly the entries of those lines up to which it
/// is the last one begun. A line of INDEP begins the realisation of its entry.
pub fn entries_are_own()
    ensures { (core : Core) (periods : Periods) (lines : List TextLine) (k : ℕ) (entry : StochEntry)
        → AreClean core periods lines →
        Contains (entries_at (entries_of core periods lines) k) entry
        ↔ IsOnLine core periods lines k entry }
{}

/// A law, not a call: two lines belong to one element exactly where they have
/// the same place or the same block, and they have the same block exactly where
/// they name the same one. Each line that says something of an element begins one
/// realisation, and elements are numbered in order of first appearance.
pub fn lines_are_by_element()
    ensures elements { (core : Core) (periods : Periods) (lines : List TextLine) →
        AreByElement (sayings_of core periods lines) (realisations_of core periods lines) }
    ensures blocks { (lines : List TextLine) → AreByName lines }
{}

/// A law, not a call: before any line whose earlier lines have no fault, a place
/// is taken where any entry of it is of another element, and given where any entry
/// of it is of the realisation or the scenario that has begun last.
pub fn last_entries_tell_all()
    ensures { (core : Core) (periods : Periods) (lines : List TextLine) →
        AreClean core periods lines → LastTellsAll (before_of core periods lines) }
{}

/// A law, not a call: the value of a place in a realisation is that of its one
/// entry, or else that of the element's first realisation. Entries none of which
/// is of the place have no value of it.
pub fn values_are_own_or_first()
    ensures own { (core : Core) (entries : List StochEntry) (entry : StochEntry) →
        EntryFacts core entries → Contains entries entry
        → value_at_place entry.place entries ≡ Some entry.value }
    ensures none { (entries : List StochEntry) (place : StochPlace) →
        All (λ e. same_place e.place place ≡ false) entries
        → value_at_place place entries ≡ None }
    ensures given { (element : Element) (realisation : Realisation) (place : StochPlace)
        (value : Decimal) → value_at_place place realisation.entries ≡ Some value
        → value_in element realisation place ≡ Some value }
    ensures first { (element : Element) (realisation : Realisation) (place : StochPlace) →
        value_at_place place realisation.entries ≡ None
        → value_in element realisation place ≡ value_at_place place (first_entries element) }
{}
