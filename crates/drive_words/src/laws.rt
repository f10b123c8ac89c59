ghost use Rattle.std.specs.Prelude.{◌≡◌, ℕ, ℤ, List, Option};
ghost use Rattle.drive_words.specs.Leading.{AreRising, ClosesBehind, LeadTo, all_asks};
ghost use Rattle.drive_words.specs.Driving.{Cuts, IsDriven, cuts_of, last_world};
ghost use Rattle.drive_words.specs.Resting.{IsAtRest};
ghost use Rattle.drive_words.specs.Steps.{step};
ghost use Rattle.drive_words.specs.Worlds.{World, first_world};
ghost use Rattle.run_log.specs.Runs.{IsRun};
ghost use Rattle.run_log.specs.declared.log.Log.{Log};
ghost use Rattle.schedule_lines.specs.declared.schedule.Actor.{Actor};
ghost use Rattle.schedule_lines.specs.declared.schedule.Turn.{Turn};
ghost use Rattle.sp_model.specs.declared.run.Run.{Run};

/// Two logs of one schedule with the same first bound, in which the same searches are
/// spent, are the same.
pub fn same_words_same_log()
    ensures { (run : Run) (turns : List Turn) (log other : Log) → log.first ≡ other.first
        → cuts_of log ≡ cuts_of other → IsDriven run turns log → IsDriven run turns other
        → log ≡ other }
{}

/// The rounds behind a schedule are enough: behind the last of them the run has ended, the
/// hub has stopped, and each spoke has ended.
pub fn rounds_are_enough()
    ensures { (run : Run) (first : ℤ) (turns : List Turn) (cuts : Cuts)
        → IsAtRest (last_world run first turns cuts) }
{}

/// Then no actor has a step.
pub fn none_steps_at_rest()
    ensures { (run : Run) (first : ℤ) (w : World) (spent : Option ℕ) (actor : Actor)
        → IsAtRest w → step run first w spent actor ≡ w }
{}

/// Steps that were made as a schedule and all rounds behind it ask, whatever came of their
/// searches, lead to where no actor has a step.
pub fn steps_lead_to_rest()
    ensures { (run : Run) (first : ℤ) (turns : List Turn) (w : World)
        → LeadTo run first (all_asks run turns) (first_world run) w → AreRising w → IsAtRest w }
{}

/// The log of a run that is closed there is the one that the schedule gives.
pub fn closed_log_is_driven()
    ensures { (run : Run) (turns : List Turn) (w : World) (log : Log)
        → LeadTo run log.first (all_asks run turns) (first_world run) w → AreRising w
        → ClosesBehind run w log → IsRun run log → IsDriven run turns log }
{}
