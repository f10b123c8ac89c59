ghost use Rattle.std.specs.Prelude.{◌≡◌, ℕ, List};
ghost use Rattle.std.specs.List.{concat};
ghost use Rattle.run_log.specs.declared.log.Log.{Log};
ghost use Rattle.run_text.specs.Bodies.{IsBody};
ghost use Rattle.run_text.specs.Telling.{IsOfTypes, TellTheSame};
ghost use Rattle.sp_model.specs.declared.run.Run.{Run};

/// Two logs with the same bytes have the same events, the same end and the same pairs of
/// bounds, whatever their runs, where their numbers are of their types.
pub fn same_text_same_pairs()
    ensures { (run other_run : Run) (log other : Log) (lines others : List (List ℕ))
        → IsOfTypes log → IsOfTypes other → IsBody run log lines → IsBody other_run other others
        → concat lines ≡ concat others → TellTheSame log other }
{}
