ghost use Rattle.std.specs.Prelude.{◌≡◌};
ghost use Rattle.boxed_problem.specs.Data.{problem_of};
ghost use Rattle.boxed_problem.specs.BoxedFacts.{IsBoxed};
ghost use Rattle.put_words.specs.Objectives.{with_line, with_objective};

use boxed_problem::Boxed;
use wide_num::List;

/// A problem with another objective, where that fits.
pub fn with_objective(problem: Boxed, constant: i128, line: List<i128>, square: List<i128>) -> Boxed
    requires { IsBoxed problem.columns problem.rows problem.entries constant line square }
    ensures { problem_of result ≡ with_objective (problem_of problem) constant line square }
{
    let Boxed {
        columns,
        rows,
        entries,
        ..
    } = problem;
    Boxed {
        columns,
        rows,
        entries,
        constant,
        line,
        square,
    }
}

/// A problem with another line, where that fits.
pub fn with_line(problem: Boxed, line: List<i128>) -> Boxed
    requires { IsBoxed problem.columns problem.rows problem.entries problem.constant line
        problem.square }
    ensures { problem_of result ≡ with_line (problem_of problem) line }
{
    let Boxed {
        columns,
        rows,
        entries,
        constant,
        square,
        ..
    } = problem;
    Boxed {
        columns,
        rows,
        entries,
        constant,
        line,
        square,
    }
}
