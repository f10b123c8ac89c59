ghost use Rattle.std.specs.Prelude.{◌≡◌};

use crate::problems::{Row, problem};
use boxed_problem::{Boxed, Side};
use propagate::{Empty, Sparse, Trail, TrailFault, sparse_of, tighten, tighten_on, trail_of};
use std::alloc::{AllocError, Global};
use std::process::Abort;
use std::test::Fail;
use wide_num::List;

/// The ends of a column.
type Ends = (i64, i64);

/// The problem of two columns with these ends and no objective, and one row
/// with these entries and limits.
fn one_row(
    alloc: Global,
    columns: [Ends; 2],
    entries: [i128; 2],
    limits: Row,
) -> Result<Option<Boxed>, AllocError> {
    let cells = [(0, 0, entries[0]), (0, 1, entries[1])];
    problem(alloc, &columns, &[limits], &cells, 0, &[(0, 0), (0, 0)])
}

/// Narrows a column to these ends.
fn narrow(
    rt: &impl Abort,
    trail: &mut Trail,
    sparse: &Sparse,
    column: u32,
    ends: Ends,
) -> Result<(), AllocError>
    requires { sparse.now ≡ trail.old.sparse.value }
    ensures { trail.new.sparse.value ≡ trail.old.sparse.value }
{
    let (lower, upper) = ends;
    assert!(rt; (column as usize) < trail.sides.len());
    let present = trail.sides.as_slice()[column as usize];
    assert!(rt; present.lower <= lower);
    assert!(rt; lower <= upper);
    assert!(rt; upper <= present.upper);
    trail.narrow(sparse, column, Side { lower, upper })
}

/// Goes back to a mark.
fn undo(rt: &impl Abort, trail: &mut Trail, sparse: &Sparse, mark: usize)
    requires { sparse.now ≡ trail.old.sparse.value }
    ensures { trail.new.sparse.value ≡ trail.old.sparse.value }
{
    assert!(rt; mark < trail.marks.len());
    trail.undo(sparse, mark);
}

/// The range of the only row.
fn range(rt: &impl Abort, trail: &Trail, sparse: &Sparse) -> (i128, i128)
    requires { sparse.now ≡ trail.now.sparse.value }
{
    assert!(rt; sparse.rows.len() > 0);
    trail.range(0)
}

/// The ends of a column on a trail.
fn ends(rt: &impl Abort, sides: &List<Side>, column: usize) -> Ends {
    assert!(rt; column < sides.len());
    let side = sides.as_slice()[column];
    (side.lower, side.upper)
}

#[test]
fn gives_back_sides_and_ranges(rt: HostRuntime) -> Result<(), Fail> {
    let found = one_row(rt.alloc(), [(0, 10), (0, 10)], [1, 1], (Some(6), None))?;
    let need = found.expect(&rt, "a problem");
    let sparse = sparse_of(rt.alloc(), &need)?;
    let mut trail = trail_of(rt.alloc(), &need, &sparse)?;
    assert_eq!(rt; range(&rt, &trail, &sparse), (0, 20));
    let first = trail.mark()?;
    narrow(&rt, &mut trail, &sparse, 0, (3, 5))?;
    let second = trail.mark()?;
    assert_eq!(rt; (first, second), (0, 1));
    narrow(&rt, &mut trail, &sparse, 1, (0, 0))?;
    assert_eq!(rt; range(&rt, &trail, &sparse), (3, 5));
    undo(&rt, &mut trail, &sparse, second);
    assert_eq!(rt; range(&rt, &trail, &sparse), (3, 15));
    assert_eq!(rt; tighten_on(&mut trail, &need, &sparse), Ok(()));
    assert_eq!(rt; ends(&rt, trail.sides(), 1), (1, 10));
    undo(&rt, &mut trail, &sparse, first);
    assert_eq!(rt; ends(&rt, trail.sides(), 0), (0, 10));
    assert_eq!(rt; range(&rt, &trail, &sparse), (0, 20));
    Ok(())
}

/// The problem's box tightened as a list; whether no row was answered.
fn tightened(alloc: Global, problem: &Boxed) -> Result<(bool, List<Side>), AllocError> {
    let mut sides = List::from_slice(alloc, problem.columns.as_slice())?;
    let answer = tighten(problem, &mut sides);
    Ok((answer != Err(Empty { row: 0 }), sides))
}

/// The problem's box tightened on a trail.
fn tightened_on(alloc: Global, problem: &Boxed) -> Result<(bool, Trail), AllocError> {
    let sparse = sparse_of(alloc, problem)?;
    let mut trail = trail_of(alloc, problem, &sparse)?;
    let answer = tighten_on(&mut trail, problem, &sparse);
    Ok((answer != Err(TrailFault::Empty { row: 0 }), trail))
}

#[test]
fn tightens_by_both_limits(rt: HostRuntime) -> Result<(), Fail> {
    let cases = [
        (
            [(0, 9), (0, 9)],
            [2, 3],
            (None, Some(7)),
            true,
            (0, 3),
            (0, 2),
        ),
        (
            [(0, 9), (0, 9)],
            [2, -3],
            (None, Some(-10)),
            true,
            (0, 8),
            (4, 9),
        ),
        (
            [(-5, 5), (-5, 5)],
            [4, -4],
            (Some(30), None),
            true,
            (3, 5),
            (-5, -3),
        ),
        (
            [(0, 9), (0, 9)],
            [0, 5],
            (Some(11), Some(19)),
            true,
            (0, 9),
            (3, 3),
        ),
        ([(0, 9), (2, 2)], [1, 1], (None, None), true, (0, 9), (2, 2)),
        (
            [(0, 9), (0, 9)],
            [1, 1],
            (Some(19), None),
            false,
            (0, 9),
            (0, 9),
        ),
    ];
    for (columns, entries, limits, some, first, second) in cases {
        let found = one_row(rt.alloc(), columns, entries, limits)?;
        let row = found.expect(&rt, "a problem");
        let (on_list, sides) = tightened(rt.alloc(), &row)?;
        let (on_trail, trail) = tightened_on(rt.alloc(), &row)?;
        assert_eq!(rt;
            (on_list, on_trail),
            (some, some),
            "{columns:?} {entries:?}"
        );
        assert_eq!(rt; ends(&rt, &sides, 0), first, "{columns:?} {entries:?}");
        assert_eq!(rt; ends(&rt, &sides, 1), second, "{columns:?} {entries:?}");
        assert_eq!(rt;
            ends(&rt, trail.sides(), 0),
            first,
            "{columns:?} {entries:?}"
        );
        assert_eq!(rt;
            ends(&rt, trail.sides(), 1),
            second,
            "{columns:?} {entries:?}"
        );
    }
    Ok(())
}
