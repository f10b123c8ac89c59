ghost use Rattle.std.specs.Prelude.{◌≡◌, ◌<◌, ◌≤◌, ◌≤ℤ◌, pos, IfOk, length};
ghost use Rattle.std.specs.List.{All};
ghost use Rattle.base_words.specs.Signs.{limit_size};
ghost use Rattle.smps_words.specs.CoreFacts.{max_end};
ghost use Rattle.smps_words.specs.declared.core_data.CoreColumn.{CoreColumn};
ghost use Rattle.join_words.specs.Boxes.{boxes_of, filled, is_idle, is_zero};

use boxed_problem::Side;
use smps_words::CoreColumn;
use sp_model::MAX_BOX_END;
use std::alloc::{AllocError, Global};
use std::cmp;
use wide_num::List;

// The box of these ends: a missing one lies so far from the other.
fn filled(missing: i64, lower: Option<i64>, upper: Option<i64>) -> Side
    requires some { pos 1 ≤ℤ missing }
    requires most { missing ≤ℤ pos max_end }
    requires lower { limit_size lower ≤ max_end }
    requires upper { limit_size upper ≤ max_end }
    ensures { result ≡ filled missing lower upper }
{
    match (lower, upper) {
        (Some(lower), Some(upper)) => Side { lower, upper },
        (Some(lower), None) => Side {
            lower,
            upper: cmp::min(lower + missing, MAX_BOX_END),
        },
        (None, Some(upper)) => Side {
            lower: cmp::max(upper - missing, -MAX_BOX_END),
            upper,
        },
        (None, None) => Side {
            lower: -missing,
            upper: missing,
        },
    }
}

/// The boxes of all columns, with missing ends filled in.
pub fn boxes(alloc: Global, columns: &[CoreColumn], missing: i64) -> Result<List<Side>, AllocError>
    requires some { pos 1 ≤ℤ missing }
    requires most { missing ≤ℤ pos max_end }
    requires lowers { All (λ (c : CoreColumn). limit_size c.lower ≤ max_end) columns.now }
    requires uppers { All (λ (c : CoreColumn). limit_size c.upper ≤ max_end) columns.now }
    ensures { IfOk result (λ sides. sides ≡ boxes_of missing columns.now) }
{
    let mut sides = List::new(alloc);
    for column in columns {
        sides.push(filled(missing, column.lower, column.upper))?;
    }
    Ok(sides)
}

// Whether a box is the single 0.
fn is_zero(side: &Side) -> bool
    ensures { result ≡ is_zero side.now }
{
    side.lower == 0 && side.upper == 0
}

/// Whether a column's box is the single 0, so that its cost and its entries
/// leave the run.
pub fn is_idle(sides: &List<Side>, j: usize) -> bool
    requires { j < length sides.now }
    ensures { result ≡ is_idle sides.now j }
{
    is_zero(&sides.as_slice()[j])
}
