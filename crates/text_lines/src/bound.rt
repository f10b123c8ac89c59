ghost use Rattle.std.specs.Prelude.{◌≡◌, ◌++◌, ◌<ℤ◌, ◌^◌, pos, neg_ℤ, codes, IfOk};
ghost use Rattle.std.specs.Fmt.{signed_decimal};
ghost use Rattle.wide_num.specs.FractionText.{fraction_text};
ghost use Rattle.text_lines.specs.BoundLines.{IsBoundText, bound_lines_of};
ghost use Rattle.text_lines.specs.Lines.{AreFull, line_of};

use crate::writing::{end_line, fixed_line, put_number};
use std::alloc::{AllocError, Global};
use wide_num::{Fraction, List, Text, reduce};

fn first_line(alloc: Global, bound: i128) -> Result<Text, AllocError>
    ensures { IfOk result
        (λ text. text ≡ line_of (codes "first " ++ signed_decimal bound ++ codes " none")) }
{
    let mut line = Vec::new(alloc);
    put_number(&mut line, b"first ", bound)?;
    line.extend_from_slice(b" none")?;
    end_line(line)
}

fn lower_line(alloc: Global, bound: i128, value: &Fraction) -> Result<Text, AllocError>
    ensures { IfOk result
        (λ text. text
        ≡ line_of
        (codes "lower " ++ signed_decimal bound ++ codes " = " ++ fraction_text value.now)) }
{
    let text = value.text(alloc)?;
    let mut line = Vec::new(alloc);
    put_number(&mut line, b"lower ", bound)?;
    line.extend_from_slice(b" = ")?;
    line.extend_from_slice(text.as_slice())?;
    end_line(line)
}

// The lines of a bound with this value.
fn lines_of_bound(alloc: Global, bound: i128, value: &Fraction) -> Result<List<Text>, AllocError>
    ensures exact { IfOk result (λ lines. lines ≡ bound_lines_of bound value.now) }
    ensures full { IfOk result (λ lines. AreFull lines) }
{
    let mut lines = List::new(alloc);
    lines.push(first_line(alloc, bound)?)?;
    lines.push(lower_line(alloc, bound, value)?)?;
    lines.push(fixed_line(alloc, b"upper none")?)?;
    Ok(lines)
}

/// The three lines of a lower bound: the first pair, the bound and its value
/// bound/unit in lowest terms, and that there is no upper bound. The unit is
/// above 0, the bound above `i128::MIN`.
pub fn bound_lines(alloc: Global, bound: i128, unit: i128) -> Result<List<Text>, AllocError>
    requires above { pos 0 <ℤ unit }
    requires fits { neg_ℤ (pos (2 ^ 127)) <ℤ bound }
    ensures exact { IfOk result (λ lines. IsBoundText bound unit lines) }
    ensures full { IfOk result (λ lines. AreFull lines) }
{
    let value = reduce(bound, unit);
    lines_of_bound(alloc, bound, &value)
}
