ghost use Rattle.std.specs.Prelude.{◌≡◌, ℕ, List};
ghost use Rattle.std.specs.Str.Parse.{digits_value};
ghost use Rattle.dec_core.specs.Spelling.{Spelling};
ghost use Rattle.dec_core.specs.DecimalValue.{HasOneValue, IsValue, IsNormal, decimal_of, mantissa_of, places_of};

use crate::decimal::Decimal;

/// Each spelling has exactly one value with the fewest places, the one by which
/// `decimal_of` is defined. The value of digits that are all 0 is (0, 0). What a
/// text is read as is within the limits, and has no place that isn't needed.
pub fn one_value()
    ensures found { (s : Spelling) → IsValue s (mantissa_of s) (places_of s) }
    ensures only { (s : Spelling) → HasOneValue s }
    ensures zero { (s : Spelling) → digits_value 10 s.digits ≡ 0 → IsValue s 0 0 }
    ensures normal { (text : List ℕ) (d : Decimal) → decimal_of text ≡ Ok d → IsNormal d }
{}
