ghost use Rattle.std.specs.Prelude.{◌≡◌, IfOk};
ghost use Rattle.wide_num.specs.FractionText.{fraction_text};

use crate::items::{List, Text};
use itoa::Buffer;
use std::alloc::{AllocError, Global};

/// A quotient of two whole numbers. Calls that need it to be in lowest terms,
/// or its bottom to be above 0, say so.
#[derive(Clone, Copy, Debug, Drop, PartialEq, Eq)]
pub struct Fraction {
    pub top: i128,
    pub bottom: i128,
}

impl Fraction {
    /// The text of the fraction in decimal digits, with `-` before a negative
    /// number: the top alone where the bottom is 1, else `top/bottom`.
    pub fn text(&self, alloc: Global) -> Result<Text, AllocError>
        ensures { IfOk result (λ text. text ≡ fraction_text self.now) }
    {
        let mut buffer = Buffer::new();
        let mut text = Vec::new(alloc);
        text.extend_from_slice(buffer.format(self.top).as_bytes())?;
        if self.bottom != 1 {
            text.push(b'/')?;
            text.extend_from_slice(buffer.format(self.bottom).as_bytes())?;
        }
        Ok(List::from_vec(text))
    }
}
