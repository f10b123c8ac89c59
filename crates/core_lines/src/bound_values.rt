use dec_core::Decimal;

/// What a value of a bound says: that there is no bound on that side, above or
/// below, or a number.
#[derive(Clone, Copy, Debug, Drop, PartialEq, Eq)]
pub enum BoundValue {
    Endless { negative: bool },
    Finite(Decimal),
}
