/// The number `mantissa / 10^places`.
#[derive(Clone, Copy, Debug, Drop, PartialEq, Eq)]
pub struct Decimal {
    pub mantissa: i128,
    pub places: u8,
}

/// Why a text has no decimal.
#[derive(Clone, Copy, Debug, Drop, PartialEq, Eq)]
pub enum DecFault {
    /// The text isn't spelled as a number.
    NotNumber,
    /// The number needs more than nine decimal places.
    TooManyPlaces,
    /// The number needs at most nine decimal places, and a mantissa of a
    /// magnitude above 10^36.
    TooLarge { negative: bool },
}
