//! Why a text is refused.

/// The first thing that is wrong with the text of an amount, in this order.
#[derive(Clone, Copy)]
pub enum AmountFault {
    /// It doesn't begin with a digit.
    NotANumber,
    /// What follows the number is no unit of this reader.
    UnknownUnit,
    /// It has more than 20 digits before the exponent or more than 3 in it, or a value above the greatest.
    TooLarge,
}
