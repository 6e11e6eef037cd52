//! Laws of the readers.
ghost use Rattle.std.specs.Prelude.{◌<◌, ℕ, List, length};
ghost use Rattle.sg_units.specs.Number.{digits, number_of};
ghost use Rattle.sg_units.specs.NumberText.{IsLongestNumber};

/// The number of a text that begins with a digit is the longest front of the text that writes a number.
pub fn number_is_longest()
    ensures { (text : List ℕ) → 0 < length (digits text) → IsLongestNumber text (number_of text) }
{}
