//! Faults of a text, each with its place.
ghost use Rattle.std.specs.Prelude.{◌≡◌};
ghost use Rattle.sg_toml_tree.specs.Faults.{kind_words};

/// Which rule a text breaks. At one place the earlier kind is reported.
#[derive(Clone, Copy)]
pub enum Kind {
    /// A key that must be there is missing.
    MissingKey,
    /// A value isn't of its type.
    WrongType,
    /// A text or a number isn't a value of its key.
    BadValue,
    /// A name isn't 1 to 64 letters, digits, underscores, points and hyphens.
    BadName,
    /// An earlier row took the name or the pair.
    Duplicate,
    /// There is no such name, or no such key or table.
    Unknown,
    /// There are more rows or items, or a longer text, than the limit.
    Limit,
    /// An actor's function isn't known.
    Function,
    /// An actor's arguments don't fit its function.
    Arguments,
}

impl Kind {
    /// Returns the rule that is broken, in words.
    pub fn words(self) -> &'static str
        ensures { result.now ≡ kind_words self }
    {
        match self {
            Kind::MissingKey => "missing key",
            Kind::WrongType => "wrong type",
            Kind::BadValue => "bad value",
            Kind::BadName => "bad name",
            Kind::Duplicate => "duplicate",
            Kind::Unknown => "unknown name",
            Kind::Limit => "over a limit",
            Kind::Function => "unknown function",
            Kind::Arguments => "bad arguments",
        }
    }
}

/// A place in a text: tables, rows and keys count from 1. Key 0 is the row as a whole, row 0 the table as a
/// whole, and table 0 the text as a whole.
#[derive(Clone, Copy, Debug)]
pub struct Place {
    pub table: u32,
    pub row: u32,
    pub key: u32,
}

/// A rule that is broken at a place.
#[derive(Clone, Copy)]
pub struct Fault {
    pub place: Place,
    pub kind: Kind,
}
