// What is compared: six readings that give words, and one that gives a value.
use std::fmt;

#[derive(Clone, Copy, Debug, PartialEq, Eq)]
pub enum Compared {
    Cardinal,
    Ordinal,
    Year,
    Digits,
    Real,
    Letters,
    RomanValue,
}

impl fmt::Display for Compared {
    fn fmt<W: fmt::Write>(&self, f: &mut fmt::Formatter<W>) -> fmt::Result {
        f.write_str(match self {
            Compared::Cardinal => "cardinal",
            Compared::Ordinal => "ordinal",
            Compared::Year => "year",
            Compared::Digits => "digits",
            Compared::Real => "real",
            Compared::Letters => "letters",
            Compared::RomanValue => "roman_value",
        })
    }
}
