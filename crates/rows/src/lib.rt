// An entry's record: its row and, for row 8, its sign, with their numbers. Which row takes a name is a definition, in
// specs/Rows.antt.
#![tactic(auto)]

ghost use Rattle.std.specs.Prelude.{◌≡◌};
ghost use Rattle.rows.specs.Rows.{sign_number, sign_value, row_number, row_sign};

// The sign of a number, and its value.
#[derive(Clone, Copy, Debug, PartialEq, Eq)]
pub enum Sign {
    Plus = 1,
    Minus = 2,
}

// The rows, in their order.
#[derive(Clone, Copy, Debug, PartialEq, Eq)]
pub enum Row {
    Empty,
    Dotted,
    CommaInt,
    Time,
    Meridiem,
    Range,
    Fraction,
    LeadingZero,
    Digits,
    Figure(Sign),
    Ordinal,
    Percent,
    Unit,
    OneWord,
}

// An entry's record.
#[derive(Clone, Copy, Debug, PartialEq, Eq)]
pub struct Entry {
    pub row: Row,
}

impl From<Sign> for u8 {
    ghost from_gives = { λ sign n. n ≡ sign_number sign };

    fn from(sign: Sign) -> u8 {
        sign as u8
    }
}

// By a match, because `as` gives no number of an enum with a case that has a field.
impl From<Row> for u8 {
    ghost from_gives = { λ row n. n ≡ row_number row };

    fn from(row: Row) -> u8 {
        match row {
            Row::Empty => 1,
            Row::Dotted => 2,
            Row::CommaInt => 3,
            Row::Time => 4,
            Row::Meridiem => 5,
            Row::Range => 13,
            Row::Fraction => 14,
            Row::LeadingZero => 6,
            Row::Digits => 7,
            Row::Figure(_) => 8,
            Row::Ordinal => 9,
            Row::Percent => 10,
            Row::Unit => 11,
            Row::OneWord => 12,
        }
    }
}

impl Row {
    // The sign of the row: only row 8 has one.
    pub fn sign(self) -> Option<Sign>
        ensures { sign_value result ≡ row_sign self }
    {
        match self {
            Row::Figure(sign) => Some(sign),
            _ => None,
        }
    }
}
