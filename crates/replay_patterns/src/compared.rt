// What is compared: each by the name of its function.
use std::fmt;

#[derive(Clone, Copy, Debug, PartialEq, Eq)]
pub enum Compared {
    IsDigits,
    IsAlpha,
    IsDouble,
    IsCommaInt,
    IsOrdinal,
    IsUsMoney,
    IsIllion,
    IsRoman,
    IsDrOrSt,
    IsNumberS,
    IsLeadingZeroDigits,
    IsSevenDigitPhone,
    IsTime,
    IsDottedAbbrev,
    IsDigitsSlashDigits,
    IsDigitsDashDigits,
    IsNDigits,
    SplitTimeMeridiem,
    SplitUnit,
    UnitWord,
}

impl fmt::Display for Compared {
    fn fmt<W: fmt::Write>(&self, f: &mut fmt::Formatter<W>) -> fmt::Result {
        f.write_str(match self {
            Compared::IsDigits => "is_digits",
            Compared::IsAlpha => "is_alpha",
            Compared::IsDouble => "is_double",
            Compared::IsCommaInt => "is_comma_int",
            Compared::IsOrdinal => "is_ordinal",
            Compared::IsUsMoney => "is_us_money",
            Compared::IsIllion => "is_illion",
            Compared::IsRoman => "is_roman",
            Compared::IsDrOrSt => "is_dr_or_st",
            Compared::IsNumberS => "is_number_s",
            Compared::IsLeadingZeroDigits => "is_leading_zero_digits",
            Compared::IsSevenDigitPhone => "is_seven_digit_phone",
            Compared::IsTime => "is_time",
            Compared::IsDottedAbbrev => "is_dotted_abbrev",
            Compared::IsDigitsSlashDigits => "is_digits_slash_digits",
            Compared::IsDigitsDashDigits => "is_digits_dash_digits",
            Compared::IsNDigits => "is_n_digits",
            Compared::SplitTimeMeridiem => "split_time_meridiem",
            Compared::SplitUnit => "split_unit",
            Compared::UnitWord => "unit_word",
        })
    }
}
