// What is compared: the verdict, the whole sheet's call, each entry's call, and the call of an entry that is not there.
use std::fmt;

#[derive(Clone, Copy, Debug, PartialEq, Eq)]
pub enum Compared {
    IsClear,
    CallSheet,
    CallEntry,
    CallNoEntry,
}

impl fmt::Display for Compared {
    fn fmt<W: fmt::Write>(&self, f: &mut fmt::Formatter<W>) -> fmt::Result {
        f.write_str(match self {
            Compared::IsClear => "is_clear",
            Compared::CallSheet => "call_sheet",
            Compared::CallEntry => "call_entry",
            Compared::CallNoEntry => "call_no_entry",
        })
    }
}
