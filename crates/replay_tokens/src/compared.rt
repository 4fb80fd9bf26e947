// What is compared: two calls, the steps of a text, and the text as a part of a step.
use std::fmt;

#[derive(Clone, Copy, Debug, PartialEq, Eq)]
pub enum Compared {
    Tokenize,
    Sentences,
    Push,
    PushOfText,
}

impl fmt::Display for Compared {
    fn fmt<W: fmt::Write>(&self, f: &mut fmt::Formatter<W>) -> fmt::Result {
        f.write_str(match self {
            Compared::Tokenize => "tokenize",
            Compared::Sentences => "sentences",
            Compared::Push => "push",
            Compared::PushOfText => "push_of_text",
        })
    }
}
