// Tokens of a text, as `tokenize` of text.rs gives them: where each one's parts are, how many there are, and their table.
#![tactic(auto)]

ghost use Rattle.std.specs.Prelude.{◌≡◌, ◌+◌, ◌*◌, ◌^◌, ◌<◌, ◌≤◌, ltb, length};
ghost use Rattle.std.specs.Iterator.{YieldsFirstBy, item_count};
ghost use Rattle.std.proofs.lemmas.List.Edits.{sets};
ghost use Rattle.lists.specs.Bytes.{span};
ghost use Rattle.lists.specs.Classes.{prepunctuation_mark};
ghost use Rattle.tokens.specs.Tokens.{name_size, cut, tokens};
ghost use Rattle.tokens.specs.Table.{record_of, records, tokens_call, as_tokens, record_size, token_end};
ghost use Rattle.tokens.specs.Left.{parts_of, tokens_left};

use admit::{Refusal, admit_text};
use lists::{ByteClass, Not, Postpunctuation, Prepunctuation, Whitespace, last_end, span, tail};
use word_writer::{PAIR_SIZE, Pair};

// The bytes of a token's record in the table.
const RECORD_SIZE: usize = 4 * PAIR_SIZE;

// A token: its four parts, which follow each other in the text.
#[derive(Clone, Copy)]
pub struct Token<'a> {
    pub whitespace: &'a [u8],
    pub prepunctuation: &'a [u8],
    pub name: &'a [u8],
    pub punctuation: &'a [u8],
}

// The tokens of a text, one after the other. `rest` is what follows those that were given.
#[derive(Drop)]
pub struct Tokens<'a> {
    rest: &'a [u8],
}

impl<'a> Tokens<'a> {
    pub fn new(s: &'a [u8]) -> Self
        ensures { tokens_left result ≡ tokens s.now }
    {
        Tokens { rest: s }
    }
}

impl<'a> Iterator for Tokens<'a> {
    type Item = Token<'a>;

    ghost next_gives = { YieldsFirstBy parts_of tokens_left };

    ghost remaining = { item_count tokens_left };

    fn next(&mut self) -> Option<Token<'a>> {
        let s = self.rest;
        let (whitespace, text) = s.split_at(span(s, Whitespace));
        if text.is_empty() {
            return None;
        }
        // The marks are no whitespace, so the run goes on after them.
        let marks = span(text, Prepunctuation);
        let more = span(tail(text, marks), Not(Whitespace));
        let (run, rest) = text.split_at(marks + more);
        self.rest = rest;
        Some(cut_run(whitespace, run, marks, rest.is_empty()))
    }
}

// How much of what follows the leading marks is the name.
#[tactic(auto, using(lists::proofs::Scan::last_le))]
fn name_size(s: &[u8]) -> usize
    ensures { (result ≡ name_size s.now) × (result ≤ length s.now) }
{
    match s.split_first() {
        None => 0,
        Some((_, others)) => 1 + last_end(others, Not(Postpunctuation)),
    }
}

// Cuts a run into its parts. The run starts with `marks` leading marks; `ends` says that the text ends with it.
fn cut_run<'a>(whitespace: &'a [u8], run: &'a [u8], marks: usize, ends: bool) -> Token<'a>
    requires { marks ≡ span prepunctuation_mark run.now }
    ensures { parts_of result ≡ cut whitespace.now run.now ends }
{
    let (prepunctuation, named) = run.split_at(marks);
    if ends & named.is_empty() {
        return Token {
            whitespace,
            prepunctuation: named,
            name: run,
            punctuation: named,
        };
    }
    let (name, punctuation) = named.split_at(name_size(named));
    Token {
        whitespace,
        prepunctuation,
        name,
        punctuation,
    }
}

// How many tokens s has. A byte that is no whitespace starts one if it is the first byte or follows whitespace.
// With `Tokens::new(s).nth(n).is_some()` in place of this count `tokenize` of a mixed sheet of 64 KiB takes 1.37 of the
// instructions and `sentences` 1.25, if the buffer is just large enough. A chain over `windows(2)` would test each byte twice.
#[tactic(auto, using(crate::proofs::Count::runs_tokens))]
fn count_tokens(s: &[u8]) -> usize
    ensures { result ≡ length (tokens s.now) }
{
    let mut n = 0;
    let mut white = true;
    for b in s {
        let next = Whitespace.contains(*b);
        n += usize::from(white & !next);
        white = next;
    }
    n
}

// Whether s has more than n tokens. At most every second byte starts one, so nothing is counted if n is large enough.
pub fn has_more_tokens(s: &[u8], n: usize) -> bool
    ensures { result ≡ ltb n (length (tokens s.now)) }
{
    if s.len() / 2 < n {
        return false;
    }
    n < count_tokens(s)
}

// Stores the record of a token from index `place` on. The token starts at the offset `at`; the result is where it ends.
fn put_record(table: &mut [u8], place: usize, at: usize, t: Token) -> usize
    requires room { place + record_size ≤ length table.old }
    requires fits { token_end at (parts_of t) < 2 ^ 64 }
    ensures end { result ≡ token_end at (parts_of t.entry) }
    ensures stored { table.new ≡ sets table.old place (record_of at (parts_of t.entry)) }
{
    let prepunctuation = at + t.whitespace.len();
    let name = prepunctuation + t.prepunctuation.len();
    let punctuation = name + t.name.len();
    Pair::new(at, t.whitespace.len()).put(table, place);
    Pair::new(prepunctuation, t.prepunctuation.len()).put(table, place + PAIR_SIZE);
    Pair::new(name, t.name.len()).put(table, place + 2 * PAIR_SIZE);
    Pair::new(punctuation, t.punctuation.len()).put(table, place + 3 * PAIR_SIZE);
    punctuation + t.punctuation.len()
}

// Writes the records of all tokens, and answers how many there are.
fn write_records(s: &[u8], table: &mut [u8]) -> usize
    requires { record_size * length (tokens s.now) ≤ length table.old }
    ensures { (result ≡ length (tokens s.now)) × (table.new ≡ sets table.old 0 (records 0 (tokens s.now))) }
{
    // Stored by index: after `zip` of `chunks_exact_mut` and the tokens a proof knows only the table's length. And the count is
    // the result too, which the last index of `enumerate` doesn't give if there is no token.
    let mut n = 0;
    let mut at = 0;
    for token in Tokens::new(s) {
        at = put_record(table, RECORD_SIZE * n, at, token);
        n += 1;
    }
    n
}

// The table of the tokens of s, and how many there are.
pub fn tokenize(s: &[u8], table: &mut [u8]) -> Result<usize, Refusal>
    ensures { as_tokens result table.new ≡ tokens_call s.now (records 0 (tokens s.now)) table.old }
{
    admit_text(s)?;
    if has_more_tokens(s, table.len() / RECORD_SIZE) {
        return Err(Refusal::BufferTooShort);
    }
    Ok(write_records(s, table))
}
