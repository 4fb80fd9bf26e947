// Where sentences start: `sentences` of text.rs for a whole text, and `SentenceBuilder::push` token by token.
#![tactic(auto)]

ghost use Rattle.std.specs.Prelude.{◌≡◌, ◌||◌, ◌≤◌, length, drop};
ghost use Rattle.std.specs.Iterator.{YieldsFirstBy, item_count};
ghost use Rattle.std.proofs.lemmas.List.Edits.{sets};
ghost use Rattle.lists.specs.Bytes.{elem};
ghost use Rattle.admit.specs.Refusals.{first_refusal, answer_number};
ghost use Rattle.tokens.specs.Tokens.{tokens};
ghost use Rattle.tokens.specs.Table.{tokens_call, as_tokens};
ghost use Rattle.sentences.specs.Sentences.{break_after, is_set, flag, fresh, head_of, kept, state_context};
ghost use Rattle.sentences.specs.Calls.{start_bytes, smaller_refusal, step_tests, step_call, as_step};
ghost use Rattle.sentences.specs.Left.{entry_of, entries_left, entries_after};

use admit::{Refusal, admit_text};
use lists::{Byte, Not, byte_at, count, equal_lowered, span};
use std::array;
use tokens::{Tokens, has_more_tokens};

// Up to so many bytes of punctuation are scanned one by one.
const FEW_MARKS: usize = 8;

// What is kept of the last token: its name's length, first five bytes (0 past its end) and last byte (0 if it is empty), and
// whether its punctuation has each of . : ? and !. The five bytes are an array and no slice, because C keeps a state longer than
// the text. The five flags `point` to `fresh` are 0 for no and any other byte for yes. They are no `bool`, because C hands a
// state back with whatever bytes it has then.
#[repr(C)]
#[derive(Clone, Copy, Debug, PartialEq, Eq)]
pub struct State {
    pub len: usize,
    pub head: [u8; 5],
    pub last: u8,
    pub point: u8,
    pub colon: u8,
    pub question: u8,
    pub exclamation: u8,
    // No token was fed yet.
    pub fresh: u8,
}

// A step's answer: whether a sentence ends before the token, and the state after it.
#[derive(Clone, Copy)]
pub struct Step {
    pub breaks: bool,
    pub state: State,
}

// A step that is refused: why, and the state that it was given.
#[derive(Clone, Copy)]
pub struct RefusedStep {
    pub refusal: Refusal,
    pub state: State,
}

// An entry of a text: a token's name, and whether the token starts a sentence.
#[derive(Clone, Copy)]
pub struct SheetEntry<'a> {
    pub starts: bool,
    pub name: &'a [u8],
}

// The entries of a text, one after the other: the tokens that are left, and the state that was fed those before them.
#[derive(Drop)]
pub struct Entries<'a> {
    tokens: Tokens<'a>,
    state: State,
}

fn is_set(b: u8) -> bool
    ensures { result ≡ is_set b }
{
    b != 0
}

// Whether the byte c stands in s, as a flag. The library's `contains` is a call, which costs more than it saves on the few marks
// that most tokens have.
fn contains_flag(s: &[u8], c: u8) -> u8
    ensures { result ≡ flag (elem c s.now) }
{
    if s.len() <= FEW_MARKS {
        return u8::from(span(s, Not(Byte(c))) < s.len());
    }
    u8::from(s.contains(&c))
}

fn head_of(s: &[u8]) -> [u8; 5]
    ensures { result ≡ head_of s.now }
{
    array::from_fn(|i| byte_at(s, i))
}

impl State {
    pub fn fresh() -> Self
        ensures { result ≡ fresh }
    {
        State {
            len: 0,
            head: [0u8; 5],
            last: 0,
            point: 0,
            colon: 0,
            question: 0,
            exclamation: 0,
            fresh: 1,
        }
    }

    // One step. If it is refused, it hands back the state that it was given. The token is given as three texts, as document 01
    // and the header give it: it has no prepunctuation, so it is no `Token`, and other functions take two of the three.
    #[tactic(auto, unfolding(crate::specs::Calls::step_call))]
    pub fn push(
        self,
        whitespace: &[u8],
        name: &[u8],
        punctuation: &[u8],
    ) -> Result<Step, RefusedStep>
        ensures { as_step result ≡ step_call self whitespace.now name.now punctuation.now }
    {
        if let Err(refusal) = admit_step(whitespace, name, punctuation) {
            return Err(RefusedStep {
                refusal,
                state: self,
            });
        }
        Ok(Step {
            breaks: !is_set(self.fresh) & is_sentence_break(self, whitespace, name),
            state: State::kept(name, punctuation),
        })
    }

    // The state after a token. This and `is_sentence_break` are inlined, because a step alone would take twice the time.
    #[inline(always)]
    pub fn kept(name: &[u8], punctuation: &[u8]) -> Self
        ensures { result ≡ kept name.now punctuation.now }
    {
        State {
            len: name.len(),
            head: head_of(name),
            last: name.last().copied().unwrap_or(0),
            point: contains_flag(punctuation, b'.'),
            colon: contains_flag(punctuation, b':'),
            question: contains_flag(punctuation, b'?'),
            exclamation: contains_flag(punctuation, b'!'),
            fresh: 0,
        }
    }

    fn is_yahoo(self) -> bool
        ensures { result ≡ (state_context self).yahoo }
    {
        (self.len == 5) & equal_lowered(&self.head, b"yahoo")
    }

    fn looks_like_abbreviation(self) -> bool
        ensures { result ≡ (state_context self).abbreviation }
    {
        let first = self.head[0];
        self.last.is_ascii_uppercase() | ((self.len < 4) & first.is_ascii_uppercase())
    }
}

// Whether a sentence ends between the token that the state keeps and the next.
#[inline(always)]
#[tactic(auto, unfolding(crate::specs::Sentences::break_after))]
fn is_sentence_break(state: State, whitespace: &[u8], name: &[u8]) -> bool
    ensures { result ≡ break_after (state_context state) whitespace.now name.now }
{
    // A blank line decides by itself.
    if 1 < count(whitespace, Byte(b'\n')) {
        return true;
    }
    let first = byte_at(name, 0);
    // After this one name, an exclamation mark does not end the sentence if a small letter follows.
    if state.is_yahoo() & is_set(state.exclamation) & first.is_ascii_lowercase() {
        return false;
    }
    if is_set(state.colon) | is_set(state.question) | is_set(state.exclamation) {
        return true;
    }
    if !is_set(state.point) {
        return false;
    }
    if !first.is_ascii_uppercase() {
        return false;
    }
    // After a point, more than one byte of whitespace ends the sentence, even if the name before it looks like an abbreviation.
    if 1 < whitespace.len() {
        return true;
    }
    !state.looks_like_abbreviation()
}

// The refusal of two texts together, from that of each: the first test in the order wins, whichever text earns it. The numbers of
// a text's tests ascend in that order, so it is the smaller one.
fn first_refused(a: Result<(), Refusal>, b: Result<(), Refusal>) -> Result<(), Refusal>
    ensures { answer_number result ≡ smaller_refusal (answer_number a) (answer_number b) }
{
    match (a, b) {
        (Ok(()), _) => b,
        (Err(x), Err(y)) if u8::from(y) < u8::from(x) => b,
        _ => a,
    }
}

// The tests of the three texts of a step, which `push` is given.
fn admit_step(whitespace: &[u8], name: &[u8], punctuation: &[u8]) -> Result<(), Refusal>
    ensures { answer_number result ≡ first_refusal (step_tests whitespace.now name.now punctuation.now) }
{
    let first_two = first_refused(admit_text(whitespace), admit_text(name));
    first_refused(first_two, admit_text(punctuation))
}

// Whether a token starts a sentence, after the tokens that the state was fed.
pub fn starts_sentence(state: State, whitespace: &[u8], name: &[u8]) -> bool
    ensures { result ≡ (is_set state.fresh || break_after (state_context state) whitespace.now name.now) }
{
    is_set(state.fresh) | is_sentence_break(state, whitespace, name)
}

impl<'a> Entries<'a> {
    pub fn new(s: &'a [u8]) -> Self
        ensures { entries_left result ≡ entries_after fresh (tokens s.now) }
    {
        Entries {
            tokens: Tokens::new(s),
            state: State::fresh(),
        }
    }

    // The entries after the first n. Of the tokens before them only the last one is tested, so the others are passed over.
    pub fn after(s: &'a [u8], n: usize) -> Self
        ensures { entries_left result ≡ drop n (entries_after fresh (tokens s.now)) }
    {
        if n == 0 {
            return Entries::new(s);
        }
        let mut tokens = Tokens::new(s);
        match tokens.nth(n - 1) {
            Some(last) => Entries {
                tokens,
                state: State::kept(last.name, last.punctuation),
            },
            // What is left in `tokens` is whitespace, which need not be read again.
            None => Entries::new(&[]),
        }
    }
}

impl<'a> Iterator for Entries<'a> {
    type Item = SheetEntry<'a>;

    ghost next_gives = { YieldsFirstBy entry_of entries_left };

    ghost remaining = { item_count entries_left };

    fn next(&mut self) -> Option<SheetEntry<'a>> {
        let token = self.tokens.next()?;
        let starts = starts_sentence(self.state, token.whitespace, token.name);
        self.state = State::kept(token.name, token.punctuation);
        Some(SheetEntry {
            starts,
            name: token.name,
        })
    }
}

// Writes a flag for each token, whether it starts a sentence, and answers how many tokens there are.
fn write_starts(s: &[u8], starts: &mut [u8]) -> usize
    requires { length (tokens s.now) ≤ length starts.old }
    ensures { (result ≡ length (tokens s.now)) × (starts.new ≡ sets starts.old 0 (start_bytes s.now)) }
{
    // Stored by index: after `zip` of `iter_mut` and the entries a proof knows only the buffer's length. And the count is the
    // result too, which the last index of `enumerate` doesn't give if there is no entry.
    let mut n = 0;
    for entry in Entries::new(s) {
        starts[n] = u8::from(entry.starts);
        n += 1;
    }
    n
}

// Writes for each token of s whether it starts a sentence, and answers how many tokens there are.
pub fn sentences(s: &[u8], starts: &mut [u8]) -> Result<usize, Refusal>
    ensures { as_tokens result starts.new ≡ tokens_call s.now (start_bytes s.now) starts.old }
{
    admit_text(s)?;
    if has_more_tokens(s, starts.len()) {
        return Err(Refusal::BufferTooShort);
    }
    Ok(write_starts(s, starts))
}
