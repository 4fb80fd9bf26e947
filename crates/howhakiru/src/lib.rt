// Every function that C calls. Each calls one function of the library, and may put its answer into a form for C.
// include/howhakiru.h is the same list for C. Parameters are the header's: store and table are two buffers of the caller, and a
// step's token is three texts.
#![tactic(auto)]

ghost use Rattle.std.specs.Prelude.{◌≡◌, List, ℕ, ◌-◌, length};
ghost use Rattle.shapes.specs.Shapes.{is_digits, is_alpha, is_double, is_comma_int, is_ordinal, is_us_money, is_illion, is_roman, is_dr_or_st};
ghost use Rattle.shapes.specs.Shapes.{is_number_s, is_leading_zero_digits, is_seven_digit_phone, is_n_digits, is_time, is_dotted_abbrev, is_digits_slash_digits, is_digits_dash_digits};
ghost use Rattle.patterns.specs.Calls.{as_verdict, verdict_call, time_call, as_offsets, offsets_call, as_unit, unit_call, as_unit_word, unit_word_call};
ghost use Rattle.word_writer.specs.Words.{words_call, as_words};
ghost use Rattle.numerals.specs.Words.{spelled};
ghost use Rattle.numerals.specs.Cardinal.{cardinal, digits};
ghost use Rattle.numerals.specs.Ordinal.{ordinal};
ghost use Rattle.years.specs.Year.{year};
ghost use Rattle.reals.specs.Real.{real};
ghost use Rattle.letters.specs.Letters.{letters};
ghost use Rattle.numbers.specs.Calls.{as_roman_value, roman_call};
ghost use Rattle.tokens.specs.Tokens.{tokens};
ghost use Rattle.tokens.specs.Table.{records, tokens_call, as_tokens};
ghost use Rattle.sentences.specs.Sentences.{fresh};
ghost use Rattle.sentences.specs.Calls.{start_bytes, step_call, as_step};
ghost use Rattle.call_spec.specs.Calls.{sheet_call, entry_call};
ghost use Rattle.calls.specs.Answers.{as_sheet, as_entry};
ghost use Rattle.clear.specs.Test.{is_clear};
ghost use Rattle.admit.specs.Refusals.{answer_number};
ghost use Rattle.howhakiru.specs.AtC.{as_verdict_at_c, as_unit_at_c, as_unit_word_at_c, time_at_c, as_time_at_c, as_words_at_c, as_number_at_c, as_tokens_at_c, as_step_at_c, as_entry_at_c, as_sheet_at_c};

use admit::Refusal;
use calls::{CalledEntry, CalledSheet};
use patterns::UnitPart;
use sentences::{RefusedStep, State, Step};
use shapes::TimeSplit;
use word_writer::WordCounts;

// The structs for C, which takes no enum: each has a refusal's number, and a flag where a value may be missing.

// A shape's verdict: the refusal's number or 0, and the verdict, which is no if the call is refused.
#[repr(C)]
#[derive(Clone, Copy)]
pub struct HwkVerdict {
    pub refusal: u8,
    pub yes: bool,
}

// The answer of split_time_meridiem: each part by its offset and its length.
#[repr(C)]
#[derive(Clone, Copy)]
pub struct HwkTime {
    pub refusal: u8,
    pub yes: bool,
    pub hour_at: usize,
    pub hour_len: usize,
    pub minute_at: usize,
    pub minute_len: usize,
    pub meridiem_at: usize,
    pub meridiem_len: usize,
}

// A unit's place in the name; no, 0 and 0 if there is none.
#[repr(C)]
#[derive(Clone, Copy)]
pub struct HwkPart {
    pub refusal: u8,
    pub yes: bool,
    pub offset: usize,
    pub len: usize,
}

// Whether there is a word, and its length in the store.
#[repr(C)]
#[derive(Clone, Copy)]
pub struct HwkWord {
    pub refusal: u8,
    pub yes: bool,
    pub len: usize,
}

// How many words there are, and how many bytes they have.
#[repr(C)]
#[derive(Clone, Copy)]
pub struct HwkWords {
    pub refusal: u8,
    pub words: usize,
    pub bytes: usize,
}

// The value of a roman numeral, 0 if the call is refused.
#[repr(C)]
#[derive(Clone, Copy)]
pub struct HwkNumber {
    pub refusal: u8,
    pub value: u32,
}

// How many tokens there are.
#[repr(C)]
#[derive(Clone, Copy)]
pub struct HwkTokens {
    pub refusal: u8,
    pub tokens: usize,
}

// Whether a sentence ends before the token, and the state after it.
#[repr(C)]
#[derive(Clone, Copy)]
pub struct HwkStep {
    pub refusal: u8,
    pub breaks: bool,
    pub state: State,
}

// One entry's answer: its row's number and its sign's value.
#[repr(C)]
#[derive(Clone, Copy)]
pub struct HwkEntry {
    pub refusal: u8,
    pub row: u8,
    pub sign: u8,
    pub words: usize,
    pub bytes: usize,
}

// A sheet's answer.
#[repr(C)]
#[derive(Clone, Copy)]
pub struct HwkSheet {
    pub refusal: u8,
    pub tokens: usize,
    pub words: usize,
    pub bytes: usize,
}

// The number of the refusal, 0 if the call is accepted.
fn refusal_at_c<A: Copy>(answer: Result<A, Refusal>) -> u8
    ensures { result ≡ answer_number answer }
{
    match answer {
        Ok(_) => 0,
        Err(refusal) => u8::from(refusal),
    }
}

impl From<Result<bool, Refusal>> for HwkVerdict {
    ghost from_gives = { λ answer verdict. as_verdict_at_c verdict ≡ as_verdict answer };

    fn from(answer: Result<bool, Refusal>) -> HwkVerdict {
        HwkVerdict {
            refusal: refusal_at_c(answer),
            yes: answer.unwrap_or(false),
        }
    }
}

impl From<Result<Option<UnitPart>, Refusal>> for HwkPart {
    ghost from_gives = { λ answer unit. as_unit_at_c unit ≡ as_unit answer };

    fn from(answer: Result<Option<UnitPart>, Refusal>) -> HwkPart {
        let part = answer.ok().flatten();
        let UnitPart { offset, len } = part.unwrap_or(UnitPart { offset: 0, len: 0 });
        HwkPart {
            refusal: refusal_at_c(answer),
            yes: part.is_some(),
            offset,
            len,
        }
    }
}

impl From<Result<Option<usize>, Refusal>> for HwkWord {
    ghost from_gives = { λ answer word. (store : List ℕ) → as_unit_word_at_c word store ≡ as_unit_word answer store };

    fn from(answer: Result<Option<usize>, Refusal>) -> HwkWord {
        let len = answer.ok().flatten();
        HwkWord {
            refusal: refusal_at_c(answer),
            yes: len.is_some(),
            len: len.unwrap_or(0),
        }
    }
}

impl From<Result<WordCounts, Refusal>> for HwkWords {
    ghost from_gives = { λ answer words. (store table : List ℕ) → as_words_at_c words store table ≡ as_words answer store table };

    fn from(answer: Result<WordCounts, Refusal>) -> HwkWords {
        let WordCounts { words, bytes } = answer.unwrap_or(WordCounts { words: 0, bytes: 0 });
        HwkWords {
            refusal: refusal_at_c(answer),
            words,
            bytes,
        }
    }
}

impl From<Result<u32, Refusal>> for HwkNumber {
    ghost from_gives = { λ answer number. as_number_at_c number ≡ as_roman_value answer };

    fn from(answer: Result<u32, Refusal>) -> HwkNumber {
        HwkNumber {
            refusal: refusal_at_c(answer),
            value: answer.unwrap_or(0),
        }
    }
}

impl From<Result<usize, Refusal>> for HwkTokens {
    ghost from_gives = { λ answer tokens. (buffer : List ℕ) → as_tokens_at_c tokens buffer ≡ as_tokens answer buffer };

    fn from(answer: Result<usize, Refusal>) -> HwkTokens {
        HwkTokens {
            refusal: refusal_at_c(answer),
            tokens: answer.unwrap_or(0),
        }
    }
}

impl From<Result<CalledEntry, Refusal>> for HwkEntry {
    ghost from_gives = { λ answer entry. (buffer : List ℕ) → as_entry_at_c entry buffer ≡ as_entry answer buffer };

    fn from(answer: Result<CalledEntry, Refusal>) -> HwkEntry {
        match answer {
            Ok(
                CalledEntry {
                    entry,
                    words,
                    bytes,
                },
            ) => {
                let row = entry.row;
                HwkEntry {
                    refusal: 0,
                    row: u8::from(row),
                    sign: row.sign().map_or(0, u8::from),
                    words,
                    bytes,
                }
            }
            Err(refusal) => HwkEntry {
                refusal: u8::from(refusal),
                row: 0,
                sign: 0,
                words: 0,
                bytes: 0,
            },
        }
    }
}

impl From<Result<CalledSheet, Refusal>> for HwkSheet {
    ghost from_gives = { λ answer sheet. (buffer : List ℕ) → as_sheet_at_c sheet buffer ≡ as_sheet answer buffer };

    fn from(answer: Result<CalledSheet, Refusal>) -> HwkSheet {
        let none = CalledSheet {
            tokens: 0,
            words: 0,
            bytes: 0,
        };
        let CalledSheet {
            tokens,
            words,
            bytes,
        } = answer.unwrap_or(none);
        HwkSheet {
            refusal: refusal_at_c(answer),
            tokens,
            words,
            bytes,
        }
    }
}

impl From<Result<Step, RefusedStep>> for HwkStep {
    ghost from_gives = { λ answer step. as_step_at_c step ≡ as_step answer };

    fn from(answer: Result<Step, RefusedStep>) -> HwkStep {
        match answer {
            Ok(Step { breaks, state }) => HwkStep {
                refusal: 0,
                breaks,
                state,
            },
            Err(refused) => HwkStep {
                refusal: u8::from(refused.refusal),
                breaks: false,
                state: refused.state,
            },
        }
    }
}

// The parts of a time in a text of n bytes. Each is of 0 bytes at 0 if there is no time.
fn time_at_c(answer: Result<Option<TimeSplit>, Refusal>, n: usize) -> HwkTime
    ensures { result ≡ time_at_c n (as_offsets answer) }
{
    let none = HwkTime {
        refusal: refusal_at_c(answer),
        yes: false,
        hour_at: 0,
        hour_len: 0,
        minute_at: 0,
        minute_len: 0,
        meridiem_at: 0,
        meridiem_len: 0,
    };
    let Ok(
        Some(
            TimeSplit {
                hour,
                minute,
                meridiem,
            },
        ),
    ) = answer
    else {
        return none;
    };
    HwkTime {
        yes: true,
        hour_len: hour,
        minute_at: minute,
        minute_len: meridiem.saturating_sub(minute),
        meridiem_at: meridiem,
        meridiem_len: n.saturating_sub(meridiem),
        ..none
    }
}

#[unsafe(no_mangle)]
pub extern "C" fn hwk_is_digits(s: &[u8]) -> HwkVerdict
    ensures { as_verdict_at_c result ≡ verdict_call s.now (is_digits s.now) }
{
    HwkVerdict::from(patterns::is_digits(s))
}

#[unsafe(no_mangle)]
pub extern "C" fn hwk_is_alpha(s: &[u8]) -> HwkVerdict
    ensures { as_verdict_at_c result ≡ verdict_call s.now (is_alpha s.now) }
{
    HwkVerdict::from(patterns::is_alpha(s))
}

#[unsafe(no_mangle)]
pub extern "C" fn hwk_is_double(s: &[u8]) -> HwkVerdict
    ensures { as_verdict_at_c result ≡ verdict_call s.now (is_double s.now) }
{
    HwkVerdict::from(patterns::is_double(s))
}

#[unsafe(no_mangle)]
pub extern "C" fn hwk_is_comma_int(s: &[u8]) -> HwkVerdict
    ensures { as_verdict_at_c result ≡ verdict_call s.now (is_comma_int s.now) }
{
    HwkVerdict::from(patterns::is_comma_int(s))
}

#[unsafe(no_mangle)]
pub extern "C" fn hwk_is_ordinal(s: &[u8]) -> HwkVerdict
    ensures { as_verdict_at_c result ≡ verdict_call s.now (is_ordinal s.now) }
{
    HwkVerdict::from(patterns::is_ordinal(s))
}

#[unsafe(no_mangle)]
pub extern "C" fn hwk_is_us_money(s: &[u8]) -> HwkVerdict
    ensures { as_verdict_at_c result ≡ verdict_call s.now (is_us_money s.now) }
{
    HwkVerdict::from(patterns::is_us_money(s))
}

#[unsafe(no_mangle)]
pub extern "C" fn hwk_is_illion(s: &[u8]) -> HwkVerdict
    ensures { as_verdict_at_c result ≡ verdict_call s.now (is_illion s.now) }
{
    HwkVerdict::from(patterns::is_illion(s))
}

#[unsafe(no_mangle)]
pub extern "C" fn hwk_is_roman(s: &[u8]) -> HwkVerdict
    ensures { as_verdict_at_c result ≡ verdict_call s.now (is_roman s.now) }
{
    HwkVerdict::from(patterns::is_roman(s))
}

#[unsafe(no_mangle)]
pub extern "C" fn hwk_is_dr_or_st(s: &[u8]) -> HwkVerdict
    ensures { as_verdict_at_c result ≡ verdict_call s.now (is_dr_or_st s.now) }
{
    HwkVerdict::from(patterns::is_dr_or_st(s))
}

#[unsafe(no_mangle)]
pub extern "C" fn hwk_is_number_s(s: &[u8]) -> HwkVerdict
    ensures { as_verdict_at_c result ≡ verdict_call s.now (is_number_s s.now) }
{
    HwkVerdict::from(patterns::is_number_s(s))
}

#[unsafe(no_mangle)]
pub extern "C" fn hwk_is_leading_zero_digits(s: &[u8]) -> HwkVerdict
    ensures { as_verdict_at_c result ≡ verdict_call s.now (is_leading_zero_digits s.now) }
{
    HwkVerdict::from(patterns::is_leading_zero_digits(s))
}

#[unsafe(no_mangle)]
pub extern "C" fn hwk_is_seven_digit_phone(s: &[u8]) -> HwkVerdict
    ensures { as_verdict_at_c result ≡ verdict_call s.now (is_seven_digit_phone s.now) }
{
    HwkVerdict::from(patterns::is_seven_digit_phone(s))
}

#[unsafe(no_mangle)]
pub extern "C" fn hwk_is_n_digits(s: &[u8], n: usize) -> HwkVerdict
    ensures { as_verdict_at_c result ≡ verdict_call s.now (is_n_digits n s.now) }
{
    HwkVerdict::from(patterns::is_n_digits(s, n))
}

#[unsafe(no_mangle)]
pub extern "C" fn hwk_is_time(s: &[u8]) -> HwkVerdict
    ensures { as_verdict_at_c result ≡ verdict_call s.now (is_time s.now) }
{
    HwkVerdict::from(patterns::is_time(s))
}

#[unsafe(no_mangle)]
pub extern "C" fn hwk_split_time_meridiem(s: &[u8]) -> HwkTime
    ensures { (as_time_at_c result s.now ≡ time_call s.now) × (result ≡ time_at_c (length s.now) (offsets_call s.now)) }
{
    time_at_c(patterns::split_time_meridiem(s), s.len())
}

#[unsafe(no_mangle)]
pub extern "C" fn hwk_is_dotted_abbrev(s: &[u8]) -> HwkVerdict
    ensures { as_verdict_at_c result ≡ verdict_call s.now (is_dotted_abbrev s.now) }
{
    HwkVerdict::from(patterns::is_dotted_abbrev(s))
}

#[unsafe(no_mangle)]
pub extern "C" fn hwk_is_digits_slash_digits(s: &[u8]) -> HwkVerdict
    ensures { as_verdict_at_c result ≡ verdict_call s.now (is_digits_slash_digits s.now) }
{
    HwkVerdict::from(patterns::is_digits_slash_digits(s))
}

#[unsafe(no_mangle)]
pub extern "C" fn hwk_is_digits_dash_digits(s: &[u8]) -> HwkVerdict
    ensures { as_verdict_at_c result ≡ verdict_call s.now (is_digits_dash_digits s.now) }
{
    HwkVerdict::from(patterns::is_digits_dash_digits(s))
}

#[unsafe(no_mangle)]
pub extern "C" fn hwk_split_unit(s: &[u8]) -> HwkPart
    ensures { as_unit_at_c result ≡ unit_call s.now }
{
    HwkPart::from(patterns::split_unit(s))
}

#[unsafe(no_mangle)]
pub extern "C" fn hwk_unit_word(unit: &[u8], store: &mut [u8]) -> HwkWord
    ensures { as_unit_word_at_c result store.new ≡ unit_word_call unit.now store.old }
{
    HwkWord::from(patterns::unit_word(unit, store))
}

#[unsafe(no_mangle)]
pub extern "C" fn hwk_cardinal(s: &[u8], store: &mut [u8], table: &mut [u8]) -> HwkWords
    ensures { as_words_at_c result store.new table.new
        ≡ words_call s.now (spelled (cardinal s.now)) store.old table.old }
{
    HwkWords::from(numbers::cardinal(s, store, table))
}

#[unsafe(no_mangle)]
pub extern "C" fn hwk_ordinal(s: &[u8], store: &mut [u8], table: &mut [u8]) -> HwkWords
    ensures { as_words_at_c result store.new table.new
        ≡ words_call s.now (spelled (ordinal s.now)) store.old table.old }
{
    HwkWords::from(numbers::ordinal(s, store, table))
}

#[unsafe(no_mangle)]
pub extern "C" fn hwk_year(s: &[u8], store: &mut [u8], table: &mut [u8]) -> HwkWords
    ensures { as_words_at_c result store.new table.new
        ≡ words_call s.now (spelled (year s.now)) store.old table.old }
{
    HwkWords::from(numbers::year(s, store, table))
}

#[unsafe(no_mangle)]
pub extern "C" fn hwk_digits(s: &[u8], store: &mut [u8], table: &mut [u8]) -> HwkWords
    ensures { as_words_at_c result store.new table.new
        ≡ words_call s.now (spelled (digits s.now)) store.old table.old }
{
    HwkWords::from(numbers::digits(s, store, table))
}

#[unsafe(no_mangle)]
pub extern "C" fn hwk_real(s: &[u8], store: &mut [u8], table: &mut [u8]) -> HwkWords
    ensures { as_words_at_c result store.new table.new
        ≡ words_call s.now (spelled (real s.now)) store.old table.old }
{
    HwkWords::from(numbers::real(s, store, table))
}

#[unsafe(no_mangle)]
pub extern "C" fn hwk_letters(s: &[u8], store: &mut [u8], table: &mut [u8]) -> HwkWords
    ensures { as_words_at_c result store.new table.new
        ≡ words_call s.now (spelled (letters s.now)) store.old table.old }
{
    HwkWords::from(numbers::letters(s, store, table))
}

#[unsafe(no_mangle)]
pub extern "C" fn hwk_roman_value(s: &[u8]) -> HwkNumber
    ensures { as_number_at_c result ≡ roman_call s.now }
{
    HwkNumber::from(numbers::roman_value(s))
}

#[unsafe(no_mangle)]
pub extern "C" fn hwk_tokenize(s: &[u8], table: &mut [u8]) -> HwkTokens
    ensures { as_tokens_at_c result table.new ≡ tokens_call s.now (records 0 (tokens s.now)) table.old }
{
    HwkTokens::from(tokens::tokenize(s, table))
}

#[unsafe(no_mangle)]
pub extern "C" fn hwk_sentences(s: &[u8], starts: &mut [u8]) -> HwkTokens
    ensures { as_tokens_at_c result starts.new ≡ tokens_call s.now (start_bytes s.now) starts.old }
{
    HwkTokens::from(sentences::sentences(s, starts))
}

#[unsafe(no_mangle)]
pub extern "C" fn hwk_fresh() -> State
    ensures { result ≡ fresh }
{
    State::fresh()
}

#[unsafe(no_mangle)]
pub extern "C" fn hwk_push(
    state: State,
    whitespace: &[u8],
    name: &[u8],
    punctuation: &[u8],
) -> HwkStep
    ensures { as_step_at_c result ≡ step_call state whitespace.now name.now punctuation.now }
{
    HwkStep::from(state.push(whitespace, name, punctuation))
}

#[unsafe(no_mangle)]
pub extern "C" fn hwk_call_entry(s: &[u8], number: usize, out: &mut [u8]) -> HwkEntry
    ensures { as_entry_at_c result out.new ≡ entry_call s.now number out.old }
{
    HwkEntry::from(calls::call_entry(s, number, out))
}

#[unsafe(no_mangle)]
pub extern "C" fn hwk_call_sheet(s: &[u8], out: &mut [u8]) -> HwkSheet
    ensures { as_sheet_at_c result out.new ≡ sheet_call s.now out.old }
{
    HwkSheet::from(calls::call_sheet(s, out))
}

#[unsafe(no_mangle)]
pub extern "C" fn hwk_is_clear(s: &[u8]) -> HwkVerdict
    ensures { as_verdict_at_c result ≡ verdict_call s.now (is_clear s.now) }
{
    HwkVerdict::from(clear::is_clear(s))
}
