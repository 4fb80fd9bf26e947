// The entries of a sheet: whether a name is too long, and a single entry. No words are said here.
#![tactic(auto)]

ghost use Rattle.std.specs.Prelude.{◌≡◌, false};
ghost use Rattle.call_spec.specs.Sheet.{entries};
ghost use Rattle.call_spec.specs.Calls.{any_long};
ghost use Rattle.entries.specs.Find.{found_entry, as_found_entry};

use lists::{Whitespace, last_end, tail};
use sentences::{Entries, SheetEntry};
use tokens::Tokens;

// The longest name that is called.
pub const NAME_LIMIT: usize = 4096;

// The length of the shortest run that can hold a longer name.
const LONG_RUN_SIZE: usize = NAME_LIMIT + 1;

// Whether a run of bytes without whitespace is longer than a name may be. From each place LONG_RUN_SIZE bytes are searched for
// whitespace, from their end. The next place is after the whitespace that is found, so few bytes are read. No iterator of the
// library takes such steps.
fn has_long_run(s: &[u8]) -> bool
    ensures { result ≡ false → any_long (entries s.now) ≡ false }
{
    let mut rest = s;
    while let Some(ahead) = rest.get(..LONG_RUN_SIZE) {
        let end = last_end(ahead, Whitespace);
        if end == 0 {
            return true;
        }
        rest = tail(rest, end);
    }
    false
}

// Whether a name is too long to be called.
pub fn has_long_name(s: &[u8]) -> bool
    ensures { result ≡ any_long (entries s.now) }
{
    has_long_run(s) && Tokens::new(s).any(|token| NAME_LIMIT < token.name.len())
}

// Entry number k, if there is one.
pub fn find_entry(s: &[u8], k: usize) -> Option<SheetEntry<'_>>
    ensures { as_found_entry result ≡ found_entry s.now k }
{
    Entries::after(s, k).next()
}
