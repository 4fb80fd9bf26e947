// Bytes of a text: reads, parts, scans, comparisons, and stores that stop at the end of the buffer. Nothing is demanded of the
// caller. Each contract gives what the result is equal to.
#![tactic(auto)]

mod class;

ghost use Rattle.std.specs.Prelude.{◌≡◌, map, ◌-◌, length, take, drop, get_or};
ghost use Rattle.std.specs.Option.{option_map};
ghost use Rattle.std.proofs.lemmas.List.Edits.{sets};
ghost use Rattle.lists.specs.Bytes.{all, span, around, count_if, after_last, same, same_by, to_lower, starts_with, ends_with, strip_prefix, strip_suffix, ends_with_by};

pub use class::{
    Byte, ByteClass, ColonOrPoint, Continuation, Digit, DigitOrComma, DigitOrDash, Letter, LetterE,
    Not, Postpunctuation, Prepunctuation, RomanTail, Whitespace,
};

// The byte at i, or 0 past the end. It is no Option: past the end each caller goes on with a 0, and would write this `unwrap_or`.
pub fn byte_at(s: &[u8], i: usize) -> u8
    ensures { result ≡ get_or s.now i 0 }
{
    s.get(i).copied().unwrap_or(0)
}

// The first k bytes, or all of them if there are fewer.
pub fn front(s: &[u8], k: usize) -> &[u8]
    ensures { result.now ≡ take k s.now }
{
    &s[..k.min(s.len())]
}

// What follows the first k bytes, nothing if there are fewer.
pub fn tail(s: &[u8], k: usize) -> &[u8]
    ensures { result.now ≡ drop k s.now }
{
    &s[k.min(s.len())..]
}

// The bytes from index a to the one before index b, as far as the text has them.
pub fn part(s: &[u8], a: usize, b: usize) -> &[u8]
    ensures { result.now ≡ take (b - a) (drop a s.now) }
{
    front(tail(s, a), b.saturating_sub(a))
}

// The last k bytes, or all of them if there are fewer.
pub fn back(s: &[u8], k: usize) -> &[u8]
    ensures { result.now ≡ drop (length s.now - k) s.now }
{
    tail(s, s.len().saturating_sub(k))
}

// All but the last k bytes, nothing if there are fewer.
pub fn without_back(s: &[u8], k: usize) -> &[u8]
    ensures { result.now ≡ take (length s.now - k) s.now }
{
    front(s, s.len().saturating_sub(k))
}

// These four, and `equal` below, are the library's under a contract that speaks of the definitions.
pub fn starts_with(s: &[u8], c: u8) -> bool
    ensures { result ≡ starts_with c s.now }
{
    s.first() == Some(&c)
}

pub fn strip_prefix(s: &[u8], c: u8) -> &[u8]
    ensures { result.now ≡ strip_prefix c s.now }
{
    s.strip_prefix(&[c]).unwrap_or(s)
}

pub fn ends_with(s: &[u8], c: u8) -> bool
    ensures { result ≡ ends_with c s.now }
{
    s.last() == Some(&c)
}

pub fn strip_suffix(s: &[u8], c: u8) -> &[u8]
    ensures { result.now ≡ strip_suffix c s.now }
{
    s.strip_suffix(&[c]).unwrap_or(s)
}

// Whether every byte is of the class.
pub fn all<C: ByteClass>(s: &[u8], class: C) -> bool
    ensures { result ≡ all (C.contains class) s.now }
{
    s.iter().all(|b| class.contains(*b))
}

// How many bytes are of the class.
pub fn count<C: ByteClass>(s: &[u8], class: C) -> usize
    ensures { result ≡ count_if (C.contains class) s.now }
{
    s.iter().filter(|b| class.contains(**b)).count()
}

// How many bytes at the front are of the class.
pub fn span<C: ByteClass>(s: &[u8], class: C) -> usize
    ensures { result ≡ span (C.contains class) s.now }
{
    s.iter().take_while(|b| class.contains(**b)).count()
}

// The place after the last byte of the class, 0 if there is none.
// It is no Option: 0 is the length of nothing, and most callers ask for the front of that length or add to it.
pub fn last_end<C: ByteClass>(s: &[u8], class: C) -> usize
    ensures { result ≡ after_last (C.contains class) s.now }
{
    s.len() - s.iter().rev().take_while(|b| !class.contains(**b)).count()
}

// What stands before the first byte of the class and after it, if there is one.
pub fn split_once<C: ByteClass>(s: &[u8], class: C) -> Option<(&[u8], &[u8])>
    ensures { option_map (λ p. (p.0.now, p.1.now)) result ≡ around (C.contains class) s.now }
{
    let at = s.iter().position(|b| class.contains(*b))?;
    Some((&s[..at], &s[at + 1..]))
}

// Whether t is s.
pub fn equal(s: &[u8], t: &[u8]) -> bool
    ensures { result ≡ same s.now t.now }
{
    s == t
}

// Whether t is s, if A to Z of s are lowered.
pub fn equal_lowered(s: &[u8], t: &[u8]) -> bool
    ensures { result ≡ same_by to_lower s.now t.now }
{
    s.len() == t.len() && s.iter().zip(t).all(|(a, b)| a.to_ascii_lowercase() == *b)
}

// Whether s ends with t, if A to Z of s are lowered.
pub fn ends_equal_lowered(s: &[u8], t: &[u8]) -> bool
    ensures { result ≡ ends_with_by to_lower t.now s.now }
{
    t.len() <= s.len() && equal_lowered(back(s, t.len()), t)
}

// Stores src from index `at` on, as far as it falls within out.
// By index: `copy_from_slice` would need memmove besides memcpy, and nothing is known of elements after an adapter of `iter_mut`.
pub fn put(out: &mut [u8], at: usize, src: &[u8])
    ensures { out.new ≡ sets out.old at src.now }
{
    let n = src.len().min(out.len().saturating_sub(at));
    for (i, b) in src[..n].iter().enumerate() {
        out[at + i] = *b;
    }
}

// Stores src, A to Z lowered, from index `at` on, as far as it falls within out. By index, as `put`.
// It differs from `put` in one line; one function for both would need a trait of what is stored, and be longer.
pub fn put_lowered(out: &mut [u8], at: usize, src: &[u8])
    ensures { out.new ≡ sets out.old at (map to_lower src.now) }
{
    let n = src.len().min(out.len().saturating_sub(at));
    for (i, b) in src[..n].iter().enumerate() {
        out[at + i] = b.to_ascii_lowercase();
    }
}
