// The table UNIT_ABBREVIATIONS of patterns.rs and its look-up. An abbreviation is compared as one number, its key.
#![tactic(auto)]

ghost use Rattle.std.specs.Prelude.{◌≡◌, ◌==◌, position, get_or};
ghost use Rattle.units.specs.Units.{unit_row, unit_key, word_numbers};

// The key of each row's abbreviation. The keys are a table of their own, because the compiler makes a search tree of their
// search.
static UNIT_KEYS: [u32; 22] = [
    0x00424c02, // LB
    0x53424c03, // LBS
    0x00626c02, // lb
    0x73626c03, // lbs
    0x00746602, // ft
    0x00544602, // FT
    0x00676b02, // kg
    0x006d6b02, // km
    0x006d6302, // cm
    0x006d6d02, // mm
    0x006c6d02, // ml
    0x007a6f02, // oz
    0x007a6802, // hz
    0x007a4802, // Hz
    0x005a4802, // HZ
    0x7a484b03, // KHz
    0x7a484d03, // MHz
    0x7a484703, // GHz
    0x00424b02, // KB
    0x00424702, // GB
    0x00424d02, // MB
    0x00425402, // TB
];

// The number, in the vocabulary, of each row's word.
static WORD_NUMBERS: [usize; 22] = [
    0, 0, 0, 0, 1, 1, 2, 3, 4, 5, 6, 7, 8, 8, 8, 9, 10, 11, 12, 13, 14, 15,
];

// The key of a text: its length and its bytes in one number, the length lowest. Each row's text has 2 or 3 bytes, and no other
// text has a key.
#[tactic(auto, using(crate::proofs::Laws::key_two, crate::proofs::Laws::key_three), unfolding(crate::specs::Units::unit_key))]
fn unit_key(u: &[u8]) -> Option<u32>
    ensures { result ≡ unit_key u.now }
{
    match u {
        [a, b] => Some(u32::from_le_bytes([2, *a, *b, 0])),
        [a, b, c] => Some(u32::from_le_bytes([3, *a, *b, *c])),
        _ => None,
    }
}

// Where the first of the keys is that equals `key`. A function of its own, so that its contract speaks of any keys, and of no
// table.
fn first_equal(key: u32, keys: &[u32]) -> Option<usize>
    ensures { result ≡ position (λ k. k == key) keys.now }
{
    keys.iter().position(|k| *k == key)
}

// The number of the first row whose abbreviation is u, if there is one.
pub fn unit_index(u: &[u8]) -> Option<usize>
    ensures { result ≡ unit_row u.now }
{
    first_equal(unit_key(u)?, &UNIT_KEYS)
}

// The number, in the vocabulary, of row k's word; 0 if there is no row k. It is no Option: the callers go on with that number,
// and a test of clear with the 0 past the table. Rows 0 to 3 share a word, and so do 4 and 5, and 12 to 14.
pub fn word_number(k: usize) -> usize
    ensures { result ≡ get_or word_numbers k 0 }
{
    WORD_NUMBERS.get(k).copied().unwrap_or(0)
}
