// The writing layer. A word goes to the store, and its pair of offset and length to the table, each as far as it falls within
// its buffer. The writer moves on in any case, so that with empty buffers the same code only measures. A spaced writer writes a
// line of the call sheet: a space goes before each word.
#![tactic(auto)]

ghost use Rattle.std.specs.Prelude.{◌≡◌, List, [], ◌∷◌, true, false, map, ℕ, ◌+◌, ◌*◌};
ghost use Rattle.std.proofs.lemmas.List.Edits.{sets};
ghost use Rattle.lists.specs.Bytes.{to_lower};
ghost use Rattle.word_writer.specs.Writer.{pair_of, pair_size, written, unwritten, put_byte, put_gap, advance, Puts, Says};
ghost use Rattle.word_writer.specs.Words.{too_short_for, counts_at};

use lists::{put, put_lowered};

// The bytes of a pair.
pub const PAIR_SIZE: usize = 8;

// The lent buffers, the place of the next byte in the store, the number of words, which is that of the next pair in the table,
// and whether a space goes before each word.
#[derive(Drop)]
pub struct Writer<'a, 'b> {
    store: &'a mut [u8],
    table: &'b mut [u8],
    at: usize,
    words: usize,
    spaced: bool,
}

// What a call that gives words answers: how many there are, and how many bytes they have.
#[derive(Clone, Copy, Debug, PartialEq, Eq)]
pub struct WordCounts {
    pub words: usize,
    pub bytes: usize,
}

// An offset and a length.
#[derive(Clone, Copy)]
pub struct Pair {
    at: usize,
    size: usize,
}

impl Pair {
    pub fn new(at: usize, size: usize) -> Self
        ensures { result ≡ record { at = at; size = size } }
    {
        Pair { at, size }
    }

    // Four bytes of each number.
    #[tactic(auto, unfolding(crate::specs::Writer::pair_of, lists::specs::LittleEndian::le_bytes))]
    fn to_bytes(self) -> [u8; PAIR_SIZE]
        ensures { result ≡ pair_of self.at self.size }
    {
        let a = self.at.to_le_bytes();
        let s = self.size.to_le_bytes();
        [a[0], a[1], a[2], a[3], s[0], s[1], s[2], s[3]]
    }

    // Stores it from index `place` on, as far as it falls within the table. If the whole pair does, which is nearly always so, the
    // compiler knows the length and makes one store of it; so the other case is not inlined.
    pub fn put(self, table: &mut [u8], place: usize)
        ensures { table.new ≡ sets table.old place (pair_of self.at self.size) }
    {
        let room = table.len().saturating_sub(place);
        if room == 0 {
            return;
        }
        if PAIR_SIZE <= room {
            put(table, place, &self.to_bytes());
        } else {
            self.put_start(table, place);
        }
    }

    // The same, for a pair that may not fit.
    #[cold]
    #[inline(never)]
    fn put_start(self, table: &mut [u8], place: usize)
        ensures { table.new ≡ sets table.old place (pair_of self.at self.size) }
    {
        put(table, place, &self.to_bytes());
    }

    // Stores it as pair n of the table.
    fn put_nth(self, table: &mut [u8], n: usize)
        ensures { table.new ≡ sets table.old (pair_size * n) (pair_of self.at self.size) }
    {
        // Past its end nothing is stored, and before that the product is not too large.
        if n <= table.len() / PAIR_SIZE {
            self.put(table, PAIR_SIZE * n);
        }
    }
}

impl<'a, 'b> Writer<'a, 'b> {
    // Writes words end to end, or with a space before each if `spaced`, as in a line of the call sheet.
    pub fn new(store: &'a mut [u8], table: &'b mut [u8], spaced: bool) -> Self
        ensures store { result.store.ghost_name ≡ store.entry.ghost_name }
        ensures table { result.table.ghost_name ≡ table.entry.ghost_name }
        ensures start { written result ≡ unwritten spaced store.old table.old }
    {
        Writer::after(store, table, 0, 0, spaced)
    }

    // Goes on after the first `at` bytes of the store and the first `words` pairs of the table, which may be past their ends.
    pub fn after(
        store: &'a mut [u8],
        table: &'b mut [u8],
        at: usize,
        words: usize,
        spaced: bool,
    ) -> Self
        ensures store { result.store.ghost_name ≡ store.entry.ghost_name }
        ensures table { result.table.ghost_name ≡ table.entry.ghost_name }
        ensures start { written result ≡ record { store = store.old; table = table.old; at = at; words = words; spaced = spaced } }
    {
        Writer {
            store,
            table,
            at,
            words,
            spaced,
        }
    }

    // Stores one byte that belongs to no word.
    #[tactic(auto, unfolding(crate::specs::Writer::put_byte))]
    pub fn put_byte(&mut self, b: u8)
        ensures { Puts put_byte b self.old self.new }
    {
        let one = [b];
        put(self.store, self.at, &one);
        self.at = self.at.saturating_add(1);
    }

    // Stores what goes before a word: a space, if the writer is spaced.
    #[tactic(auto, unfolding(crate::specs::Writer::put_byte))]
    fn put_gap(&mut self)
        ensures { Puts put_gap self.old.spaced self.old self.new }
    {
        if self.spaced {
            self.put_byte(b' ');
        }
    }

    // Stores the pair of a word of `size` bytes, and moves past the word.
    fn advance(&mut self, size: usize)
        ensures { Puts advance size self.old self.new }
    {
        // Read once: the compiler can't know that a store into the table leaves them as they are.
        let (at, words) = (self.at, self.words);
        Pair::new(at, size).put_nth(self.table, words);
        self.at = at.saturating_add(size);
        self.words = words.saturating_add(1);
    }

    // Stores one word and its pair. Inlined, because most of it falls away for a word whose length the compiler knows.
    #[inline(always)]
    #[tactic(auto, unfolding(crate::specs::Writer::put_word, crate::specs::Writer::put_words))]
    pub fn put_word(&mut self, w: &[u8])
        ensures { Says (w.now ∷ []) self.old self.new }
    {
        self.put_gap();
        put(self.store, self.at, w);
        self.advance(w.len());
    }

    // Stores one word, A to Z lowered, and its pair.
    // A method for all but the line that stores adds more lines than it saves: a contract, and a closure or a place to pass.
    #[tactic(auto, unfolding(crate::specs::Writer::put_word, crate::specs::Writer::put_words))]
    pub fn put_word_lowered(&mut self, w: &[u8])
        ensures { Says (map to_lower w.now ∷ []) self.old self.new }
    {
        self.put_gap();
        put_lowered(self.store, self.at, w);
        self.advance(w.len());
    }

    // Whether a store or a table of these lengths is too short for what was measured.
    pub fn exceeds(&self, store: usize, table: usize) -> bool
        ensures { result ≡ too_short_for self.now.at self.now.words store table }
    {
        store < self.at || table / PAIR_SIZE < self.words
    }

    pub fn counts(&self) -> WordCounts
        ensures { result ≡ counts_at (written self.now) }
    {
        WordCounts {
            words: self.words,
            bytes: self.at,
        }
    }
}
