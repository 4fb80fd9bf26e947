// The words of a reading, as a line has them and as a call writes them.
use recorded::buffer::put_number;
use recorded::fields::{LineError, byte_of};
use std::alloc::Global;
use word_writer::{PAIR_SIZE, WordCounts};

// What a call leaves in the two buffers of the C interface: the words' bytes, and for each word where it starts there and its
// length.
#[derive(Drop)]
pub struct Words {
    pub store: Vec<u8>,
    pub table: Vec<u8>,
}

// Puts the bytes of a word. A byte is written as itself, or as a backslash and a hex pair.
fn put_bytes(word: &[u8], store: &mut Vec<u8>) -> Result<(), LineError> {
    let mut pieces = word.split(|b| *b == b'\\');
    store.extend_from_slice(pieces.next().unwrap_or(b""))?;
    for piece in pieces {
        let Some((pair, plain)) = piece.split_at_checked(2) else {
            return Err(LineError::Malformed);
        };
        store.push(byte_of(pair)?)?;
        store.extend_from_slice(plain)?;
    }
    Ok(())
}

impl Words {
    pub fn new(alloc: Global) -> Words {
        Words {
            store: Vec::new(alloc),
            table: Vec::new(alloc),
        }
    }

    // Room for so many bytes and words. Buffers that grow word by word would for a while take twice as much.
    pub fn with_capacity(alloc: Global, bytes: usize, words: usize) -> Result<Words, LineError> {
        Ok(Words {
            store: Vec::with_capacity(alloc, bytes)?,
            table: Vec::with_capacity(alloc, words.saturating_mul(PAIR_SIZE))?,
        })
    }

    // The words of a field. If no hex pair follows a backslash, they are as many words that no call writes, of as many bytes.
    pub fn parse(alloc: Global, field: &[u8]) -> Result<Words, LineError> {
        let mut words = Words::new(alloc);
        match words.put(field) {
            Ok(()) => Ok(words),
            Err(LineError::Malformed) => Words::unwritten(alloc, field),
            Err(LineError::OutOfMemory) => Err(LineError::OutOfMemory),
        }
    }

    // No call writes this table: each word starts past every store.
    fn unwritten(alloc: Global, field: &[u8]) -> Result<Words, LineError> {
        let spaces = field.iter().filter(|b| **b == b' ').count();
        let escapes = field.iter().filter(|b| **b == b'\\').count();
        let written = field.len().saturating_sub(spaces);
        let bytes = written.saturating_sub(escapes.saturating_mul(2));
        let pairs = spaces.saturating_add(1).saturating_mul(PAIR_SIZE);
        Ok(Words {
            store: vec![in alloc; 0; bytes]?,
            table: vec![in alloc; u8::MAX; pairs]?,
        })
    }

    // How many words and bytes there are.
    pub fn counts(&self) -> WordCounts {
        WordCounts {
            words: self.table.len() / PAIR_SIZE,
            bytes: self.store.len(),
        }
    }

    // Puts the words of a field, which has a space between them. An empty field has none.
    pub fn put(&mut self, field: &[u8]) -> Result<(), LineError> {
        if field.is_empty() {
            return Ok(());
        }
        for word in field.split(|b| *b == b' ') {
            let start = self.store.len();
            put_bytes(word, &mut self.store)?;
            put_number(start, &mut self.table)?;
            put_number(self.store.len().saturating_sub(start), &mut self.table)?;
        }
        Ok(())
    }
}
