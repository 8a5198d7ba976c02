// Words, as sheets of rules write decisions.
ghost use Rattle.std.specs.Prelude.{◌≡◌, ℕ, ◌<◌, ◌≤◌, length, take, MatchOption};
ghost use Rattle.policy.specs.Letters.{IsWord};

// How many bytes a word has at most.
pub const LONGEST: usize = 16;

// A word: 1 to 16 bytes, none of them a comma or a line feed. It is handed out by value and takes no
// memory of the heap, so it is no `String`.
#[derive(Clone, Copy, Debug)]
pub struct Word {
    bytes: [u8; LONGEST],
    len: usize,
    ghost within: { len ≤ length bytes },
    ghost proper: { IsWord (take len bytes) },
}

impl Word {
    // The word of these bytes, if they can be one.
    pub fn new(text: &[u8]) -> Option<Word>
        ensures { MatchOption result (IsWord text.now → ⊥) (λ w. take w.len w.bytes ≡ text.now) }
    {
        if text.is_empty() || text.len() > LONGEST {
            return None;
        }
        if text.contains(&b',') || text.contains(&b'\n') {
            return None;
        }
        let mut bytes = [0; LONGEST];
        bytes[..text.len()].copy_from_slice(text);
        Some(Word {
            bytes,
            len: text.len(),
        })
    }

    // The bytes of the word.
    pub fn as_bytes(&self) -> &[u8]
        ensures { result.now ≡ take self.now.len self.now.bytes }
    {
        &self.bytes[..self.len]
    }
}
