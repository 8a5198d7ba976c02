// Kinds of decisions.
ghost use Rattle.std.specs.Prelude.{◌≡◌, ℕ, ◌^◌, ◌<◌, List, length, Some, None, Option, slice_index};
ghost use Rattle.policy.specs.Letters.{IsWord};
ghost use Rattle.policy.specs.Words.{word_bytes};

use crate::words::Word;

// A kind of decisions. Each decision has a code and a word, which lead back to it; a code or bytes of
// no decision lead to none.
pub trait Kind: Copy {
    // The code and the word of each decision, and the decision of a code and of a word.
    ghost code_of: { Self → ℕ };

    ghost word_of: { Self → List ℕ };

    ghost of_code: { ℕ → Option Self };

    ghost of_word: { List ℕ → Option Self };

    // The code of the decision.
    fn code(&self) -> u16
        ensures { result ≡ code_of self.now };

    // The decision of the code.
    fn from_code(code: u16) -> Option<Self>
        ensures { result ≡ of_code code };

    // The word of the decision.
    fn word(&self) -> Word
        ensures { word_bytes result ≡ word_of self.now };

    // The decision of the word.
    fn from_word(bytes: &[u8]) -> Option<Self>
        ensures { result ≡ of_word bytes.now };

    // The code leads back to the decision, and no other code leads to it; it fits 16 bits.
    ghost code_leads_back: { (d : Self) → of_code (code_of d) ≡ Some d };

    ghost code_alone: { (c : ℕ) (d : Self) → of_code c ≡ Some d → code_of d ≡ c };

    ghost code_fits: { (d : Self) → code_of d < 2 ^ 16 };

    // So does the word, which is made of bytes that can be a word.
    ghost word_leads_back: { (d : Self) → of_word (word_of d) ≡ Some d };

    ghost word_alone: { (w : List ℕ) (d : Self) → of_word w ≡ Some d → word_of d ≡ w };

    ghost proper: { (d : Self) → IsWord (word_of d) };

    ghost bytes: { (d : Self) (k : ℕ) → k < length (word_of d) → slice_index (word_of d) k < 256 };
}
