// Verdicts, the usual kind of decision.
ghost use Rattle.std.specs.Prelude.{◌≡◌, decimal, MatchOption, ◌≢◌};
ghost use Rattle.policy.specs.Letters.{IsWord};
ghost use Rattle.policy.specs.Verdicts.{verdict_code, verdict_word, verdict_of_code, verdict_of_word};
ghost use Rattle.policy.specs.Words.{word_bytes};
ghost use Rattle.policy.specs.Verdicting.{lawful, code_only, code_small, word_only, word_of_bytes};
ghost use Rattle.policy.specs.Verdicting;

use crate::kinds::Kind;
use crate::reasons::Reason;
use crate::words::Word;

// What happens to a packet: it is accepted, discarded without a word, or rejected for a reason.
#[derive(Clone, Copy, PartialEq, Eq, Debug)]
pub enum Verdict {
    Accept,
    Discard,
    Reject(Reason),
}

// The word of bytes that can be one.
fn word_of(text: &[u8]) -> Word
    requires { IsWord text.now }
    ensures { word_bytes result ≡ text.now }
{
    Word::new(text).unwrap()
}

// The reason that these digits write, without a leading zero.
fn reason_of(digits: &[u8]) -> Option<Reason>
    ensures { MatchOption result ((reason : Reason) → decimal reason.n ≢ digits.now) (λ reason. decimal reason.n ≡ digits.now) }
{
    match digits {
        [d @ b'0'..=b'9'] => Reason::new(*d - b'0'),
        [b'1', d @ b'0'..=b'5'] => Reason::new(10 + (*d - b'0')),
        _ => None,
    }
}

// The word of the rejection for this reason.
fn reject_word(reason: &Reason) -> Word
    ensures { word_bytes result ≡ verdict_word (Verdict.Reject reason.now) }
{
    let n = reason.number();
    if n < 10 {
        let mut text = *b"reject-0";
        text[7] += n;
        word_of(&text)
    } else {
        let mut text = *b"reject-10";
        text[8] += n - 10;
        word_of(&text)
    }
}

impl Kind for Verdict {
    ghost code_of = { verdict_code };

    ghost word_of = { verdict_word };

    ghost of_code = { verdict_of_code };

    ghost of_word = { verdict_of_word };

    ghost code_leads_back = { λ d. (lawful d).code };

    ghost code_alone = { code_only };

    ghost code_fits = { code_small };

    ghost word_leads_back = { λ d. (lawful d).word };

    ghost word_alone = { word_only };

    ghost proper = { Verdicting.proper };

    ghost bytes = { word_of_bytes };

    fn code(&self) -> u16 {
        match self {
            Verdict::Accept => 0,
            Verdict::Discard => 1,
            Verdict::Reject(reason) => 16 + reason.number() as u16,
        }
    }

    fn from_code(code: u16) -> Option<Verdict> {
        match code {
            0 => Some(Verdict::Accept),
            1 => Some(Verdict::Discard),
            16..=31 => Some(Verdict::Reject(Reason::new((code - 16) as u8)?)),
            _ => None,
        }
    }

    fn word(&self) -> Word {
        match self {
            Verdict::Accept => word_of(b"accept"),
            Verdict::Discard => word_of(b"discard"),
            Verdict::Reject(reason) => reject_word(reason),
        }
    }

    fn from_word(bytes: &[u8]) -> Option<Verdict> {
        if bytes == b"accept".as_slice() {
            return Some(Verdict::Accept);
        }
        if bytes == b"discard".as_slice() {
            return Some(Verdict::Discard);
        }
        let reason = reason_of(bytes.strip_prefix(b"reject-")?)?;
        Some(Verdict::Reject(reason))
    }
}
