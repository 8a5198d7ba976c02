// Tokens, the smallest parts of a sheet.
ghost use Rattle.std.specs.Prelude.{◌≡◌, ◌≤◌, true, length, option_map};
ghost use Rattle.std.specs.Str.Parse.{digits_value};
ghost use Rattle.std.specs.List.{list_all, prefix_len};
ghost use Rattle.sheet.specs.Tokens.{mark_of, is_digit, is_letter};
ghost use Rattle.sheet.specs.Sheets.{not_feed};

// A byte that is a token by itself.
#[derive(Clone, Copy, PartialEq, Eq, Debug)]
pub enum Mark {
    Dot,
    Slash,
    Dash,
    Star,
    Comma,
    LineFeed,
}

impl Mark {
    // The mark that this byte is, if it is one.
    fn of_byte(byte: u8) -> Option<Mark>
        ensures { result ≡ mark_of byte }
    {
        match byte {
            b'.' => Some(Mark::Dot),
            b'/' => Some(Mark::Slash),
            b'-' => Some(Mark::Dash),
            b'*' => Some(Mark::Star),
            b',' => Some(Mark::Comma),
            b'\n' => Some(Mark::LineFeed),
            _ => None,
        }
    }
}

// Three chains, each with a test of its own: one function over the test would take longer to say than these do.

// How many digits stand at the front.
fn digits_len(bytes: &[u8]) -> usize
    ensures value { result ≡ prefix_len is_digit bytes.now }
    ensures within { result ≤ length bytes.now }
{
    bytes.iter().take_while(|b| b.is_ascii_digit()).count()
}

// How many small letters stand at the front.
fn letters_len(bytes: &[u8]) -> usize
    ensures value { result ≡ prefix_len is_letter bytes.now }
    ensures within { result ≤ length bytes.now }
{
    bytes.iter().take_while(|b| b.is_ascii_lowercase()).count()
}

// How many bytes stand before the first line feed, or at all where there is none.
pub fn unfed_len(bytes: &[u8]) -> usize
    ensures value { result ≡ prefix_len not_feed bytes.now }
    ensures within { result ≤ length bytes.now }
{
    bytes.iter().take_while(|b| **b != b'\n').count()
}

// The bytes of a number.
#[derive(Clone, Copy, Debug)]
pub struct Digits<'a> {
    bytes: &'a [u8],
    ghost few: { length bytes.now ≤ 5 },
    ghost all: { list_all is_digit bytes.now ≡ true },
}

impl<'a> Digits<'a> {
    ghost use Rattle.sheet.specs.Calls.{written};
    ghost use Rattle.sheet.specs.Tokens.{number_if_made, digits_of};

    // The longest run of digits at the front, if there are at most five, and no zero before others.
    #[tactic(auto, using(crate::proofs::Taking::run_of_digits))]
    fn first(bytes: &'a [u8]) -> Option<Digits<'a>>
        ensures { option_map written result ≡ number_if_made (digits_of bytes.now) }
    {
        let digits = &bytes[..digits_len(bytes)];
        if digits.len() <= 5 && (digits.len() <= 1 || digits[0] != b'0') {
            Some(Digits { bytes: digits })
        } else {
            None
        }
    }

    // The number that the digits write.
    pub fn value(&self) -> u32
        ensures { result ≡ digits_value 10 self.now.bytes.now }
    {
        // No `fold`: nothing says of the number that its closure is given that ten times it still fits.
        let mut n = 0u32;
        for b in self.bytes {
            n = 10 * n + u32::from(*b - b'0');
        }
        n
    }
}

// A token: a number or a word by its bytes, or a mark.
#[derive(Clone, Copy, Debug)]
pub enum Token<'a> {
    Number(Digits<'a>),
    Word(&'a [u8]),
    Mark(Mark),
}

impl<'a> Token<'a> {
    ghost use Rattle.sheet.specs.Calls.{seen};
    ghost use Rattle.sheet.specs.Tokens.{token, size};

    // The token that begins the bytes, if it is well made.
    #[tactic(auto, unfolding(crate::specs::Tokens::token))]
    pub fn first(bytes: &'a [u8]) -> Option<Token<'a>>
        ensures { option_map seen result ≡ token bytes.now }
    {
        let byte = *bytes.first()?;
        if byte.is_ascii_digit() {
            Some(Token::Number(Digits::first(bytes)?))
        } else if byte.is_ascii_lowercase() {
            Some(Token::Word(&bytes[..letters_len(bytes)]))
        } else {
            Some(Token::Mark(Mark::of_byte(byte)?))
        }
    }

    // How many bytes the token has.
    pub fn len(&self) -> usize
        ensures { result ≡ size (seen self.now) }
    {
        match self {
            Token::Number(digits) => digits.bytes.len(),
            Token::Word(letters) => letters.len(),
            Token::Mark(_) => 1,
        }
    }
}
