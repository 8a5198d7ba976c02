// The reader of a sheet.
ghost use Rattle.std.specs.Prelude.{◌≡◌, ◌≤◌, length};

use crate::tokens::{Mark, Token, unfed_len};
use faults::{FieldFault, Position, Spot, TokenFault};

// A place in a sheet, and the line and the field that are read there.
#[derive(Drop)]
pub struct Reader<'a> {
    sheet: &'a [u8],
    at: usize,
    spot: Spot,
    ghost within: { at ≤ length sheet.now },
}

impl<'a> Reader<'a> {
    ghost use Rattle.std.specs.Prelude.{◌≡◌, ◌<◌, ◌≤◌, ◌∷◌, [], length, MatchBool};
    ghost use Rattle.sheet.specs.Calls.{Took, InField, Began, answer, one, none, triple};
    ghost use Rattle.sheet.specs.Forms.{digits, the, way_at, position};
    ghost use Rattle.sheet.specs.Headers.{number_way};
    ghost use Rattle.sheet.specs.Readings.{dotted_rest};
    ghost use Rattle.sheet.specs.Sheets.{up_to_feed, HasFeed, LacksFeed, after_feed};

    // A reader at the first byte of the sheet.
    pub fn new(sheet: &'a [u8]) -> Reader<'a>
        ensures sheet { result.sheet.now ≡ sheet.now }
        ensures at { result.at ≡ 0 }
    {
        Reader {
            sheet,
            at: 0,
            spot: Spot { line: 1, field: 1 },
        }
    }

    // Whether no byte is left.
    pub fn is_at_end(&self) -> bool
        ensures { MatchBool result (length self.now.sheet.now ≤ self.now.at) (self.now.at < length self.now.sheet.now) }
    {
        self.at >= self.sheet.len()
    }

    // Where the reader stands.
    pub fn position(&self) -> Position
        ensures { result ≡ position self.now.at self.now.spot }
    {
        Position {
            at: self.at,
            spot: self.spot,
        }
    }

    // Begins this field of the line; the field's position.
    pub fn begin(&mut self, field: u8) -> Position
        ensures began { Began field self.old self.new }
        ensures start { result ≡ position self.new.at self.new.spot }
    {
        self.spot.field = field;
        self.position()
    }

    // Begins this line, where the reader stands.
    pub fn begin_line(&mut self, line: usize)
        ensures sheet { self.new.sheet.now ≡ self.old.sheet.now }
        ensures at { self.new.at ≡ self.old.at }
        ensures line { self.new.spot.line ≡ line }
    {
        self.spot.line = line;
    }

    // Whether a line feed follows.
    pub fn has_feed(&self) -> bool
        ensures { MatchBool result (HasFeed self.now.sheet.now self.now.at) (LacksFeed self.now.sheet.now self.now.at) }
    {
        let rest = &self.sheet[self.at..];
        unfed_len(rest) < rest.len()
    }

    // The bytes up to the line feed; the reader goes past it.
    pub fn rest_of_line(&mut self) -> &'a [u8]
        ensures bytes { result.now ≡ up_to_feed self.old.sheet.now self.old.at }
        ensures sheet { self.new.sheet.now ≡ self.old.sheet.now }
        ensures at { self.new.at ≡ after_feed self.old.sheet.now self.old.at }
        ensures spot { self.new.spot ≡ self.old.spot }
    {
        let sheet = self.sheet;
        let rest = &sheet[self.at..];
        let line = &rest[..unfed_len(rest)];
        self.at = (self.at + line.len() + 1).min(sheet.len());
        line
    }

    // The token that begins here; the place moves past it.
    #[tactic(auto, using(crate::proofs::Taking::size_fits))]
    pub fn next(&mut self) -> Result<Token<'a>, TokenFault>
        ensures { Took self.old self.new result }
    {
        let position = self.position();
        let sheet = self.sheet;
        let token = Token::first(&sheet[self.at..]).ok_or(TokenFault { position })?;
        self.at += token.len();
        Ok(token)
    }

    // The number that is to stand here.
    #[tactic(auto, unfolding(crate::specs::Forms::way_at))]
    pub fn number(&mut self) -> Result<u32, FieldFault>
        ensures { InField (way_at (digits ∷ [])) self.old self.new (answer one result self.new.at) }
    {
        let here = self.position();
        match self.next()? {
            Token::Number(digits) => Ok(digits.value()),
            Token::Word(_) | Token::Mark(_) => Err(FieldFault::Misfit(here)),
        }
    }

    // The mark that is to stand here.
    #[tactic(auto, unfolding(crate::specs::Forms::way_at))]
    pub fn mark(&mut self, wanted: Mark) -> Result<(), FieldFault>
        ensures { InField (way_at (the wanted ∷ [])) self.old self.new (answer none result self.new.at) }
    {
        let here = self.position();
        match self.next()? {
            Token::Mark(m) if m == wanted => Ok(()),
            Token::Number(_) | Token::Word(_) | Token::Mark(_) => Err(FieldFault::Misfit(here)),
        }
    }

    // A number and the mark after it.
    #[tactic(auto, unfolding(crate::specs::Forms::way_at))]
    pub fn number_mark(&mut self, close: Mark) -> Result<u32, FieldFault>
        ensures { InField (way_at (number_way close)) self.old self.new (answer one result self.new.at) }
    {
        let number = self.number()?;
        self.mark(close)?;
        Ok(number)
    }

    // What follows the first of four numbers with dots, up to the mark after them.
    #[tactic(auto, unfolding(crate::specs::Forms::way_at))]
    pub fn dotted_rest(&mut self, close: Mark) -> Result<(u32, u32, u32), FieldFault>
        ensures { InField (way_at (dotted_rest close)) self.old self.new (answer triple result self.new.at) }
    {
        self.mark(Mark::Dot)?;
        let second = self.number_mark(Mark::Dot)?;
        let third = self.number_mark(Mark::Dot)?;
        let fourth = self.number_mark(close)?;
        Ok((second, third, fourth))
    }
}
