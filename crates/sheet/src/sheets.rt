// Sheets of rules.
ghost use Rattle.std.specs.Prelude.{◌≡◌, length};
ghost use Rattle.sheet.specs.Calls.{InField, InLine, in_field, answer, itself, listed};
ghost use Rattle.sheet.specs.Forms.{walk, port_rest};
ghost use Rattle.sheet.specs.Lines.{ranges_at};
ghost use Rattle.sheet.specs.Meaning.{Line, Settles, OneMeaning};
ghost use Rattle.sheet.specs.Readings.{address_at, port_at, protocol_at};
ghost use Rattle.sheet.specs.Refusing.{RefusalsRight};
ghost use Rattle.sheet.specs.Sheets.{coded, line_at, sheet_says, Answers};

use crate::addresses::block;
pub use crate::lines::MOST_LINES;
use crate::lines::{LineForm, read_sheet};
use crate::reader::Reader;
use crate::tokens::{Mark, Token};
pub use faults::LONGEST_SHEET;
use faults::{FieldFault, SheetFault};
use policy::fields::FIELDS;
use policy::kinds::Kind;
use policy::rules::{Range, Rule};
use std::marker::PhantomData;

impl<'a> Reader<'a> {
    // An address: `*` or a block.
    #[tactic(auto, unfolding(crate::specs::Forms::way_at))]
    fn address(&mut self, field: u8) -> Result<Range, FieldFault>
        ensures { InLine (in_field address_at field) self.old self.new (answer itself result self.new.at) }
    {
        let start = self.begin(field);
        match self.next()? {
            Token::Mark(Mark::Star) => {
                self.mark(Mark::Comma)?;
                Ok(Range {
                    low: 0,
                    high: u32::MAX,
                })
            }
            Token::Number(digits) => {
                let first = digits.value();
                let (second, third, fourth) = self.dotted_rest(Mark::Slash)?;
                let length = self.number_mark(Mark::Comma)?;
                block([first, second, third, fourth], length).ok_or(FieldFault::OutOfRange(start))
            }
            Token::Word(_) | Token::Mark(_) => Err(FieldFault::Misfit(start)),
        }
    }

    // What follows the first number of a port: the comma, or a high end and the comma.
    #[tactic(auto, unfolding(crate::specs::Forms::way_at))]
    fn high_end(&mut self) -> Result<Option<u32>, FieldFault>
        ensures { InField (walk 3 port_rest) self.old self.new (answer listed result self.new.at) }
    {
        let here = self.position();
        match self.next()? {
            Token::Mark(Mark::Comma) => Ok(None),
            Token::Mark(Mark::Dash) => {
                let high = self.number_mark(Mark::Comma)?;
                Ok(Some(high))
            }
            Token::Number(_) | Token::Word(_) | Token::Mark(_) => Err(FieldFault::Misfit(here)),
        }
    }

    // A port: `*`, a number, or a low and a high end.
    #[tactic(auto, unfolding(crate::specs::Forms::way_at))]
    fn port(&mut self, field: u8) -> Result<Range, FieldFault>
        ensures { InLine (in_field port_at field) self.old self.new (answer itself result self.new.at) }
    {
        let start = self.begin(field);
        match self.next()? {
            Token::Mark(Mark::Star) => {
                self.mark(Mark::Comma)?;
                Ok(Range {
                    low: 0,
                    high: 65_535,
                })
            }
            Token::Number(digits) => {
                let low = digits.value();
                let high = self.high_end()?.unwrap_or(low);
                if high <= 65_535 && low <= high {
                    Ok(Range { low, high })
                } else {
                    Err(FieldFault::OutOfRange(start))
                }
            }
            Token::Word(_) | Token::Mark(_) => Err(FieldFault::Misfit(start)),
        }
    }

    // A protocol: `*`, a number or a name.
    #[tactic(auto, unfolding(crate::specs::Forms::way_at))]
    fn protocol(&mut self, field: u8) -> Result<Range, FieldFault>
        ensures { InLine (in_field protocol_at field) self.old self.new (answer itself result self.new.at) }
    {
        let start = self.begin(field);
        let number = match self.next()? {
            Token::Mark(Mark::Star) => {
                self.mark(Mark::Comma)?;
                return Ok(Range { low: 0, high: 255 });
            }
            Token::Number(digits) => digits.value(),
            Token::Word(b"tcp") => 6,
            Token::Word(b"udp") => 17,
            Token::Word(b"icmp") => 1,
            Token::Word(_) | Token::Mark(_) => return Err(FieldFault::Misfit(start)),
        };
        self.mark(Mark::Comma)?;
        if number <= 255 {
            Ok(Range {
                low: number,
                high: number,
            })
        } else {
            Err(FieldFault::OutOfRange(start))
        }
    }

    // The five ranges of a line.
    fn ranges(&mut self) -> Result<[Range; FIELDS], FieldFault>
        ensures { InLine ranges_at self.old self.new (answer itself result self.new.at) }
    {
        let source = self.address(1)?;
        let destination = self.address(2)?;
        let source_port = self.port(3)?;
        let destination_port = self.port(4)?;
        let protocol = self.protocol(5)?;
        Ok([source, destination, source_port, destination_port, protocol])
    }
}

// Lines of five ranges and a word of the kind.
struct RuleForm<K> {
    kind: PhantomData<K>,
}

impl<K: Kind> LineForm for RuleForm<K> {
    type Entry = Rule;

    ghost says = { line_at (coded K.of_word K.code_of) };

    fn line(reader: &mut Reader) -> Result<Rule, SheetFault> {
        let ranges = reader.ranges()?;
        let start = reader.begin(6);
        let word = reader.rest_of_line();
        let decision = K::from_word(word).ok_or(SheetFault::NoWord(start))?;
        Ok(Rule {
            ranges,
            code: decision.code(),
        })
    }
}

// Reads a sheet into the places, a rule for each line, and answers how many rules there are. The rules
// of the lines before a fault stand in their places; all other places are as before.
pub fn read_rules<K: Kind>(sheet: &[u8], places: &mut [Rule]) -> Result<usize, SheetFault>
    ensures answers { Answers (sheet_says (line_at (coded K.Kind.of_word K.Kind.code_of)) sheet.now (length places.old)) places.old places.new result }
    ensures settles { Settles (Line (coded K.Kind.of_word K.Kind.code_of)) sheet.now places.old places.new result }
    ensures refusals { RefusalsRight (coded K.Kind.of_word K.Kind.code_of) sheet.now places.old places.new result }
    ensures one { OneMeaning (Line (coded K.Kind.of_word K.Kind.code_of)) sheet.now }
{
    read_sheet::<RuleForm<K>>(sheet, places)
}
