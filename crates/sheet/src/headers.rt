// Header lines.
ghost use Rattle.std.specs.Prelude.{◌≡◌, length};
ghost use Rattle.sheet.specs.Calls.{InLine, in_field, answer, itself};
ghost use Rattle.sheet.specs.Headers.{dotted_at, number_at, numbers_at, header_at};
ghost use Rattle.sheet.specs.Meaning.{HeaderLine, Settles, OneMeaning};
ghost use Rattle.sheet.specs.Sheets.{sheet_says, Answers};

use crate::addresses::dotted;
use crate::lines::{LineForm, read_sheet};
use crate::reader::Reader;
use crate::tokens::Mark;
use faults::{FieldFault, SheetFault};
use policy::fields::{FIELDS, Header};

impl<'a> Reader<'a> {
    // An address without a length.
    #[tactic(auto, unfolding(crate::specs::Forms::way_at))]
    fn header_address(&mut self, field: u8) -> Result<u32, FieldFault>
        ensures { InLine (in_field dotted_at field) self.old self.new (answer itself result self.new.at) }
    {
        let start = self.begin(field);
        let first = self.number()?;
        let (second, third, fourth) = self.dotted_rest(Mark::Comma)?;
        dotted([first, second, third, fourth]).ok_or(FieldFault::OutOfRange(start))
    }

    // A number up to the top, and the mark that closes its field.
    #[tactic(auto, unfolding(crate::specs::Forms::way_at))]
    fn header_number(&mut self, field: u8, top: u32, close: Mark) -> Result<u32, FieldFault>
        ensures { InLine (in_field (number_at top close) field) self.old self.new (answer itself result self.new.at) }
    {
        let start = self.begin(field);
        let number = self.number_mark(close)?;
        if number <= top {
            Ok(number)
        } else {
            Err(FieldFault::OutOfRange(start))
        }
    }

    // The five numbers of a header line.
    fn numbers(&mut self) -> Result<[u32; FIELDS], FieldFault>
        ensures { InLine numbers_at self.old self.new (answer itself result self.new.at) }
    {
        let source = self.header_address(1)?;
        let destination = self.header_address(2)?;
        let source_port = self.header_number(3, 65_535, Mark::Comma)?;
        let destination_port = self.header_number(4, 65_535, Mark::Comma)?;
        let protocol = self.header_number(5, 255, Mark::LineFeed)?;
        Ok([source, destination, source_port, destination_port, protocol])
    }
}

// Lines of five numbers.
struct HeaderForm;

impl LineForm for HeaderForm {
    type Entry = Header;

    ghost says = { header_at };

    fn line(reader: &mut Reader) -> Result<Header, SheetFault> {
        let numbers = reader.numbers()?;
        Ok(Header { numbers })
    }
}

// Reads a sheet of headers into the places, a header for each line, and answers how many headers there
// are. The headers of the lines before a fault stand in their places; all other places are as before.
pub fn read_headers(sheet: &[u8], places: &mut [Header]) -> Result<usize, SheetFault>
    ensures answers { Answers (sheet_says header_at sheet.now (length places.old)) places.old places.new result }
    ensures settles { Settles HeaderLine sheet.now places.old places.new result }
    ensures one { OneMeaning HeaderLine sheet.now }
{
    read_sheet::<HeaderForm>(sheet, places)
}
