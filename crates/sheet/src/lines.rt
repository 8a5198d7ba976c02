// Lines of sheets.
ghost use Rattle.std.specs.Prelude.{◌≡◌, ℕ, List, min, length};
ghost use Rattle.sheet.specs.Calls.{InLine, line_answer};
ghost use Rattle.sheet.specs.Sheets.{Lined, lines_at, sheet_says, Answers};

use crate::reader::Reader;
use faults::{LONGEST_SHEET, SheetFault};

// How many lines a sheet has at most.
pub const MOST_LINES: usize = 64;

// A form of lines.
pub trait LineForm {
    // What is read of a line.
    type Entry: Copy;

    // What line l, which begins at byte `at`, says.
    ghost says: { List ℕ → ℕ → ℕ → Lined Self.Entry };

    // A whole line, its line feed included.
    fn line(reader: &mut Reader) -> Result<Self::Entry, SheetFault>
        ensures { InLine says reader.old reader.new (line_answer result reader.new.at) };
}

// Reads the lines of a sheet into the places.
fn read_lines<F: LineForm>(sheet: &[u8], places: &mut [F::Entry]) -> Result<usize, SheetFault>
    ensures { Answers (lines_at F.says sheet.now (min (length places.old) 64) 1 0) places.old places.new result }
{
    let most = places.len().min(MOST_LINES);
    let mut reader = Reader::new(sheet);
    // By index: after a loop over `iter_mut().enumerate()` a proof knows how many places there are, and not what they hold.
    for count in 0..most {
        if reader.is_at_end() {
            return Ok(count);
        }
        reader.begin_line(count + 1);
        if !reader.has_feed() {
            return Err(SheetFault::NoLineFeed {
                at: sheet.len(),
                line: count + 1,
            });
        }
        places[count] = F::line(&mut reader)?;
    }
    if reader.is_at_end() {
        Ok(most)
    } else {
        Err(SheetFault::NoPlace {
            at: reader.position().at,
            line: most + 1,
        })
    }
}

// Reads a sheet into the places, an entry for each line, and answers how many there are.
pub fn read_sheet<F: LineForm>(sheet: &[u8], places: &mut [F::Entry]) -> Result<usize, SheetFault>
    ensures { Answers (sheet_says F.says sheet.now (length places.old)) places.old places.new result }
{
    let too_long = sheet.len() > LONGEST_SHEET;
    if too_long {
        return Err(SheetFault::TooLong);
    }
    read_lines::<F>(sheet, places)
}
