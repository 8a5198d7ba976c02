// Readings, and what is expected of them.
use faults::SheetFault;
use policy::fields::FIELDS;
use policy::kinds::Kind;
use policy::rules::{Range, Rule};
use policy::verdict::Verdict;
use sheet::sheets::read_rules;
use std::process::Abort;
use std::test::Fail;

// An empty place.
pub fn place() -> Rule {
    Rule {
        ranges: [Range { low: 0, high: 0 }; FIELDS],
        code: 0,
    }
}

// The reading is refused with this number at this byte, line and field. (The four stand apart, so that the
// examples read as lines of a table.)
pub fn told(
    rt: &impl Abort,
    reading: Result<usize, SheetFault>,
    number: u8,
    byte: usize,
    line: usize,
    field: u8,
) -> Result<(), Fail> {
    let told = reading.map_err(|fault| {
        let told = fault.told();
        (told.number, told.byte, told.line, told.field)
    });
    assert_eq!(rt; told, Err((number, byte, line, field)));
    Ok(())
}

// The reading answers this count.
pub fn counted(
    rt: &impl Abort,
    reading: Result<usize, SheetFault>,
    count: usize,
) -> Result<(), Fail> {
    assert_eq!(rt; reading, Ok(count));
    Ok(())
}

// The sheet is read: it has this many rules.
pub fn read<K: Kind>(rt: &impl Abort, sheet: &[u8], count: usize) -> Result<(), Fail> {
    let mut places = [place(); 64];
    counted(rt, read_rules::<K>(sheet, &mut places), count)
}

// The sheet is refused.
pub fn refused<K: Kind>(
    rt: &impl Abort,
    sheet: &[u8],
    number: u8,
    byte: usize,
    line: usize,
    field: u8,
) -> Result<(), Fail> {
    let mut places = [place(); 64];
    told(
        rt,
        read_rules::<K>(sheet, &mut places),
        number,
        byte,
        line,
        field,
    )
}

// A sheet of verdicts is refused at its first line.
pub fn wrong(
    rt: &impl Abort,
    sheet: &[u8],
    number: u8,
    byte: usize,
    field: u8,
) -> Result<(), Fail> {
    refused::<Verdict>(rt, sheet, number, byte, 1, field)
}
