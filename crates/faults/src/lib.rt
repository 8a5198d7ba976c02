// What is wrong with a sheet, and where.
#![tactic(auto)]

ghost use Rattle.std.specs.Prelude.{◌≡◌};
ghost use Rattle.faults.specs.declared.FieldFault.TheVariants.{IllMade};
ghost use Rattle.faults.specs.declared.SheetFault.TheVariants.{Field};
ghost use Rattle.faults.specs.declared.Layer.TheVariants.{Sheet};
ghost use Rattle.faults.specs.Faults.{tells_at, tells_here, told};

// How many bytes a sheet has at most.
pub const LONGEST_SHEET: usize = 8192;

// A line and a field, both counted from 1.
#[derive(Clone, Copy, PartialEq, Eq, Debug)]
pub struct Spot {
    pub line: usize,
    pub field: u8,
}

// A byte, counted from 0, and the line and field that it is asked for.
#[derive(Clone, Copy, PartialEq, Eq, Debug)]
pub struct Position {
    pub at: usize,
    pub spot: Spot,
}

// A token that is not well made, by its first byte.
#[derive(Clone, Copy, PartialEq, Eq, Debug)]
pub struct TokenFault {
    pub position: Position,
}

// What is wrong with a field.
#[derive(Clone, Copy, PartialEq, Eq, Debug)]
pub enum FieldFault {
    // A token is not well made.
    IllMade(TokenFault),
    // The token that begins here does not fit the field's form.
    Misfit(Position),
    // The numbers of the field that begins here are out of range.
    OutOfRange(Position),
}

// What is wrong with a sheet.
#[derive(Clone, Copy, PartialEq, Eq, Debug)]
pub enum SheetFault {
    // It has too many bytes.
    TooLong,
    // There is no place for the line that begins at this byte.
    NoPlace { at: usize, line: usize },
    // The line has no line feed: the sheet ends at this byte.
    NoLineFeed { at: usize, line: usize },
    // A field is wrong.
    Field(FieldFault),
    // What begins here is no word of the kind.
    NoWord(Position),
}

// The part of the reader that finds a fault.
#[derive(Clone, Copy, PartialEq, Eq, Debug)]
pub enum Layer {
    Sheet,
    Token,
    Field,
    Kind,
}

// What a fault tells: its number, the byte counted from 0, the line and the field counted from 1, and the
// layer. The numbers are those that go out of the library, which writes 0 where there is no line or field.
#[derive(Clone, Copy, PartialEq, Eq, Debug)]
pub struct Told {
    pub number: u8,
    pub byte: usize,
    pub line: usize,
    pub field: u8,
    pub layer: Layer,
}

impl From<TokenFault> for FieldFault {
    ghost from_gives = { λ fault r. r ≡ IllMade fault };

    fn from(fault: TokenFault) -> FieldFault {
        FieldFault::IllMade(fault)
    }
}

impl From<FieldFault> for SheetFault {
    ghost from_gives = { λ fault r. r ≡ Field fault };

    fn from(fault: FieldFault) -> SheetFault {
        SheetFault::Field(fault)
    }
}

impl Told {
    // A fault of the sheet as a whole, or of a line: by its number, its byte and the line.
    fn of_sheet(number: u8, byte: usize, line: usize) -> Told
        ensures { result ≡ tells_at number byte line 0 Sheet }
    {
        Told {
            number,
            byte,
            line,
            field: 0,
            layer: Layer::Sheet,
        }
    }
}

impl Position {
    // A fault here, by its number and its layer.
    fn told(self, number: u8, layer: Layer) -> Told
        ensures { result ≡ tells_here number self layer }
    {
        Told {
            number,
            byte: self.at,
            line: self.spot.line,
            field: self.spot.field,
            layer,
        }
    }
}

impl SheetFault {
    // What the fault tells.
    pub fn told(self) -> Told
        ensures { result ≡ told self }
    {
        match self {
            SheetFault::TooLong => Told::of_sheet(1, LONGEST_SHEET, 0),
            SheetFault::NoPlace { at, line } => Told::of_sheet(2, at, line),
            SheetFault::NoLineFeed { at, line } => Told::of_sheet(3, at, line),
            SheetFault::Field(FieldFault::IllMade(fault)) => fault.position.told(4, Layer::Token),
            SheetFault::Field(FieldFault::Misfit(here)) => here.told(5, Layer::Field),
            SheetFault::Field(FieldFault::OutOfRange(here)) => here.told(6, Layer::Field),
            SheetFault::NoWord(here) => here.told(7, Layer::Kind),
        }
    }
}
