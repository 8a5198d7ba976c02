// Why a list cannot be compiled.
ghost use Rattle.std.specs.Prelude.{◌≡◌};
ghost use Rattle.compile.specs.declared.refusals.CompileRefusal.TheVariants.{List as OfList};
ghost use Rattle.compile.specs.Compiling.{compile_number};

use policy::fields::Header;
use policy::refusals::ListRefusal;
use std::fmt;

#[derive(Clone, Copy, PartialEq, Eq, Debug)]
pub enum CompileRefusal {
    // The list is refused.
    List(ListRefusal),
    // This header is the least that meets no rule.
    Gap(Header),
    // A level has over 256 nodes, or the chain over 1,024 rows.
    TooLarge,
}

impl CompileRefusal {
    // The number by which the refusal goes outside the library. Refusals of a header in the plain call have
    // other numbers, so each enum has its own match.
    pub fn number(self) -> u8
        ensures { result ≡ compile_number self }
    {
        match self {
            CompileRefusal::List(refusal) => refusal.number(),
            CompileRefusal::Gap(_) => 10,
            CompileRefusal::TooLarge => 11,
        }
    }
}

// A refusal is told by its number.
impl fmt::Display for CompileRefusal {
    ghost use Rattle.std.specs.Prelude.{Some, decimal};

    ghost output = { λ refusal. Some (decimal (compile_number refusal)) };

    fn fmt<W: fmt::Write>(&self, f: &mut fmt::Formatter<W>) -> fmt::Result {
        write!(f, "{}", self.number())
    }
}

impl From<ListRefusal> for CompileRefusal {
    ghost from_gives = { λ refusal r. r ≡ OfList refusal };

    fn from(refusal: ListRefusal) -> CompileRefusal {
        CompileRefusal::List(refusal)
    }
}
