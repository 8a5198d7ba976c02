// Answers and refusals of the calls that take a list of rules.
ghost use Rattle.std.specs.Prelude.{◌≡◌};
ghost use Rattle.policy.specs.declared.refusals.PlainRefusal.TheVariants.{List as OfList};
ghost use Rattle.policy.specs.Refusals.{list_number, plain_number};

use std::fmt;

// The first rule met, counted from 0, and its code.
#[derive(Clone, Copy, PartialEq, Eq, Debug)]
pub struct Met {
    pub rule: usize,
    pub code: u16,
}

// Why a list is refused.
#[derive(Clone, Copy, PartialEq, Eq, Debug)]
pub enum ListRefusal {
    // There are more than 64 rules.
    TooManyRules,
    // This rule is the first one that is not good.
    BadRule(usize),
}

// Why the plain call is refused.
#[derive(Clone, Copy, PartialEq, Eq, Debug)]
pub enum PlainRefusal {
    // The list is refused.
    List(ListRefusal),
    // A number of the header does not fit its width.
    HeaderTooWide,
    // The header meets no rule.
    NoRuleMet,
}

impl ListRefusal {
    // The number by which the refusal goes outside the library. It is told by a match and not by the
    // variants' own numbers, which an enum has only where no variant holds a value.
    pub fn number(self) -> u8
        ensures { result ≡ list_number self }
    {
        match self {
            ListRefusal::TooManyRules => 8,
            ListRefusal::BadRule(_) => 9,
        }
    }
}

impl PlainRefusal {
    // The number by which the refusal goes outside the library.
    pub fn number(self) -> u8
        ensures { result ≡ plain_number self }
    {
        match self {
            PlainRefusal::List(refusal) => refusal.number(),
            PlainRefusal::HeaderTooWide => 12,
            PlainRefusal::NoRuleMet => 13,
        }
    }
}

// A refusal is told by its number.
impl fmt::Display for ListRefusal {
    ghost use Rattle.std.specs.Prelude.{Some, decimal};

    ghost output = { λ refusal. Some (decimal (list_number refusal)) };

    fn fmt<W: fmt::Write>(&self, f: &mut fmt::Formatter<W>) -> fmt::Result {
        let number = self.number();
        write!(f, "{number}")
    }
}

impl fmt::Display for PlainRefusal {
    ghost use Rattle.std.specs.Prelude.{Some, decimal};

    ghost output = { λ refusal. Some (decimal (plain_number refusal)) };

    fn fmt<W: fmt::Write>(&self, f: &mut fmt::Formatter<W>) -> fmt::Result {
        write!(f, "{}", self.number())
    }
}

impl From<ListRefusal> for PlainRefusal {
    ghost from_gives = { λ refusal r. r ≡ OfList refusal };

    fn from(refusal: ListRefusal) -> PlainRefusal {
        PlainRefusal::List(refusal)
    }
}
