// Worked examples of faults, a function for each: each is a theorem about its own text.
#![tactic(auto)]

ghost use Rattle.faults.specs.Faults.{tells_at};
ghost use Rattle.sheet_worked.specs.Worked.{Refuses};
ghost use Rattle.faults.specs.declared.Layer.TheVariants.{Token, Field};

use faults::SheetFault;
use policy::fields::FIELDS;
use policy::rules::{Range, Rule};
use policy::verdict::Verdict;
use sheet::sheets::read_rules;

// A place for a rule.
fn empty_place() -> Rule {
    Rule {
        ranges: [Range { low: 0, high: 0 }; FIELDS],
        code: 0,
    }
}

// A number with a zero before its other digits is not well made.
pub fn leading_zero() -> Result<usize, SheetFault>
    ensures { Refuses (tells_at 4 0 1 1 Token) result }
{
    let mut places = [empty_place()];
    read_rules::<Verdict>(b"01.0.0.0/8,*,*,*,*,accept\n", &mut places)
}

// A bit after the length of an address is set.
pub fn bit_after_length() -> Result<usize, SheetFault>
    ensures { Refuses (tells_at 6 0 1 1 Field) result }
{
    let mut places = [empty_place()];
    read_rules::<Verdict>(b"10.0.0.1/8,*,*,*,*,accept\n", &mut places)
}

// The low end of a port range is above its high end.
pub fn low_above_high() -> Result<usize, SheetFault>
    ensures { Refuses (tells_at 6 4 1 3 Field) result }
{
    let mut places = [empty_place()];
    read_rules::<Verdict>(b"*,*,80-79,*,*,accept\n", &mut places)
}
