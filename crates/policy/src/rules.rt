// Rules, and headers that meet them.
ghost use Rattle.std.specs.Prelude.{◌≡◌};
ghost use Rattle.policy.specs.Rules.{lies, admits, meets};

use crate::fields::{FIELDS, Header};

// The values from the low end to the high end, both included.
#[derive(Clone, Copy, PartialEq, Eq, Debug)]
pub struct Range {
    pub low: u32,
    pub high: u32,
}

// A rule has a range for each field, and the code of a decision. Ranges of any form can be written
// here, and a code that no decision has; calls that take a rule ask whether it is good, and answer by
// the number of a refusal if not.
#[derive(Clone, Copy, PartialEq, Eq, Debug)]
pub struct Rule {
    pub ranges: [Range; FIELDS],
    pub code: u16,
}

impl Range {
    // Whether the value lies in the range.
    pub fn holds(&self, value: u32) -> bool
        ensures { result ≡ lies self.now value }
    {
        self.low <= value && value <= self.high
    }
}

impl Rule {
    // Whether the rule takes this value of this field. Fields count from 0, and of a field past the
    // last the rule takes no value. (A match: for `is_some_and` over a range behind a reference no proof
    // was found.)
    pub fn admits(&self, field: usize, value: u32) -> bool
        ensures { result ≡ admits self.now field value }
    {
        match self.ranges.get(field) {
            Some(range) => range.holds(value),
            None => false,
        }
    }

    // Whether the header meets the rule.
    pub fn meets(&self, header: &Header) -> bool
        ensures { result ≡ meets self.now header.now.numbers }
    {
        for (field, number) in header.numbers.iter().enumerate() {
            if !self.admits(field, *number) {
                return false;
            }
        }
        true
    }
}
