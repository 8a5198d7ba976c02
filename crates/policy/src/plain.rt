// The plain call: the first rule of a list that a header meets, found by going through the list.
ghost use Rattle.std.specs.Prelude.{◌≡◌, true, false, IfErr, MatchResult};
ghost use Rattle.questions.specs.Asking.{accept, refusal};
ghost use Rattle.policy.specs.Rules.{FirstTold};
ghost use Rattle.policy.specs.Shapes.{Good, Coded};
ghost use Rattle.policy.specs.Refusals.{list_number, plain_number, list_asks, plain_asks, ListNames, PlainNames, Answers};

use crate::fields::Header;
use crate::kinds::Kind;
use crate::refusals::{ListRefusal, Met, PlainRefusal};
use crate::rules::Rule;

// How many rules a list has at most.
pub const MAX_RULES: usize = 64;

impl Rule {
    // Whether the rule is good: its ranges are, and its code belongs to a decision of the kind.
    pub fn is_good<K: Kind>(&self) -> bool
        ensures yes { result ≡ true → Good (Coded K.Kind.of_code) self.now }
        ensures otherwise { result ≡ false → Good (Coded K.Kind.of_code) self.now → ⊥ }
    {
        self.has_good_ranges() && K::from_code(self.code).is_some()
    }
}

// Whether the list can be used: it has at most 64 rules, and every rule is good.
pub fn check_list<K: Kind>(rules: &[Rule]) -> Result<(), ListRefusal>
    ensures asked { list_asks (Coded K.Kind.of_code) rules.now accept (refusal list_number result) }
    ensures names { IfErr result (ListNames (Coded K.Kind.of_code) rules.now) }
{
    if rules.len() > MAX_RULES {
        return Err(ListRefusal::TooManyRules);
    }
    for (i, rule) in rules.iter().enumerate() {
        if !rule.is_good::<K>() {
            return Err(ListRefusal::BadRule(i));
        }
    }
    Ok(())
}

// The first rule that the header meets, and its code.
pub fn first_rule<K: Kind>(rules: &[Rule], header: &Header) -> Result<Met, PlainRefusal>
    ensures asked { plain_asks (Coded K.Kind.of_code) rules.now header.now.numbers (refusal plain_number result) }
    ensures answers { MatchResult result (Answers rules.now header.now.numbers) (PlainNames (Coded K.Kind.of_code) rules.now header.now.numbers) }
    ensures told { FirstTold }
{
    check_list::<K>(rules)?;
    if !header.fits() {
        return Err(PlainRefusal::HeaderTooWide);
    }
    for (i, rule) in rules.iter().enumerate() {
        if rule.meets(header) {
            return Ok(Met {
                rule: i,
                code: rule.code,
            });
        }
    }
    Err(PlainRefusal::NoRuleMet)
}
