// Examples.
use crate::fields::Header;
use crate::kinds::Kind;
use crate::plain::{MAX_RULES, check_list, first_rule};
use crate::refusals::{ListRefusal, Met, PlainRefusal};
use crate::rules::Range;
use crate::verdict::Verdict;
use crate::worked::{half_rules, worked_gap, worked_headers, worked_rules};

#[test]
fn the_first_rule_met_decides(rt: HostRuntime) {
    let rules = worked_rules();
    let headers = worked_headers();
    assert_eq!(rt;
        first_rule::<Verdict>(&rules, &headers[0]),
        Ok(Met { rule: 0, code: 0 })
    );
    assert_eq!(rt;
        first_rule::<Verdict>(&rules, &headers[1]),
        Ok(Met { rule: 1, code: 29 })
    );
    assert_eq!(rt;
        first_rule::<Verdict>(&rules, &headers[2]),
        Ok(Met { rule: 2, code: 1 })
    );
}

#[test]
fn a_header_may_meet_no_rule(rt: HostRuntime) {
    assert_eq!(rt; worked_gap(), Err(PlainRefusal::NoRuleMet));
    let wide = Header {
        numbers: [0, 0, 65536, 0, 0],
    };
    assert_eq!(rt;
        first_rule::<Verdict>(&half_rules(), &wide),
        Err(PlainRefusal::HeaderTooWide)
    );
    assert_eq!(rt; PlainRefusal::HeaderTooWide.number(), 12);
}

#[test]
fn the_first_bad_rule_is_named(rt: HostRuntime) {
    let mut rules = worked_rules();
    rules[1].code = 2;
    rules[2].code = 2;
    let bad = ListRefusal::BadRule(1);
    assert_eq!(rt; check_list::<Verdict>(&rules), Err(bad));
    assert_eq!(rt;
        first_rule::<Verdict>(&rules, &worked_headers()[0]),
        Err(PlainRefusal::List(bad))
    );
    assert_eq!(rt; bad.number(), 9);
}

#[test]
fn a_list_has_at_most_64_rules(rt: HostRuntime) {
    let rule = worked_rules()[2];
    assert_eq!(rt; check_list::<Verdict>(&[rule; MAX_RULES]), Ok(()));
    assert_eq!(rt;
        check_list::<Verdict>(&[rule; MAX_RULES + 1]),
        Err(ListRefusal::TooManyRules)
    );
}

// Whether a rule with this source address is good.
fn takes_source(low: u32, high: u32) -> bool {
    let mut rule = worked_rules()[2];
    rule.ranges[0] = Range { low, high };
    rule.has_good_ranges()
}

#[test]
fn addresses_are_blocks(rt: HostRuntime) {
    assert!(rt; takes_source(7, 7) && takes_source(6, 7) && takes_source(u32::MAX, u32::MAX));
    assert!(rt; takes_source(0, u32::MAX) && takes_source(0x8000_0000, u32::MAX));
    assert!(rt; !takes_source(7, 8) && !takes_source(4, 6) && !takes_source(8, 7));
    assert!(rt; !takes_source(1, u32::MAX) && !takes_source(0, u32::MAX - 1));
}

// Whether the verdict of the code has this word, and the word leads back to it.
fn spells(code: u16, text: &[u8]) -> bool {
    match Verdict::from_code(code) {
        Some(verdict) => verdict.word().as_bytes() == text
            && Verdict::from_word(text) == Some(verdict),
        None => false,
    }
}

#[test]
fn words_lead_back(rt: HostRuntime) {
    assert!(rt; spells(0, b"accept") && spells(1, b"discard"));
    assert!(rt; spells(16, b"reject-0") && spells(31, b"reject-15"));
    assert_eq!(rt; Verdict::from_code(15), None);
    assert_eq!(rt; Verdict::from_word(b"reject-015"), None);
    assert_eq!(rt; Verdict::from_word(b"reject-16"), None);
    assert_eq!(rt; Verdict::from_word(b"reject-"), None);
    assert_eq!(rt; Verdict::from_word(b"Accept"), None);
}
