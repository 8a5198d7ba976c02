// Examples of lists that are compiled.
use compile::calls::compile;
use compile::places::Place;
use compile::refusals::CompileRefusal;
use policy::fields::Header;
use policy::refusals::ListRefusal;
use policy::rules::{Range, Rule};
use policy::verdict::Verdict;
use policy::worked::worked_rules;

#[test]
fn worked_rules_have_106_rows(rt: HostRuntime) {
    let mut place = Place::new();
    assert_eq!(rt; compile::<Verdict>(&worked_rules(), 0, &mut place), Ok(106));
    assert_eq!(rt; place.node_count(0), Some(1));
    assert_eq!(rt; place.node_count(1), Some(2));
    assert_eq!(rt; place.node_count(2), Some(2));
    assert_eq!(rt; place.node_count(3), Some(2));
    assert_eq!(rt; place.node_count(4), Some(3));
    assert_eq!(rt; place.node_count(5), None);
}

#[test]
fn first_gap_is_named(rt: HostRuntime) {
    let mut place = Place::new();
    let rules = worked_rules();
    let gap = Header {
        numbers: [0, 0, 0, 0, 0],
    };
    assert_eq!(rt;
        compile::<Verdict>(&rules[0..2], 0, &mut place),
        Err(CompileRefusal::Gap(gap))
    );
    assert_eq!(rt;
        compile::<Verdict>(&rules[0..0], 3, &mut place),
        Err(CompileRefusal::Gap(gap))
    );
    assert_eq!(rt; place.node_count(0), Some(0));
}

#[test]
fn bad_rule_is_named(rt: HostRuntime) {
    let mut place = Place::new();
    let mut rules = worked_rules();
    rules[1].code = 2;
    let refused = CompileRefusal::List(ListRefusal::BadRule(1));
    assert_eq!(rt; refused.number(), 9);
    assert_eq!(rt; compile::<Verdict>(&rules, 0, &mut place), Err(refused));
}

// Gives each rule but the last ports of its own and a code by the port.
fn spread_ports(rules: &mut [Rule; 64]) {
    for (i, rule) in rules.iter_mut().enumerate() {
        if i < 63 {
            let port = 1 + 1021 * i as u32;
            let alone = Range {
                low: port,
                high: port,
            };
            rule.ranges[2] = alone;
            rule.ranges[3] = alone;
            rule.code = 16 + (port / 2 % 16) as u16;
        }
    }
}

#[test]
fn long_chain_is_refused(rt: HostRuntime) {
    let mut place = Place::new();
    let mut rules = [worked_rules()[2]; 64];
    spread_ports(&mut rules);
    assert_eq!(rt;
        compile::<Verdict>(&rules, 0, &mut place),
        Err(CompileRefusal::TooLarge)
    );
}
