// Compiles some rule lists and tells how large their chains are; with an argument also how long it took.
#![tactic(auto)]

use compile::calls::compile;
use compile::places::Place;
use policy::fields::FIELDS;
use policy::rules::{Range, Rule};
use policy::verdict::Verdict;
use policy::worked::worked_rules;
use std::env;
use std::time::Instant;

// The number of rules of each list.
const RULES: usize = 64;

// A rule that takes every header.
fn any_rule() -> Rule {
    worked_rules()[2]
}

// A list that ends with the rule for every header; the others are made from such a rule and their number.
fn list<F: Fn(u32, &mut Rule)>(make: F) -> [Rule; RULES]
    requires { F.IsAlwaysCallable make }
{
    let mut rules = [any_rule(); RULES];
    for (i, rule) in rules.iter_mut().enumerate() {
        make(i as u32, rule);
    }
    rules[RULES - 1] = any_rule();
    rules
}

// The block of an address field that a value lies in; its length is 1 to 32.
fn block(value: u32, length: u32) -> Range {
    let length = length.clamp(1, 32);
    let mask = (1u32 << (32 - length)) - 1;
    let low = value & !mask;
    Range {
        low,
        high: low | mask,
    }
}

// One of rules within one another in both addresses and both ports, the narrowest first.
fn nested(i: u32, rule: &mut Rule) {
    let wide = i.min(63);
    let block = block(0, 32 - wide / 2);
    let ports = Range {
        low: 63 - wide,
        high: 65472 + wide,
    };
    rule.ranges[0] = block;
    rule.ranges[1] = block;
    rule.ranges[2] = ports;
    rule.ranges[3] = ports;
    rule.code = 16 + (wide % 16) as u16;
}

// One of rules that restrict one field each, with a protocol of its own, all with one code.
fn one_field_each(i: u32, rule: &mut Rule) {
    let at = i & 15;
    let band = Range {
        low: at * 4096,
        high: at * 4096 + 2047,
    };
    match i / 16 {
        0 => rule.ranges[0] = block(at << 28, 5),
        1 => rule.ranges[1] = block(at << 28, 5),
        2 => rule.ranges[2] = band,
        _ => rule.ranges[3] = band,
    }
    let protocol = i & 127;
    rule.ranges[4] = Range {
        low: protocol,
        high: protocol,
    };
    rule.code = 0;
}

// One of rules whose port ranges slide, and whose addresses lie side by side.
fn sliding(i: u32, rule: &mut Rule) {
    let at = i & 63;
    let block = block(at << 26, 6 - at % 4);
    let ports = Range {
        low: at * 512,
        high: at * 512 + 8191,
    };
    rule.ranges[0] = block;
    rule.ranges[1] = block;
    rule.ranges[2] = ports;
    rule.ranges[3] = ports;
    rule.code = 0;
}

// One of rules as in a rack: networks and services, and all else discarded.
fn realistic(i: u32, rule: &mut Rule) {
    let at = i & 63;
    let port = 5000 + at * 2;
    rule.ranges[1] = block(0x0A00_0000 + ((at / 8) << 16), 16);
    rule.ranges[3] = Range {
        low: port,
        high: port,
    };
    let protocol = if at % 2 == 0 { 17 } else { 6 };
    rule.ranges[4] = Range {
        low: protocol,
        high: protocol,
    };
    rule.code = (at % 2) as u16;
}

// Where lists are compiled, and whether it is told how long each took.
#[derive(Drop)]
struct Bench<'a> {
    rt: &'a HostRuntime,
    place: Place,
    timed: bool,
}

impl<'a> Bench<'a> {
    // Compiles a list, and tells its name and what came of it.
    fn tell(&mut self, name: &str, rules: &[Rule]) -> anyhow::Result<()> {
        let rt = self.rt;
        let start = Instant::now(rt)?;
        let result = compile::<Verdict>(rules, 0, &mut self.place);
        let spent = start.elapsed(rt)?;
        match result {
            Ok(rows) => print!(rt; "{name}: {rows} rows, nodes")?,
            Err(refusal) => print!(rt; "{name}: refused with {refusal}, nodes")?,
        }
        for level in 0..FIELDS {
            let nodes = self.place.node_count(level).unwrap_or(0);
            print!(rt; " {nodes}")?;
        }
        if self.timed {
            let micros = spent.as_micros();
            print!(rt; ", {micros} microseconds")?;
        }
        println!(rt; "")?;
        Ok(())
    }
}

fn main(rt: HostRuntime) -> anyhow::Result<()> {
    let timed = env::args(&rt)?.count() > 1;
    let mut bench = Bench {
        rt: &rt,
        place: Place::new(),
        timed,
    };
    bench.tell("worked", &worked_rules())?;
    bench.tell("realistic", &list(realistic))?;
    bench.tell("nested", &list(nested))?;
    let mut rules = list(one_field_each);
    rules[RULES - 1].code = 0;
    bench.tell("one field each", &rules)?;
    let mut rules = list(sliding);
    rules[RULES - 1].code = 0;
    bench.tell("sliding", &rules)
}
