// Decides the worked headers by the worked rules, compiles the rules, then makes some calls on a card, and
// tells each step.
#![tactic(auto)]

use card::events::Call;
use card::runs::run_new;
use compile::calls::compile;
use compile::places::Place;
use policy::fields::{FIELDS, Header};
use policy::kinds::Kind;
use policy::plain::first_rule;
use policy::verdict::Verdict;
use policy::worked::{worked_headers, worked_rules};
use std::fmt;
use std::net::Ipv4Addr;
use store::flat::FlatStore;
use store::row::Row;

// How many rows the store has room for.
const CELLS: usize = 1024;

// A header in words.
#[derive(Drop)]
struct Route(Header);

impl fmt::Display for Route {
    fn fmt<W: fmt::Write>(&self, f: &mut fmt::Formatter<W>) -> fmt::Result {
        let [source, destination, from, to, protocol] = self.0.numbers;
        let source = Ipv4Addr::from(source);
        let destination = Ipv4Addr::from(destination);
        write!(
            f,
            "{source} port {from} to {destination} port {to}, protocol {protocol}"
        )
    }
}

// The word of a decision, and its code.
#[derive(Drop)]
struct Decision(u16);

impl fmt::Display for Decision {
    fn fmt<W: fmt::Write>(&self, f: &mut fmt::Formatter<W>) -> fmt::Result {
        if let Some(verdict) = Verdict::from_code(self.0) {
            for byte in verdict.word().as_bytes() {
                let letter = char::from(*byte);
                write!(f, "{letter}")?;
            }
        }
        write!(f, " (code {})", self.0)
    }
}

// Decides the worked headers by the plain call.
fn decide_all(rt: &HostRuntime) -> anyhow::Result<()> {
    let rules = worked_rules();
    for header in worked_headers() {
        let route = Route(header);
        match first_rule::<Verdict>(&rules, &header) {
            Ok(met) => {
                let decision = Decision(met.code);
                println!(rt; "{route}: rule {} is the first met, {decision}", met.rule)?;
            }
            Err(refusal) => println!(rt; "{route}: refused with {refusal}")?,
        }
    }
    Ok(())
}

// Compiles the worked rules, and tells how large their chain is.
fn compile_rules(rt: &HostRuntime) -> anyhow::Result<()> {
    let mut place = Place::new();
    match compile::<Verdict>(&worked_rules(), 0, &mut place) {
        Ok(rows) => println!(rt; "the rules compile to a chain of {rows} rows")?,
        Err(refusal) => println!(rt; "the rules are refused with {refusal}")?,
    }
    for level in 0..FIELDS {
        let nodes = place.node_count(level).unwrap_or(0);
        println!(rt; "nodes of level {level}: {nodes}")?;
    }
    Ok(())
}

// Builds a card on a flat store, and makes some calls.
fn run_card(rt: &HostRuntime) -> anyhow::Result<()> {
    let mut cells = [Row { key: 0, result: 0 }; CELLS];
    let store = FlatStore::new(&mut cells);
    let header = worked_headers()[0];
    let calls = [
        Call::ReadSide(0),
        Call::ReadSide(3),
        Call::ReadSeat(0),
        Call::LookUp {
            seat: 0,
            header,
            place: 0,
        },
        Call::LookUp {
            seat: 8,
            header,
            place: 0,
        },
        Call::Clear(1),
    ];
    let mut tickets = [None];
    println!(rt; "a card on an empty store of {CELLS} rows:")?;
    let (_card, log) = run_new(rt.alloc(), 1, store, &calls, &mut tickets)?;
    for (call, event) in calls.iter().zip(&log) {
        println!(rt; "{call}: {event}")?;
    }
    Ok(())
}

fn main(rt: HostRuntime) -> anyhow::Result<()> {
    decide_all(&rt)?;
    compile_rules(&rt)?;
    run_card(&rt)
}
