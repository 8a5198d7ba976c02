// Counts what searches of a flat store and of a hash store find; with the word `time`, says how many
// operations each makes in a second.
#![tactic(auto)]

use chain::probe::block_key;
use hash_store::hash::HashStore;
use std::time::Instant;
use std::{env, io};
use store::flat::FlatStore;
use store::row::Row;
use store::traits::Store;

// The key of row i in its generation g: side 1, 1,024 rows to a level and four to a node, length 32.
fn key(i: u32, g: u32) -> u64 {
    let level = (i / 1024 % 8) as u8;
    let node = (i / 4 % 256) as u8;
    let value = g.wrapping_mul(4) | i % 4;
    block_key(1, level, node, 32, value)
}

// How many rows a store holds, how often each of them is searched for, and how often it is renewed.
#[derive(Clone, Copy)]
struct Run {
    rows: u32,
    searches: u32,
    renewals: u32,
}

impl Run {
    fn new(rows: u32, searches: u32, renewals: u32) -> Run {
        Run {
            rows,
            searches,
            renewals,
        }
    }
}

// The runs whose findings are told, of the flat store and of the hash store.
fn counted_runs() -> [(Run, Run); 2] {
    [
        (Run::new(1024, 1, 10), Run::new(1024, 1, 1000)),
        (Run::new(4096, 1, 1), Run::new(4096, 1, 1)),
    ]
}

// The runs that are timed.
fn timed_runs() -> [(Run, Run); 3] {
    [
        (Run::new(1024, 100, 10), Run::new(1024, 1000, 1000)),
        (Run::new(2048, 50, 5), Run::new(2048, 500, 500)),
        (Run::new(4096, 20, 2), Run::new(4096, 200, 250)),
    ]
}

// Writes n rows.
fn fill<S: Store>(s: &mut S, n: u32) {
    for i in 0..n {
        let _ = s.write(Row {
            key: key(i, 0),
            result: 7,
        });
    }
}

// Searches for n keys of generation g, and counts those that are found.
// Loops here and below: with `filter`, `count` and `fold` the hash store's hits are measured slower (71 M/s, not 87).
fn count_found<S: Store>(s: &mut S, n: u32, g: u32) -> u32 {
    let mut found: u32 = 0;
    for i in 0..n {
        if s.search(key(i, g)).is_some() {
            found = found.saturating_add(1);
        }
    }
    found
}

// Does so as often as the run says.
fn count_rounds<S: Store>(s: &mut S, run: Run, g: u32) -> u32 {
    let mut found: u32 = 0;
    for _ in 0..run.searches {
        found = found.saturating_add(count_found(s, run.rows, g));
    }
    found
}

// Puts each of n rows in place of the one of the generation `old`.
fn renew<S: Store>(s: &mut S, n: u32, old: u32, new: u32) {
    for i in 0..n {
        let _ = s.erase(key(i, old));
        let _ = s.write(Row {
            key: key(i, new),
            result: 7,
        });
    }
}

// Renews each row as often as the run says. The last round brings back the first keys.
fn renew_rounds<S: Store>(s: &mut S, run: Run) {
    for g in 0..run.renewals {
        let new = if g + 1 < run.renewals { g + 1 } else { 0 };
        renew(s, run.rows, g, new);
    }
}

// Fills a store, renews its rows, and says what is found before and after.
fn say_counts<S: Store>(rt: &HostRuntime, name: &str, s: &mut S, run: Run) -> io::Result<()> {
    let Run { rows, renewals, .. } = run;
    fill(s, rows);
    let hits = count_rounds(s, run, 0);
    let others = count_rounds(s, run, 1);
    renew_rounds(s, run);
    let last = count_rounds(s, run, 0);
    let gone = count_rounds(s, run, 1);
    println!(rt; "{name} store, {rows} rows: {hits} found, {others} of other keys")?;
    println!(rt; "  renewed {renewals} times: {last} found, {gone} of other keys")
}

// How many operations a second are made, at so many nanoseconds for `times` of each row.
fn rate(rows: u32, times: u32, nanos: u128) -> u128 {
    let count = u128::from(rows.saturating_mul(times));
    (count * 1_000_000_000).checked_div(nanos).unwrap_or(0)
}

// Says how many searches a second are made for keys of generation g.
fn say_searches<S: Store>(
    rt: &HostRuntime,
    what: &str,
    s: &mut S,
    run: Run,
    g: u32,
) -> io::Result<()> {
    let start = Instant::now(rt)?;
    let found = count_rounds(s, run, g);
    let rate = rate(run.rows, run.searches, start.elapsed(rt)?.as_nanos());
    println!(rt; "  {what}: {rate} a second, {found} found")
}

// Fills a store, and says how many searches a second it makes, and how many renewals of a row, then
// how many searches when all rows were renewed.
fn say_times<S: Store>(rt: &HostRuntime, name: &str, s: &mut S, run: Run) -> io::Result<()> {
    let Run { rows, renewals, .. } = run;
    println!(rt; "{name} store, {rows} rows")?;
    fill(s, rows);
    say_searches(rt, "hits", s, run, 0)?;
    say_searches(rt, "misses", s, run, 1)?;
    let start = Instant::now(rt)?;
    renew_rounds(s, run);
    let rate = rate(rows, renewals, start.elapsed(rt)?.as_nanos());
    println!(rt; "  renewals: {rate} a second, {renewals} of each row")?;
    say_searches(rt, "hits", s, run, 0)
}

fn main(rt: HostRuntime) -> io::Result<()> {
    let mut rows = [Row { key: 0, result: 0 }; 4096];
    let mut cells = [None; 4096];
    let timed = env::args(&rt)?.count() > 1;
    if timed {
        for (flat, hash) in timed_runs() {
            say_times(&rt, "flat", &mut FlatStore::new(&mut rows), flat)?;
            say_times(&rt, "hash", &mut HashStore::new(&mut cells), hash)?;
        }
    } else {
        for (flat, hash) in counted_runs() {
            say_counts(&rt, "flat", &mut FlatStore::new(&mut rows), flat)?;
            say_counts(&rt, "hash", &mut HashStore::new(&mut cells), hash)?;
        }
    }
    Ok(())
}
