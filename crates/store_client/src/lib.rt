// Use of a match store, whichever it is: what holds of calls in a row, and that no calls tell one
// store from another.
#![tactic(auto)]

ghost use Rattle.std.specs.Prelude.{◌≡◌, T};
ghost use Rattle.store_client.specs.Uses.{Performed, WrittenThenSearched, ErasedThenSearched, Alike, AnsweredAlike};

use std::fmt;
use store::row::{Row, StoreRefusal};
use store::traits::Store;

// A call of a store.
#[derive(Clone, Copy, PartialEq, Eq, Debug)]
pub enum Call {
    Search(u64),
    Write(Row),
    Erase(u64),
}

impl fmt::Display for Call {
    ghost use Rattle.std.specs.Prelude.{Some};
    ghost use Rattle.store_client.specs.Texts.{call_text};

    ghost output = { λ call. Some (call_text call) };

    fn fmt<W: fmt::Write>(&self, f: &mut fmt::Formatter<W>) -> fmt::Result {
        match self {
            Call::Search(key) => write!(f, "search for {key}"),
            Call::Write(row) => write!(f, "write {} for {}", row.result, row.key),
            Call::Erase(key) => write!(f, "erase {key}"),
        }
    }
}

// What a call comes to.
#[derive(Clone, Copy, PartialEq, Eq, Debug)]
pub enum Outcome {
    // of a search
    Found(Option<u16>),
    // of a write or an erase
    Changed(Result<(), StoreRefusal>),
}

impl fmt::Display for Outcome {
    ghost use Rattle.std.specs.Prelude.{Some};
    ghost use Rattle.store_client.specs.Texts.{outcome_text};

    ghost output = { λ outcome. Some (outcome_text outcome) };

    fn fmt<W: fmt::Write>(&self, f: &mut fmt::Formatter<W>) -> fmt::Result {
        match self {
            Outcome::Found(Some(result)) => write!(f, "found {result}"),
            Outcome::Found(None) => write!(f, "found none"),
            Outcome::Changed(Ok(())) => write!(f, "done"),
            Outcome::Changed(Err(refusal)) => write!(f, "refused with {refusal}"),
        }
    }
}

// Makes the call.
pub fn perform<S: Store>(s: &mut S, call: Call) -> Outcome
    ensures performed { Performed (S.contents s.old) call result (S.contents s.new) }
    ensures frame { S.frame s.new ≡ S.frame s.old }
{
    match call {
        Call::Search(key) => Outcome::Found(s.search(key)),
        Call::Write(row) => Outcome::Changed(s.write(row)),
        Call::Erase(key) => Outcome::Changed(s.erase(key)),
    }
}

// Makes the call of two stores. If they are alike, they answer alike and stay so.
pub fn perform_both<A: Store, B: Store>(a: &mut A, b: &mut B, call: Call) -> (Outcome, Outcome)
    ensures left { Performed (A.contents a.old) call result.0 (A.contents a.new) }
    ensures right { Performed (B.contents b.old) call result.1 (B.contents b.new) }
    ensures left_frame { A.frame a.new ≡ A.frame a.old }
    ensures right_frame { B.frame b.new ≡ B.frame b.old }
    ensures same { Alike (A.contents a.old) (B.contents b.old) → result.0 ≡ result.1 }
    ensures alike { Alike (A.contents a.old) (B.contents b.old) → Alike (A.contents a.new) (B.contents b.new) }
{
    let left = perform(a, call);
    let right = perform(b, call);
    (left, right)
}

// Makes the calls of two stores, up to one that they answer differently, and says whether they
// answered all of them alike. Stores that are alike do.
pub fn agree<A: Store, B: Store>(a: &mut A, b: &mut B, calls: &[Call]) -> bool
    ensures left_frame { A.frame a.new ≡ A.frame a.old }
    ensures right_frame { B.frame b.new ≡ B.frame b.old }
    ensures same { Alike (A.contents a.old) (B.contents b.old) → T result }
    ensures answered { T result → AnsweredAlike (A.contents a.old) (B.contents b.old) calls.now (A.contents a.new) (B.contents b.new) }
{
    // a loop, since after `all` nothing is known of the stores, which its closure changes
    for call in calls {
        let (left, right) = perform_both(a, b, *call);
        if left != right {
            return false;
        }
    }
    true
}

// Writes the row, and then finds it.
pub fn write_then_search<S: Store>(s: &mut S, row: Row) -> Result<Option<u16>, StoreRefusal>
    ensures finds { WrittenThenSearched (S.contents s.old) row result (S.contents s.new) }
    ensures frame { S.frame s.new ≡ S.frame s.old }
{
    s.write(row)?;
    Ok(s.search(row.key))
}

// Erases the key's row, and then finds none. (One function of this and of the one before would take the
// change and all that it means as a parameter.)
pub fn erase_then_search<S: Store>(s: &mut S, key: u64) -> Result<Option<u16>, StoreRefusal>
    ensures finds { ErasedThenSearched (S.contents s.old) key result (S.contents s.new) }
    ensures frame { S.frame s.new ≡ S.frame s.old }
{
    s.erase(key)?;
    Ok(s.search(key))
}
