// Why a card refuses a call.
ghost use Rattle.std.specs.Prelude.{◌≡◌};
ghost use Rattle.card.specs.Refusals.{number as number_of};

use std::fmt;

#[derive(Clone, Copy, PartialEq, Eq, Debug)]
pub enum Refusal {
    // a number of the header does not fit its field
    HeaderTooWide,
    // the store held rows when the card was built
    StoreNotEmpty,
    // there is no side or seat of that number
    OutOfRange,
    // the seat is not free
    NotFree,
    // no list is in force
    NothingInForce,
    // the side is not set aside
    NotSetAside,
    // an open look-up began on the side
    LookupOpen,
}

impl Refusal {
    // The number by which the refusal goes outside the library.
    pub fn number(self) -> u8
        ensures { result ≡ number_of self }
    {
        match self {
            Refusal::HeaderTooWide => 12,
            Refusal::StoreNotEmpty => 20,
            Refusal::OutOfRange => 21,
            Refusal::NotFree => 22,
            Refusal::NothingInForce => 24,
            Refusal::NotSetAside => 26,
            Refusal::LookupOpen => 27,
        }
    }
}

impl fmt::Display for Refusal {
    ghost use Rattle.std.specs.Prelude.{Some};
    ghost use Rattle.card.specs.Texts.{refusal_text};

    ghost output = { λ refusal. Some (refusal_text refusal) };

    fn fmt<W: fmt::Write>(&self, f: &mut fmt::Formatter<W>) -> fmt::Result {
        f.write_str(match self {
            Refusal::HeaderTooWide => "a number of the header does not fit its field",
            Refusal::StoreNotEmpty => "the store was not empty when the card was built",
            Refusal::OutOfRange => "there is no such side or seat",
            Refusal::NotFree => "the seat is taken",
            Refusal::NothingInForce => "no list is in force",
            Refusal::NotSetAside => "the side is not set aside",
            Refusal::LookupOpen => "an open look-up began on the side",
        })
    }
}
