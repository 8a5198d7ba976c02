// The states of a side, and how they change.
ghost use Rattle.std.specs.Prelude.{◌≡◌};
ghost use Rattle.card.specs.States.{becomes};

use std::fmt;

#[derive(Clone, Copy, PartialEq, Eq, Debug)]
pub enum SideState {
    // nothing is loaded
    Free,
    // a list is loaded, and its rows are being written
    Loading,
    // all rows are written
    Ready,
    // look-ups begin here
    InForce,
    // no look-up begins here any more, and rows are left to clear
    SetAside,
}

impl fmt::Display for SideState {
    ghost use Rattle.std.specs.Prelude.{Some};
    ghost use Rattle.card.specs.Texts.{state_text};

    ghost output = { λ state. Some (state_text state) };

    fn fmt<W: fmt::Write>(&self, f: &mut fmt::Formatter<W>) -> fmt::Result {
        f.write_str(match self {
            SideState::Free => "free",
            SideState::Loading => "loading",
            SideState::Ready => "ready",
            SideState::InForce => "in force",
            SideState::SetAside => "set aside",
        })
    }
}

// What may happen to a side.
#[derive(Clone, Copy, PartialEq, Eq, Debug)]
pub enum Change {
    // a list is loaded
    Load,
    // a row is written, and more are left
    Write,
    // the last row is written
    WriteLast,
    // the side is put in force
    Switch,
    // another side is put in force
    Retire,
    // the load is given up after a row was written
    GiveUp,
    // the load is given up before any row was written
    GiveUpEmpty,
    // a row is cleared, and more are left
    Clear,
    // the last row is cleared
    ClearLast,
}

// The state that a change leads to, or none where a side in this state does not take it.
pub fn next_state(state: SideState, change: Change) -> Option<SideState>
    ensures { result ≡ becomes change state }
{
    match (state, change) {
        (SideState::Free, Change::Load) => Some(SideState::Loading),
        (SideState::Loading, Change::Write) => Some(SideState::Loading),
        (SideState::Loading, Change::WriteLast) => Some(SideState::Ready),
        (SideState::Loading, Change::GiveUp) => Some(SideState::SetAside),
        (SideState::Loading, Change::GiveUpEmpty) => Some(SideState::Free),
        (SideState::Ready, Change::Switch) => Some(SideState::InForce),
        (SideState::Ready, Change::GiveUp) => Some(SideState::SetAside),
        (SideState::InForce, Change::Retire) => Some(SideState::SetAside),
        (SideState::SetAside, Change::Clear) => Some(SideState::SetAside),
        (SideState::SetAside, Change::ClearLast) => Some(SideState::Free),
        _ => None,
    }
}
