// Reasons, which a rejection gives.
ghost use Rattle.std.specs.Prelude.{◌≡◌, ◌<◌, ◌≤◌, MatchOption};

// The largest reason.
pub const LAST_REASON: u8 = 15;

// A reason is a number from 0 to 15.
#[derive(Clone, Copy, PartialEq, Eq, Debug)]
pub struct Reason {
    n: u8,
    ghost small: { n ≤ 15 },
}

impl Reason {
    // The reason of this number, if it is one.
    pub fn new(n: u8) -> Option<Reason>
        ensures { MatchOption result (15 < n) (λ reason. reason.n ≡ n) }
    {
        if n <= LAST_REASON {
            Some(Reason { n })
        } else {
            None
        }
    }

    // The number of the reason.
    pub fn number(&self) -> u8
        ensures { result ≡ self.now.n }
    {
        self.n
    }
}
