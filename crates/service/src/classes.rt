// Service classes.
ghost use Rattle.std.specs.Prelude.{◌≡◌, ◌<◌, ◌≤◌, ◌⊎◌, MatchOption};

// The largest queue and the largest drop level.
pub const LAST_QUEUE: u8 = 7;

pub const LAST_LEVEL: u8 = 3;

// A queue from 0 to 7 and a drop level from 0 to 3.
#[derive(Clone, Copy, PartialEq, Eq, Debug)]
pub struct ServiceClass {
    queue: u8,
    level: u8,
    ghost few: { queue ≤ 7 },
    ghost low: { level ≤ 3 },
}

impl ServiceClass {
    // The class of this queue and this level, if there is one.
    pub fn new(queue: u8, level: u8) -> Option<ServiceClass>
        ensures { MatchOption result ((7 < queue) ⊎ (3 < level)) (λ class. (class.queue ≡ queue) × (class.level ≡ level)) }
    {
        if queue <= LAST_QUEUE && level <= LAST_LEVEL {
            Some(ServiceClass { queue, level })
        } else {
            None
        }
    }

    // The queue.
    pub fn queue(&self) -> u8
        ensures { result ≡ self.now.queue }
    {
        self.queue
    }

    // The drop level.
    pub fn level(&self) -> u8
        ensures { result ≡ self.now.level }
    {
        self.level
    }
}
