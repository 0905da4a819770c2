// The four orders on a connector record, by document 01's table "What a partition may order".
ghost use Rattle.std.specs.Prelude.{◌≡◌, Err};
ghost use Rattle.connector.specs.Orders.{isolate_of, kept, moved, occupied, order_number, released, unisolate_of, unready, unusable_of, usable_of};

use crate::Connector;
use kinds::PHB;
use states::{State, Walk, start_of_walk};

// Why an order is refused.
#[derive(Clone, Copy, PartialEq, Eq)]
pub enum OrderRefusal {
    Parameter,
    Occupied,
}

// What an order did to the record: nothing, a change of state and walk alone, a release.
#[derive(Clone, Copy, PartialEq, Eq)]
pub enum Change {
    Kept,
    Moved,
    Released,
}

#[derive(Clone, Copy, PartialEq, Eq)]
pub struct Ordered {
    pub status: Result<(), OrderRefusal>,
    pub change: Change,
    pub connector: Connector,
}

// A refusal as document 01's number.
impl From<OrderRefusal> for i32 {
    ghost from_gives = { λ r n. n ≡ order_number (Err r) };

    fn from(r: OrderRefusal) -> i32 {
        match r {
            OrderRefusal::Parameter => -3,
            OrderRefusal::Occupied => -9000,
        }
    }
}

// What an order answers as document 01's number.
pub fn status_number(s: Result<(), OrderRefusal>) -> i32
    ensures { result ≡ order_number s }
{
    match s {
        Ok(()) => 0,
        Err(r) => i32::from(r),
    }
}

impl Connector {
    // `slot_in_use`: a slot below this connector is not Unusable.
    pub fn isolate(self, slot_in_use: bool) -> Ordered
        ensures { result ≡ isolate_of slot_in_use self }
    {
        match self.state {
            State::Unusable | State::Available => self.kept(Ok(())),
            State::Unisolated => self.moved(State::Available, start_of_walk()),
            State::Configured => {
                if self.occupied(slot_in_use) {
                    self.kept(Err(OrderRefusal::Occupied))
                } else {
                    self.moved(State::Available, self.walk)
                }
            }
        }
    }

    pub fn unisolate(self) -> Ordered
        ensures { result ≡ unisolate_of self }
    {
        match self.state {
            State::Unusable => self.kept(Err(OrderRefusal::Parameter)),
            State::Available => self.moved(State::Unisolated, start_of_walk()),
            State::Unisolated | State::Configured => self.kept(Ok(())),
        }
    }

    // `parent_configured`: the parent that was given is Configured.
    pub fn usable(self, parent_configured: bool) -> Ordered
        ensures { result ≡ usable_of parent_configured self }
    {
        match self.state {
            State::Unusable => {
                if self.unready(parent_configured) {
                    self.kept(Err(OrderRefusal::Parameter))
                } else {
                    self.moved(State::Available, self.walk)
                }
            }
            State::Available | State::Unisolated | State::Configured => self.kept(Ok(())),
        }
    }

    pub fn unusable(self) -> Ordered
        ensures { result ≡ unusable_of self }
    {
        match self.state {
            State::Unusable => self.kept(Ok(())),
            State::Available => self.released(),
            State::Unisolated | State::Configured => self.kept(Err(OrderRefusal::Parameter)),
        }
    }

    // A PHB connector with a slot below it that is not Unusable.
    fn occupied(self, slot_in_use: bool) -> bool
        ensures { result ≡ occupied slot_in_use self }
    {
        self.kind == PHB && slot_in_use
    }

    // It is wanted back, or nothing stands here, or a parent was given and is not Configured.
    fn unready(self, parent_configured: bool) -> bool
        ensures { result ≡ unready parent_configured self }
    {
        if self.wanted || self.resource.0 == 0 {
            return true;
        }
        self.parent.0 != 0 && !parent_configured
    }

    // Nothing changed.
    fn kept(self, status: Result<(), OrderRefusal>) -> Ordered
        ensures { result ≡ kept status self }
    {
        Ordered {
            status,
            change: Change::Kept,
            connector: self,
        }
    }

    // In another state, with another walk.
    fn moved(self, state: State, walk: Walk) -> Ordered
        ensures { result ≡ moved state walk self }
    {
        Ordered {
            status: Ok(()),
            change: Change::Moved,
            connector: self.with_step(state, walk),
        }
    }

    // Empty, Unusable, and no longer wanted back.
    fn released(self) -> Ordered
        ensures { result ≡ released self }
    {
        Ordered {
            status: Ok(()),
            change: Change::Released,
            connector: self.vacated(),
        }
    }
}
