// The connector record. The orders on it are in `orders`.
#![tactic(auto)]

ghost use Rattle.std.specs.Prelude.{◌≡◌};
ghost use Rattle.connector.specs.Fields.{changed, new_connector, sense_of, vacated, wanted_back, with_step};

use kinds::{Index, Resource};
use states::{State, Walk, sense_in, start_of_walk};

pub mod orders;

// How many words a connector has.
pub const COLUMNS: usize = 10;

#[derive(Clone, Copy, PartialEq, Eq)]
pub struct Connector {
    pub index: Index,
    pub kind: u32,
    pub partition: u32,
    pub parent: Index,
    pub state: State,
    pub resource: Resource,
    // The platform wants back what stands here.
    pub wanted: bool,
    pub walk: Walk,
}

// A new connector is empty, in the first state of its kind, and not wanted back.
pub fn new_connector(kind: u32, index: Index, partition: u32, parent: Index) -> Connector
    ensures { result ≡ new_connector kind index.0 partition parent.0 }
{
    Connector {
        index,
        kind,
        partition,
        parent,
        state: kinds::first_state(kind),
        resource: Resource(0),
        walk: start_of_walk(),
        wanted: false,
    }
}

impl Connector {
    // The same connector in another state, with another resource and another walk, wanted back or not.
    pub fn changed(self, state: State, resource: Resource, walk: Walk, wanted: bool) -> Connector
        ensures { result ≡ changed state resource walk «wanted» self }
    {
        Connector {
            state,
            resource,
            walk,
            wanted,
            ..self
        }
    }

    // The same connector in another state, with another walk.
    pub fn with_step(self, state: State, walk: Walk) -> Connector
        ensures { result ≡ with_step state walk self }
    {
        self.changed(state, self.resource, walk, self.wanted)
    }

    // What a release or a retraction leaves: a new connector with the walk of this one, so empty, in the first state of its kind, and no longer wanted back.
    pub fn vacated(self) -> Connector
        ensures { result ≡ vacated self }
    {
        Connector {
            walk: self.walk,
            ..new_connector(self.kind, self.index, self.partition, self.parent)
        }
    }

    // The same connector, wanted back.
    pub fn wanted_back(self) -> Connector
        ensures { result ≡ wanted_back self }
    {
        Connector {
            wanted: true,
            ..self
        }
    }

    // What get-sensor answers for token 9003.
    pub fn sense(self) -> u32
        ensures { result ≡ sense_of self }
    {
        sense_in(self.state)
    }
}
