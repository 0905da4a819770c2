// The connector that the programs walk.
#![tactic(auto)]

ghost use Rattle.std.specs.Prelude.{◌≡◌};
ghost use Rattle.walked_connector.specs.Walked.{own};

use connector::{Connector, new_connector};
use kinds::{Index, Resource};
use states::{State, start_of_walk};

// The index of the connector that is walked.
pub const INDEX: u32 = 2147483649;

// An unisolated connector, with the walk at its start.
pub fn own_connector() -> Connector
    ensures { result ≡ own }
{
    let c = new_connector(kinds::MEM, Index(INDEX), 1, Index(0));
    c.changed(State::Unisolated, Resource(1), start_of_walk(), false)
}
