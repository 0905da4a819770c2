// What a step leaves of a connector record, with its status.
#![tactic(auto)]

ghost use Rattle.std.specs.Prelude.{◌≡◌};
ghost use Rattle.stepped.specs.Stepped.{step_to, page_asked, end_stepped};

use connector::Connector;
use guards::page_after;
use states::{Page, State, Walk, start_of_walk};
use step_status::StepStatus;

#[derive(Clone, Copy, PartialEq, Eq)]
pub struct Stepped {
    pub status: StepStatus,
    pub connector: Connector,
}

// The answer with the walk past the token that was consumed.
pub fn step_to(c: Connector, status: StepStatus, next: u32, depth: u32, lent: usize) -> Stepped
    ensures { result ≡ step_to status next depth lent c }
{
    let walk = Walk {
        place: next,
        depth,
        page: page_after(lent),
    };
    Stepped {
        status,
        connector: c.with_step(State::Unisolated, walk),
    }
}

// The record with the second page asked for.
pub fn asking(c: Connector) -> Stepped
    ensures { result ≡ page_asked c }
{
    let walk = Walk {
        page: Page::Asked,
        ..c.walk
    };
    Stepped {
        status: StepStatus::MoreMemory,
        connector: c.with_step(State::Unisolated, walk),
    }
}

// The end-node token of a node, or of the root.
#[tactic(auto, unfolding(crate::specs::Stepped::end_stepped, words::specs::Pick::pick))]
pub fn on_end(c: Connector, lent: usize, at: usize, next: u32) -> Stepped
    ensures { result ≡ end_stepped c lent at next }
{
    match c.walk.depth {
        0 => Stepped {
            status: StepStatus::BadTree { at },
            connector: c,
        },
        1 => Stepped {
            status: StepStatus::Complete,
            connector: c.with_step(State::Configured, start_of_walk()),
        },
        depth => step_to(c, StepStatus::PreviousParent, next, depth - 1, lent),
    }
}
