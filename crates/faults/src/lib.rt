// Where a walk's -1 comes from: the offset of the token at fault, beside document 01's number of a status.
#![tactic(auto)]

ghost use Rattle.std.specs.Prelude.{◌≡◌};
ghost use Rattle.step_status.specs.Status.{step_number};
ghost use Rattle.faults.specs.Status.{status_offset};

use step_status::{StepStatus, status_number};

// Document 01's number of a status, and with -1 the offset of the token at fault, else 0.
#[derive(Clone, Copy, PartialEq, Eq)]
pub struct NumberAt {
    pub number: i32,
    pub fault: usize,
}

// The offset that a status carries.
pub fn status_offset(s: StepStatus) -> usize
    ensures { result ≡ status_offset s }
{
    match s {
        StepStatus::BadTree { at } => at,
        _ => 0,
    }
}

pub fn number_at(s: StepStatus) -> NumberAt
    ensures { (result.number ≡ step_number s) × (result.fault ≡ status_offset s) }
{
    NumberAt {
        number: status_number(s),
        fault: status_offset(s),
    }
}
