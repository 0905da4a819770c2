// What a step of a walk answers.
#![tactic(auto)]

ghost use Rattle.std.specs.Prelude.{◌≡◌};
ghost use Rattle.step_status.specs.Status.{step_number, is_refusal};

// A fault of the tree names the offset of the token at fault, 0 where none was read.
#[derive(Clone, Copy, PartialEq, Eq)]
pub enum StepStatus {
    Complete,
    NextChild,
    NextProperty,
    PreviousParent,
    MoreMemory,
    Parameter,
    NotUnisolated,
    BadTree { at: usize },
}

// A status as document 01's number.
impl From<StepStatus> for i32 {
    ghost from_gives = { λ s n. n ≡ step_number s };

    fn from(s: StepStatus) -> i32 {
        match s {
            StepStatus::Complete => 0,
            StepStatus::NextChild => 2,
            StepStatus::NextProperty => 3,
            StepStatus::PreviousParent => 4,
            StepStatus::MoreMemory => 5,
            StepStatus::Parameter => -3,
            StepStatus::NotUnisolated => -9003,
            StepStatus::BadTree { .. } => -1,
        }
    }
}

// The same, by name.
pub fn status_number(s: StepStatus) -> i32
    ensures { result ≡ step_number s }
{
    i32::from(s)
}

// The statuses below 0.
pub fn is_refusal(s: StepStatus) -> bool
    ensures { result ≡ is_refusal s }
{
    matches!(
        s,
        StepStatus::Parameter | StepStatus::NotUnisolated | StepStatus::BadTree { .. }
    )
}
