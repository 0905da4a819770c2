// A status of the walk as a line of text.
#![tactic(auto)]

ghost use Rattle.std.specs.Prelude.{◌≡◌};
ghost use Rattle.status_lines.specs.Lines.{counted_line};

use step_status::StepStatus;

// How long the line of a status is, and the line: its definition, `counted_line`, has the length as the first byte.
pub fn counted_line(status: StepStatus) -> [u8; 7]
    ensures { result ≡ counted_line status }
{
    match status {
        StepStatus::Complete => [2, b'0', b'\n', 0, 0, 0, 0],
        StepStatus::NextChild => [2, b'2', b'\n', 0, 0, 0, 0],
        StepStatus::NextProperty => [2, b'3', b'\n', 0, 0, 0, 0],
        StepStatus::PreviousParent => [2, b'4', b'\n', 0, 0, 0, 0],
        StepStatus::MoreMemory => [2, b'5', b'\n', 0, 0, 0, 0],
        StepStatus::Parameter => [3, b'-', b'3', b'\n', 0, 0, 0],
        StepStatus::NotUnisolated => [6, b'-', b'9', b'0', b'0', b'3', b'\n'],
        StepStatus::BadTree { .. } => [3, b'-', b'1', b'\n', 0, 0, 0],
    }
}
