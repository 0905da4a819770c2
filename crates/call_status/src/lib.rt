// What the platform's calls answer, and document 01's numbers for it.
#![tactic(auto)]

ghost use Rattle.std.specs.Prelude.{◌≡◌, Err};
ghost use Rattle.call_status.specs.Status.{call_number, is_accepted};

// Why a call is refused.
#[derive(Clone, Copy, PartialEq, Eq)]
pub enum CallRefusal {
    UnknownKind,
    IndexInUse,
    NoPartition,
    BadParent,
    Full,
    NoConnector,
    NoResource,
    KindsDiffer,
    NotInPool,
    Holding,
    Empty,
    InUse,
}

// A refusal as document 01's number.
impl From<CallRefusal> for i32 {
    ghost from_gives = { λ r n. n ≡ call_number (Err r) };

    fn from(r: CallRefusal) -> i32 {
        match r {
            CallRefusal::UnknownKind => -11,
            CallRefusal::IndexInUse => -12,
            CallRefusal::NoPartition => -13,
            CallRefusal::BadParent => -14,
            CallRefusal::Full => -15,
            CallRefusal::NoConnector => -16,
            CallRefusal::NoResource => -17,
            CallRefusal::KindsDiffer => -18,
            CallRefusal::NotInPool => -19,
            CallRefusal::Holding => -20,
            CallRefusal::Empty => -21,
            CallRefusal::InUse => -22,
        }
    }
}

// What a call answers as document 01's number.
pub fn status_number(s: Result<(), CallRefusal>) -> i32
    ensures { result ≡ call_number s }
{
    match s {
        Ok(()) => 0,
        Err(r) => i32::from(r),
    }
}

// Only an accepted call edits the table.
pub fn is_accepted(s: Result<(), CallRefusal>) -> bool
    ensures { result ≡ is_accepted s }
{
    s.is_ok()
}
