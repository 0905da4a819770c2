// The hot-plug event section: its two formats, the event that it tells of, and when it is refused.
#![tactic(auto, unfolding(words::specs::Pick::pick, words::specs::Pick::every, words::specs::Pick::any, words::specs::First::first_of, crate::specs::Sections::fault_of))]

ghost use Rattle.std.specs.Prelude.{◌≡◌};
ghost use Rattle.hotplug.specs.Sections.{empty_range, fault_of, lacks, legacy_of_twenty, outside, range_too_far, section_bytes, wrong_length};

#[derive(Clone, Copy, PartialEq, Eq)]
pub enum Format {
    Legacy,
    Modern,
}

// An event: the type of the device, whether it is added or removed, and which connectors that is about. Callers and sections may
// give any number for the first three, which a refusal then tells of, so they are numbers.
#[derive(Clone, Copy, PartialEq, Eq)]
pub struct HotplugEvent {
    pub device: u32,
    pub action: u32,
    pub identifier: u32,
    pub count: u32,
    pub index: u32,
}

// What a section or an event is refused for, in document 02's order.
#[derive(Clone, Copy, PartialEq, Eq)]
pub enum SectionFault {
    LegacyOfTwenty,
    WrongLength,
    WrongId,
    WrongVersion,
    WrongIdentifier,
    WrongType,
    WrongAction,
    EmptyRange,
    RangeTooFar,
    UnusedNotZero,
}

// What is looked at: two lengths, the header, the event, and whether something that is not used is not zero.
#[derive(Clone, Copy, PartialEq, Eq)]
pub struct SectionFacts {
    pub borrowed: usize,
    pub stated: usize,
    pub id: u32,
    pub version: u32,
    pub event: HotplugEvent,
    pub dirty: bool,
}

// The identifiers of an index, of a count, and of a count with the first index.
pub const BY_INDEX: u32 = 2;

pub const BY_COUNT: u32 = 3;

pub const BY_RANGE: u32 = 4;

// HP, and the version of the section.
pub const HOTPLUG_ID: u32 = 0x4850;

pub const HOTPLUG_VERSION: u32 = 1;

// How many bytes a section of each format has.
pub const LEGACY_BYTES: usize = 16;

pub const MODERN_BYTES: usize = 20;

pub fn section_bytes(format: Format) -> usize
    ensures { result ≡ section_bytes format }
{
    match format {
        Format::Legacy => LEGACY_BYTES,
        Format::Modern => MODERN_BYTES,
    }
}

// Whether 20 bytes are borrowed for the legacy format.
fn legacy_of_twenty(format: Format, borrowed: usize) -> bool
    ensures { result ≡ legacy_of_twenty format borrowed }
{
    format == Format::Legacy && borrowed == MODERN_BYTES
}

// Whether one of the two lengths is not the format's.
fn wrong_length(format: Format, borrowed: usize, stated: usize) -> bool
    ensures { result ≡ wrong_length format borrowed stated }
{
    let bytes = section_bytes(format);
    borrowed != bytes || stated != bytes
}

// Whether the format lacks the identifier.
fn lacks(format: Format, identifier: u32) -> bool
    ensures { result ≡ lacks format identifier }
{
    match identifier {
        BY_INDEX | BY_COUNT => false,
        BY_RANGE => format == Format::Legacy,
        _ => true,
    }
}

// Whether a number is under the first or over the last.
fn outside(first: u32, last: u32, n: u32) -> bool
    ensures { result ≡ outside first last n }
{
    n < first || last < n
}

// Whether a range has no entries.
fn empty_range(e: HotplugEvent) -> bool
    ensures { result ≡ empty_range e }
{
    e.identifier == BY_RANGE && e.count == 0
}

// Whether the last index of a range passes FFFFFFFF.
fn range_too_far(e: HotplugEvent) -> bool
    ensures { result ≡ range_too_far e }
{
    e.identifier == BY_RANGE && 0x1_0000_0000 < u64::from(e.index) + u64::from(e.count)
}

// Refuses what is looked at for its first fault.
pub fn fault_of(format: Format, facts: SectionFacts) -> Result<(), SectionFault>
    ensures { result ≡ fault_of format facts }
{
    let e = facts.event;
    if legacy_of_twenty(format, facts.borrowed) {
        return Err(SectionFault::LegacyOfTwenty);
    }
    if wrong_length(format, facts.borrowed, facts.stated) {
        return Err(SectionFault::WrongLength);
    }
    if facts.id != HOTPLUG_ID {
        return Err(SectionFault::WrongId);
    }
    if facts.version != HOTPLUG_VERSION {
        return Err(SectionFault::WrongVersion);
    }
    if lacks(format, e.identifier) {
        return Err(SectionFault::WrongIdentifier);
    }
    if outside(1, 5, e.device) {
        return Err(SectionFault::WrongType);
    }
    if outside(1, 2, e.action) {
        return Err(SectionFault::WrongAction);
    }
    if empty_range(e) {
        return Err(SectionFault::EmptyRange);
    }
    if range_too_far(e) {
        return Err(SectionFault::RangeTooFar);
    }
    if facts.dirty {
        return Err(SectionFault::UnusedNotZero);
    }
    Ok(())
}
