// A hot-plug event section, read.
#![tactic(auto, unfolding(words::specs::Pick::pick, words::specs::Pick::every, crate::specs::Reader::event_in, crate::specs::Reader::unused_are_zero, crate::specs::Reader::read_section))]

ghost use Rattle.std.specs.Prelude.{◌≡◌, ◌+◌, ◌≤◌, length};
ghost use Rattle.hotplug_reader.specs.Reader.{count_named, event_in, found, half_at, identifier_in, index_named, read_section, unused_are_zero};

use hotplug::{
    BY_INDEX, BY_RANGE, Format, HotplugEvent, LEGACY_BYTES, SectionFacts, SectionFault, fault_of,
};
use words::{word_at, zero_at};

// The big-endian number of two bytes.
fn half_at(s: &[u8], at: usize) -> u32
    requires { at + 2 ≤ length s.now }
    ensures { result ≡ half_at s.now at }
{
    u32::from(s[at]) * 256 + u32::from(s[at + 1])
}

// The count that the section names.
fn count_named(s: &[u8], identifier: u32) -> u32
    requires { identifier ≡ identifier_in s.now }
    ensures { result ≡ count_named s.now }
{
    if identifier == BY_INDEX {
        0
    } else {
        word_at(s, 12)
    }
}

// The index that it names, alone or behind a count.
fn index_named(s: &[u8], identifier: u32) -> u32
    requires { identifier ≡ identifier_in s.now }
    ensures { result ≡ index_named s.now }
{
    match identifier {
        BY_INDEX => word_at(s, 12),
        BY_RANGE => word_at(s, 16),
        _ => 0,
    }
}

fn event_in(s: &[u8]) -> HotplugEvent
    requires { 16 ≤ length s.now }
    ensures { result ≡ event_in s.now }
{
    let identifier = u32::from(s[10]);
    HotplugEvent {
        device: u32::from(s[8]),
        action: u32::from(s[9]),
        identifier,
        count: count_named(s, identifier),
        index: index_named(s, identifier),
    }
}

// Whether every byte that is not used is zero.
fn unused_are_zero(s: &[u8], identifier: u32) -> bool
    requires { identifier ≡ identifier_in s.now }
    ensures { result ≡ unused_are_zero s.now }
{
    zero_at(s, 5, 3) && zero_at(s, 11, 1) && (identifier == BY_RANGE || zero_at(s, 16, 4))
}

// What the reader finds in a section that is no shorter than a legacy one.
fn found(s: &[u8]) -> SectionFacts
    requires { 16 ≤ length s.now }
    ensures { result ≡ found s.now }
{
    let event = event_in(s);
    SectionFacts {
        borrowed: s.len(),
        stated: half_at(s, 2) as usize,
        id: half_at(s, 0),
        version: u32::from(s[4]),
        event,
        dirty: !unused_are_zero(s, event.identifier),
    }
}

// The section's event, or its first fault.
pub fn read_section(format: Format, s: &[u8]) -> Result<HotplugEvent, SectionFault>
    ensures { result ≡ read_section format s.now }
{
    if s.len() < LEGACY_BYTES {
        return Err(SectionFault::WrongLength);
    }
    let facts = found(s);
    fault_of(format, facts)?;
    Ok(facts.event)
}
