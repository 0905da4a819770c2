// The hot-plug event section for a caller that holds no records: an event as five words, answers as document 02's numbers.
#![tactic(auto, unfolding(words::specs::Pick::pick))]

ghost use Rattle.std.specs.Prelude.{◌≡◌};
ghost use Rattle.hotplug_writer.specs.Writer.{write_section};
ghost use Rattle.hotplug_reader.specs.Reader.{read_section};
ghost use Rattle.hotplug_numbers.specs.Numbers.{EventTo, SectionTo, event_of, event_words, fault_number, format_of};

use hotplug::{Format, HotplugEvent, SectionFault};
use hotplug_reader::read_section;
use hotplug_writer::write_section;

// An event's words: type, action, identifier, count, index.
pub const EVENT_WORDS: usize = 5;

fn format_of(modern: u32) -> Format
    ensures { result ≡ format_of modern }
{
    if modern == 0 {
        Format::Legacy
    } else {
        Format::Modern
    }
}

fn get_event(w: &[u32; EVENT_WORDS]) -> HotplugEvent
    ensures { result ≡ event_of w.now }
{
    HotplugEvent {
        device: w[0],
        action: w[1],
        identifier: w[2],
        count: w[3],
        index: w[4],
    }
}

fn put_event(w: &mut [u32; EVENT_WORDS], e: HotplugEvent)
    ensures { w.new ≡ event_words e }
{
    *w = [e.device, e.action, e.identifier, e.count, e.index];
}

// No `From`: it would have to stand in the crate of the faults, which knows no numbers.
fn fault_number(fault: SectionFault) -> i32
    ensures { result ≡ fault_number fault }
{
    match fault {
        SectionFault::LegacyOfTwenty => -41,
        SectionFault::WrongLength => -42,
        SectionFault::WrongId => -43,
        SectionFault::WrongVersion => -44,
        SectionFault::WrongIdentifier => -45,
        SectionFault::WrongType => -46,
        SectionFault::WrongAction => -47,
        SectionFault::EmptyRange => -48,
        SectionFault::RangeTooFar => -49,
        SectionFault::UnusedNotZero => -50,
    }
}

pub fn write_event(modern: u32, event: &[u32; EVENT_WORDS], out: &mut [u8]) -> i32
    ensures { SectionTo result out.new (write_section (format_of modern) (event_of event.now) out.old) }
{
    match write_section(format_of(modern), get_event(event), out) {
        Ok(()) => 0,
        Err(fault) => fault_number(fault),
    }
}

pub fn read_event(modern: u32, s: &[u8], event: &mut [u32; EVENT_WORDS]) -> i32
    ensures { EventTo result event.old event.new (read_section (format_of modern) s.now) }
{
    match read_section(format_of(modern), s) {
        Ok(e) => {
            put_event(event, e);
            0
        }
        Err(fault) => fault_number(fault),
    }
}
