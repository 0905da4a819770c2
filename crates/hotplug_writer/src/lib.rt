// The hot-plug event section of an event, written to a buffer.
#![tactic(auto, unfolding(words::specs::Pick::pick, crate::specs::Writer::write_section))]

ghost use Rattle.std.specs.Prelude.{◌≡◌, ◌<◌, length};
ghost use Rattle.buffer.specs.Put.{bytes32};
ghost use Rattle.hotplug.specs.Sections.{section_bytes};
ghost use Rattle.hotplug_writer.specs.Writer.{event_bytes, first_index, given, index_or_count, section, section_left, unused_word, write_section};

use buffer::put_word;
use hotplug::{
    BY_COUNT, BY_INDEX, BY_RANGE, Format, HOTPLUG_ID, HOTPLUG_VERSION, HotplugEvent, SectionFacts,
    SectionFault, fault_of, section_bytes,
};

// The word that the event does not use.
fn unused_word(e: HotplugEvent) -> u32
    ensures { result ≡ unused_word e }
{
    match e.identifier {
        BY_INDEX => e.count,
        BY_COUNT => e.index,
        _ => 0,
    }
}

// What bytes 12 to 15 say.
fn index_or_count(e: HotplugEvent) -> u32
    ensures { result ≡ index_or_count e }
{
    if e.identifier == BY_INDEX {
        e.index
    } else {
        e.count
    }
}

// What bytes 16 to 19 say.
fn first_index(e: HotplugEvent) -> u32
    ensures { result ≡ first_index e }
{
    if e.identifier == BY_RANGE { e.index } else { 0 }
}

// What the writer is given to look at.
fn given(format: Format, e: HotplugEvent, borrowed: usize) -> SectionFacts
    ensures { result ≡ given format e borrowed }
{
    SectionFacts {
        borrowed,
        stated: section_bytes(format),
        id: HOTPLUG_ID,
        version: HOTPLUG_VERSION,
        event: e,
        dirty: unused_word(e) != 0,
    }
}

// What bytes 8 to 11 say.
fn event_word(e: HotplugEvent) -> u32
    requires { (e.device < 256) × (e.action < 256) × (e.identifier < 256) }
    ensures { bytes32 result ≡ event_bytes e }
{
    e.device * 0x1000000 + e.action * 0x10000 + e.identifier * 0x100
}

// The section of an event whose numbers are bytes. The last word finds no room in a legacy one.
fn put_section(format: Format, e: HotplugEvent, out: &mut [u8])
    requires { (length out.old ≡ section_bytes format) × (e.device < 256) × (e.action < 256) × (e.identifier < 256) }
    ensures { out.new ≡ section format e }
{
    put_word(out, 0, HOTPLUG_ID * 0x10000 + section_bytes(format) as u32);
    put_word(out, 4, HOTPLUG_VERSION * 0x1000000);
    put_word(out, 8, event_word(e));
    put_word(out, 12, index_or_count(e));
    put_word(out, 16, first_index(e));
}

// The section of the event, over the whole buffer, or nothing.
pub fn write_section(format: Format, e: HotplugEvent, out: &mut [u8]) -> Result<(), SectionFault>
    ensures { section_left result out.new ≡ write_section format e out.old }
{
    fault_of(format, given(format, e, out.len()))?;
    put_section(format, e, out);
    Ok(())
}
