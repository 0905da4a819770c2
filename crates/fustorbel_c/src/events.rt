// The hot-plug event section of an event, written and read.
ghost use Rattle.hotplug_writer.specs.Writer.{write_section};
ghost use Rattle.hotplug_reader.specs.Reader.{read_section};
ghost use Rattle.hotplug_numbers.specs.Numbers.{EventTo, SectionTo, event_of, format_of};

use hotplug_numbers::EVENT_WORDS;

#[unsafe(no_mangle)]
pub extern "C" fn drc_write_event(modern: u32, event: &[u32; EVENT_WORDS], out: &mut [u8]) -> i32
    ensures { SectionTo result out.new (write_section (format_of modern) (event_of event.now) out.old) }
{
    fustorbel::events::drc_write_event(modern, event, out)
}

#[unsafe(no_mangle)]
pub extern "C" fn drc_read_event(modern: u32, section: &[u8], event: &mut [u32; EVENT_WORDS]) -> i32
    ensures { EventTo result event.old event.new (read_section (format_of modern) section.now) }
{
    fustorbel::events::drc_read_event(modern, section, event)
}
