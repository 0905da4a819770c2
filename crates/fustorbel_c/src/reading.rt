// The guest's reader, with its record in four words.
ghost use Rattle.std.specs.Prelude.{◌≡◌};
ghost use Rattle.replies.specs.Replies.{reading_number, new_reader};
ghost use Rattle.reader.specs.Replies.{reply};
ghost use Rattle.reader_words.specs.Reading.{Replied, reader_of, reader_words};

use reader_words::READER_WORDS;

// A reader before the first reply.
#[unsafe(no_mangle)]
pub extern "C" fn drc_reader_fresh(reader: &mut [u32; READER_WORDS])
    ensures { reader.new ≡ reader_words new_reader }
{
    fustorbel::reading::drc_reader_fresh(reader);
}

#[unsafe(no_mangle)]
pub extern "C" fn drc_read_reply(
    reader: &mut [u32; READER_WORDS],
    status: i32,
    work: &[u8],
    structure: &mut [u8],
    strings: &mut [u8],
) -> i32
    ensures { Replied reading_number reader.old reader.new result structure.new strings.new (reply (reader_of reader.old) status work.now structure.old strings.old) }
{
    fustorbel::reading::drc_read_reply(reader, status, work, structure, strings)
}
