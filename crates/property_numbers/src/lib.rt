// The array properties written and read, answered with document 02's numbers.
#![tactic(auto)]

ghost use Rattle.std.specs.Prelude.{◌≡◌};
ghost use Rattle.table.specs.Model.{table_of};
ghost use Rattle.property_writer.specs.Writer.{buffers, write_properties, writing_number};
ghost use Rattle.property_reader.specs.Reader.{arrays, listing_number, read_properties};
ghost use Rattle.property_numbers.specs.Numbers.{ReadTo, WrittenTo};

use property_reader::ListRefusal;
use property_writer::NoRoom;
use table::WORDS;

// The number of success stands beside those of the refusals, so this and `listing_number` are no `From` of a refusal.
fn writing_number(answer: Result<(), NoRoom>) -> i32
    ensures { result ≡ writing_number answer }
{
    match answer {
        Ok(()) => 0,
        Err(NoRoom) => -32,
    }
}

pub fn write_properties(
    table: &[u32; WORDS],
    partition: u32,
    names: &mut [u8],
    indexes: &mut [u8],
    domains: &mut [u8],
    types: &mut [u8],
    lengths: &mut [u32; 4],
) -> i32
    ensures { WrittenTo result (buffers names.new indexes.new domains.new types.new lengths.new) (write_properties (table_of table.now) partition (buffers names.old indexes.old domains.old types.old lengths.old)) }
{
    writing_number(property_writer::write_properties(
        table, partition, names, indexes, domains, types, lengths,
    ))
}

fn listing_number(answer: Result<usize, ListRefusal>) -> i32
    ensures { result ≡ listing_number answer }
{
    match answer {
        Ok(_) => 0,
        Err(ListRefusal::CutShort) => -41,
        Err(ListRefusal::CountsDiffer) => -42,
        Err(ListRefusal::Unended) => -43,
        Err(ListRefusal::UnknownType) => -44,
        Err(ListRefusal::LeftOver) => -45,
        Err(ListRefusal::NoRoom) => -46,
    }
}

pub fn read_properties(
    names: &[u8],
    indexes: &[u8],
    domains: &[u8],
    types: &[u8],
    out: &mut [u8],
    written: &mut usize,
) -> i32
    ensures { ReadTo result out.new written.new written.old (read_properties (arrays names.now indexes.now domains.now types.now) out.old) }
{
    let answer = property_reader::read_properties(names, indexes, domains, types, out);
    if let Ok(n) = answer {
        *written = n;
    }
    listing_number(answer)
}
