// The four array properties of a partition's connectors, written and read.
ghost use Rattle.table.specs.Model.{table_of};
ghost use Rattle.property_writer.specs.Writer.{buffers, write_properties};
ghost use Rattle.property_reader.specs.Reader.{arrays, read_properties};
ghost use Rattle.property_numbers.specs.Numbers.{ReadTo, WrittenTo};

use table::WORDS;

#[unsafe(no_mangle)]
pub extern "C" fn drc_write_properties(
    table: &[u32; WORDS],
    partition: u32,
    names: &mut [u8],
    indexes: &mut [u8],
    domains: &mut [u8],
    types: &mut [u8],
    lengths: &mut [u32; 4],
) -> i32
    ensures { WrittenTo result (buffers names.new indexes.new domains.new types.new lengths.new) (write_properties (table_of table.now) partition (buffers names.old indexes.old domains.old types.old lengths.old)) }
{
    fustorbel::properties::drc_write_properties(
        table, partition, names, indexes, domains, types, lengths,
    )
}

#[unsafe(no_mangle)]
pub extern "C" fn drc_read_properties(
    names: &[u8],
    indexes: &[u8],
    domains: &[u8],
    types: &[u8],
    out: &mut [u8],
    written: &mut usize,
) -> i32
    ensures { ReadTo result out.new written.new written.old (read_properties (arrays names.now indexes.now domains.now types.now) out.old) }
{
    fustorbel::properties::drc_read_properties(names, indexes, domains, types, out, written)
}
