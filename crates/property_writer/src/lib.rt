// The four array properties of a partition's connectors, written into four buffers.
#![tactic(auto)]

ghost use Rattle.std.specs.Prelude.{◌≡◌, [], ◌∷◌, ◌+◌, ◌-◌, ◌*◌, ◌<◌, ◌≤◌, leb, length};
ghost use Rattle.words.specs.Pick.{every};
ghost use Rattle.std.proofs.lemmas.List.Edits.{sets};
ghost use Rattle.buffer.specs.Put.{put};
ghost use Rattle.table.specs.Layout.{connector_at, connector_limit, count_of};
ghost use Rattle.table.specs.Model.{table_of};
ghost use Rattle.property_sizes.specs.Arrays.{array, listed};
ghost use Rattle.property_writer.specs.Rows.{AllWritten, RoomForAll, entries_of};
ghost use Rattle.property_writer.specs.Writer.{buffers, write_properties, writer_left};

use buffer::put_word;
use property_entries::{ArrayProperty, put_entry};
use property_sizes::{Sizes, is_listed, measure};
use table::{INDEX, KIND, WORDS, used_rows};

// A buffer is too short for its array.
#[derive(Clone, Copy, Debug, PartialEq, Eq)]
pub struct NoRoom;

// Row `i`'s entry at `at`, if it is listed; the answer is the place past it.
fn put_row(
    t: &[u32; WORDS],
    i: usize,
    partition: u32,
    property: ArrayProperty,
    dst: &mut [u8],
    at: usize,
) -> usize
    requires { (i < count_of t.now) × (at ≤ length dst.old) × (length (entries_of property partition (connector_at t.now i ∷ [])) ≤ length dst.old - at) }
    ensures { (dst.new ≡ put dst.old at (entries_of property partition (connector_at t.now i ∷ []))) × (result ≡ at + length (entries_of property partition (connector_at t.now i ∷ []))) }
{
    if is_listed(t, i, partition) {
        let n = put_entry(dst, at, property, t[KIND + i], t[INDEX + i]);
        return at + n;
    }
    at
}

// The entries behind the count, for which there is room, in one pass over the table.
fn write_entries(t: &[u32; WORDS], partition: u32, property: ArrayProperty, dst: &mut [u8])
    requires { 4 + length (entries_of property partition (table_of t.now).connectors) ≤ length dst.old }
    ensures { dst.new ≡ put dst.old 4 (entries_of property partition (table_of t.now).connectors) }
{
    let mut at = 4;
    for i in 0..used_rows(t) {
        at = put_row(t, i, partition, property, dst, at);
    }
}

// One array, for which there is room: how many entries, and the entries.
fn write_array(
    t: &[u32; WORDS],
    partition: u32,
    property: ArrayProperty,
    count: usize,
    dst: &mut [u8],
)
    requires { (count ≡ length (listed partition (table_of t.now))) × (count ≤ connector_limit) × (length (array property (listed partition (table_of t.now))) ≤ length dst.old) }
    ensures { dst.new ≡ sets dst.old 0 (array property (listed partition (table_of t.now))) }
{
    put_word(dst, 0, count as u32);
    write_entries(t, partition, property, dst);
}

// Whether each buffer has room for its array.
#[tactic(auto, unfolding(words::specs::Pick::every, words::specs::Pick::pick))]
fn have_room(s: Sizes, names: usize, indexes: usize, domains: usize, types: usize) -> bool
    requires { s.count ≤ connector_limit }
    ensures { result ≡ every (leb s.names names ∷ leb (4 + 4 * s.count) indexes ∷ leb (4 + 4 * s.count) domains ∷ leb s.types types ∷ []) }
{
    let words = 4 + 4 * s.count;
    s.names <= names && words <= indexes && words <= domains && s.types <= types
}

// All four arrays, for which there is room. The four buffers go no further together, so a struct of them would be no
// plainer.
fn write_arrays(
    t: &[u32; WORDS],
    partition: u32,
    count: usize,
    names: &mut [u8],
    indexes: &mut [u8],
    domains: &mut [u8],
    types: &mut [u8],
)
    requires { (count ≡ length (listed partition (table_of t.now))) × (count ≤ connector_limit) × RoomForAll (listed partition (table_of t.now)) names.old indexes.old domains.old types.old }
    ensures { AllWritten (listed partition (table_of t.now)) names.old indexes.old domains.old types.old names.new indexes.new domains.new types.new }
{
    write_array(t, partition, ArrayProperty::Names, count, names);
    write_array(t, partition, ArrayProperty::Indexes, count, indexes);
    write_array(t, partition, ArrayProperty::Domains, count, domains);
    write_array(t, partition, ArrayProperty::Types, count, types);
}

// The arrays of the partition's connectors, each from the start of its buffer, and their lengths; or nothing.
pub fn write_properties(
    t: &[u32; WORDS],
    partition: u32,
    names: &mut [u8],
    indexes: &mut [u8],
    domains: &mut [u8],
    types: &mut [u8],
    lengths: &mut [u32; 4],
) -> Result<(), NoRoom>
    ensures { writer_left result (buffers names.new indexes.new domains.new types.new lengths.new) ≡ write_properties (table_of t.now) partition (buffers names.old indexes.old domains.old types.old lengths.old) }
{
    let s = measure(t, partition);
    if !have_room(s, names.len(), indexes.len(), domains.len(), types.len()) {
        return Err(NoRoom);
    }
    write_arrays(t, partition, s.count, names, indexes, domains, types);
    let words = (4 + 4 * s.count) as u32;
    *lengths = [s.names as u32, words, words, s.types as u32];
    Ok(())
}
