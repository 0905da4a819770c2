// The archive of the walk's step on a record of ten words: the calls of walk_record, exported with the contracts that they have
// there. include/walk_record.h declares them for C.
#![tactic(auto)]

ghost use Rattle.std.specs.Prelude.{◌≡◌};
ghost use Rattle.table.specs.Model.{table_of};
ghost use Rattle.walk_record.specs.Words.{walk_record};
ghost use Rattle.walk_record.specs.Faults.{record_fault};

use table::WORDS;
use walk_record::RECORD_WORDS;

// One step of the record's walk, with the tree that is lent: document 01's number, with the record and the work area changed in
// place. Nodes that belong to a connector that is unowned in the table are left out.
#[unsafe(no_mangle)]
pub extern "C" fn drc_walk_record(
    row: &mut [u32; RECORD_WORDS],
    work: &mut [u8],
    structure: &[u8],
    strings: &[u8],
    table: &[u32; WORDS],
) -> i32
    ensures { (result ≡ (walk_record (table_of table.now) row.old work.old structure.now strings.now).number)
        × (row.new ≡ (walk_record (table_of table.now) row.old work.old structure.now strings.now).words)
        × (work.new ≡ (walk_record (table_of table.now) row.old work.old structure.now strings.now).area) }
{
    walk_record::drc_walk_record(row, work, structure, strings, table)
}

// The same; with -1 the offset of the token at fault, else 0, is written to `fault`.
#[unsafe(no_mangle)]
pub extern "C" fn drc_walk_record_at(
    row: &mut [u32; RECORD_WORDS],
    work: &mut [u8],
    structure: &[u8],
    strings: &[u8],
    table: &[u32; WORDS],
    fault: &mut u32,
) -> i32
    ensures { (result ≡ (walk_record (table_of table.now) row.old work.old structure.now strings.now).number)
        × (row.new ≡ (walk_record (table_of table.now) row.old work.old structure.now strings.now).words)
        × (work.new ≡ (walk_record (table_of table.now) row.old work.old structure.now strings.now).area)
        × (fault.new ≡ record_fault (table_of table.now) row.old work.old structure.now strings.now) }
{
    walk_record::drc_walk_record_at(row, work, structure, strings, table, fault)
}
