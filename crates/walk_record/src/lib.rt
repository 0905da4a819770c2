// One step of a walk on a connector record kept as ten words, for a hypervisor that keeps its own records.
#![tactic(auto)]

ghost use Rattle.std.specs.Prelude.{◌≡◌, ◌≤◌};
ghost use Rattle.connector.specs.Fields.{step_words};
ghost use Rattle.table.specs.Model.{table_of};
ghost use Rattle.walk_record.specs.Words.{carried, put_words, walk_record};
ghost use Rattle.walk_record.specs.Faults.{record_fault};

use connector::{COLUMNS, Connector};
use connector_words::{connector_of, word_of_page, word_of_state};
use faults::status_offset;
use step_status::status_number;
use stepped::Stepped;
use table::WORDS;

// A record's words, in the order of the table's columns.
pub const RECORD_WORDS: usize = COLUMNS;

const STATE: usize = 4;

const PLACE: usize = 6;

const DEPTH: usize = 7;

const PAGE: usize = 8;

fn set_step(t: &mut [u32; RECORD_WORDS], state: u32, place: u32, depth: u32, page: u32)
    ensures { t.new ≡ put_words t.old (step_words state place depth page) }
{
    t[STATE] = state;
    t[PLACE] = place;
    t[DEPTH] = depth;
    t[PAGE] = page;
}

// The state and the walk of the step's connector are stored; a refusal stores nothing.
fn carry(t: &mut [u32; RECORD_WORDS], s: Stepped)
    ensures { t.new ≡ carried t.old s }
{
    if step_status::is_refusal(s.status) {
        return;
    }
    let Connector { state, walk, .. } = s.connector;
    set_step(
        t,
        word_of_state(state),
        walk.place,
        walk.depth,
        word_of_page(walk.page),
    );
}

// One step of the record's walk, which both calls below share. The order of the parameters, and that the blocks are lent anew,
// is for speed: docs/DECISIONS.md.
fn walk_row(
    row: &mut [u32; RECORD_WORDS],
    work: &mut [u8],
    structure: &[u8],
    table: &[u32; WORDS],
    strings: &[u8],
    fault: &mut usize,
) -> i32
    ensures { (result ≡ (walk_record (table_of table.now) row.old work.old structure.now strings.now).number)
        × (row.new ≡ (walk_record (table_of table.now) row.old work.old structure.now strings.now).words)
        × (work.new ≡ (walk_record (table_of table.now) row.old work.old structure.now strings.now).area)
        × (fault.new ≡ record_fault (table_of table.now) row.old work.old structure.now strings.now)
        × (fault.new ≤ 32768) }
{
    let c = connector_of(row);
    let s = walk::step(c, work, &*structure, &*strings, table);
    carry(row, s);
    *fault = status_offset(s.status);
    status_number(s.status)
}

// One step of the record's walk, with the tree that is lent: document 01's number, with the record and the work area changed in
// place. Nodes that belong to a connector that is unowned in the table are left out.
#[unsafe(no_mangle)]
pub extern "C" fn drc_walk_record(
    row: &mut [u32; RECORD_WORDS],
    work: &mut [u8],
    structure: &[u8],
    strings: &[u8],
    table: &[u32; WORDS],
) -> i32
    ensures { (result ≡ (walk_record (table_of table.now) row.old work.old structure.now strings.now).number)
        × (row.new ≡ (walk_record (table_of table.now) row.old work.old structure.now strings.now).words)
        × (work.new ≡ (walk_record (table_of table.now) row.old work.old structure.now strings.now).area) }
{
    walk_row(row, work, structure, table, strings, &mut 0)
}

// The same; with -1 the offset of the token at fault, else 0, is written to `fault`.
#[unsafe(no_mangle)]
pub extern "C" fn drc_walk_record_at(
    row: &mut [u32; RECORD_WORDS],
    work: &mut [u8],
    structure: &[u8],
    strings: &[u8],
    table: &[u32; WORDS],
    fault: &mut u32,
) -> i32
    ensures { (result ≡ (walk_record (table_of table.now) row.old work.old structure.now strings.now).number)
        × (row.new ≡ (walk_record (table_of table.now) row.old work.old structure.now strings.now).words)
        × (work.new ≡ (walk_record (table_of table.now) row.old work.old structure.now strings.now).area)
        × (fault.new ≡ record_fault (table_of table.now) row.old work.old structure.now strings.now) }
{
    let mut at = 0;
    let number = walk_row(row, work, structure, table, strings, &mut at);
    *fault = at as u32;
    number
}
