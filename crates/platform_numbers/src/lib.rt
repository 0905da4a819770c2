// The platform's own calls over plain numbers, answered with document 01's.
#![tactic(auto)]

ghost use Rattle.std.specs.Prelude.{◌≡◌};
ghost use Rattle.table.specs.Model.{table_of};
ghost use Rattle.pool.specs.Pool.{free_count, free_lowest};
ghost use Rattle.call_status.specs.Status.{call_number};
ghost use Rattle.calls.specs.Calls.{add_connector, add_resource, added_number, place, retract, Told};
ghost use Rattle.want_back.specs.WantBack.{want_back};

use kinds::{Index, Resource};
use table::WORDS;

pub fn add_connector(
    table: &mut [u32; WORDS],
    kind: u32,
    index: u32,
    partition: u32,
    parent: u32,
) -> i32
    ensures { Told call_number table.old table.new result (add_connector (table_of table.old) kind index partition parent) }
{
    let s = adding::add_connector(table, kind, Index(index), partition, Index(parent));
    call_status::status_number(s)
}

// The new resource's number, 0 when refused, is written to `number`.
pub fn add_resource(table: &mut [u32; WORDS], kind: u32, number: &mut u32) -> i32
    ensures { Told call_number table.old table.new result (add_resource (table_of table.old) kind) × (number.new ≡ added_number (table_of table.old) kind) }
{
    match adding::add_resource(table, kind) {
        Ok(r) => {
            *number = r.0;
            0
        }
        Err(refusal) => {
            *number = 0;
            i32::from(refusal)
        }
    }
}

pub fn place(table: &mut [u32; WORDS], resource: u32, index: u32) -> i32
    ensures { Told call_number table.old table.new result (place (table_of table.old) resource index) }
{
    let s = platform::place(table, Resource(resource), Index(index));
    call_status::status_number(s)
}

pub fn retract(table: &mut [u32; WORDS], index: u32) -> i32
    ensures { Told call_number table.old table.new result (retract (table_of table.old) index) }
{
    let s = platform::retract(table, Index(index));
    call_status::status_number(s)
}

pub fn want_back(table: &mut [u32; WORDS], index: u32) -> i32
    ensures { Told call_number table.old table.new result (want_back (table_of table.old) index) }
{
    let s = want_back::want_back(table, Index(index));
    call_status::status_number(s)
}

pub fn free_count(table: &[u32; WORDS], kind: u32) -> u32
    ensures { result ≡ free_count kind (table_of table.now).ledger }
{
    pool::free_count(table, kind)
}

pub fn free_lowest(table: &[u32; WORDS], kind: u32) -> u32
    ensures { result ≡ free_lowest kind (table_of table.now).ledger }
{
    pool::free_lowest(table, kind).0
}
