// The partition's orders and the sensor. Configure-connector stands in `partition_walk`.
#![tactic(auto)]

ghost use Rattle.std.specs.Prelude.{◌≡◌};
ghost use Rattle.words.specs.Pick.{any};
ghost use Rattle.connector.specs.Orders.{isolate_of, usable_of};
ghost use Rattle.table.specs.Model.{table_of, writes, slot_below};
ghost use Rattle.calls.specs.Calls.{configured_at, around, order_named, order_in, order_edits, set_indicator, sensed, get_sensor, Answered};

use calls::{look_up, look_up_own, to_pool};
use connector::Connector;
use connector::orders::{Change, OrderRefusal, Ordered};
use kinds::Index;
use table::WORDS;

// Whether the first connector with this index is Configured; a missing one is not.
fn configured_at(t: &[u32; WORDS], k: Index) -> bool
    ensures { result ≡ configured_at (table_of t.now) k.0 }
{
    match look_up(t, k) {
        Some((_, c)) => states::is_configured(c.state),
        None => false,
    }
}

// The slots are looked at only where they matter: below a PHB that is Configured.
fn isolate(t: &[u32; WORDS], c: Connector) -> Ordered
    ensures { result ≡ isolate_of (any (slot_below c.index.0) (table_of t.now).connectors) c }
{
    if !states::is_configured(c.state) || c.kind != kinds::PHB {
        return c.isolate(false);
    }
    c.isolate(table::slot_in_use(t, c.index))
}

// The parent is looked up only where it matters: one was given, and the connector is Unusable and not empty.
fn usable(t: &[u32; WORDS], c: Connector) -> Ordered
    ensures { result ≡ usable_of (configured_at (table_of t.now) c.parent.0) c }
{
    if states::in_use(c.state) || c.resource.0 == 0 || c.parent.0 == 0 {
        return c.usable(false);
    }
    c.usable(configured_at(t, c.parent))
}

// The order that a token and a value name; any others are refused.
fn order(t: &[u32; WORDS], c: Connector, token: u32, value: u32) -> Ordered
    ensures { result ≡ order_in (around (table_of t.now) c) (order_named token value) c }
{
    match (token, value) {
        (9001, 0) => isolate(t, c),
        (9001, 1) => c.unisolate(),
        (9003, 0) => c.unusable(),
        (9003, 1) => usable(t, c),
        _ => Ordered {
            status: Err(OrderRefusal::Parameter),
            change: Change::Kept,
            connector: c,
        },
    }
}

// What an order did to connector i, which was c, is stored.
fn carry(t: &mut [u32; WORDS], i: usize, c: Connector, change: Change, to: Connector)
    ensures { t.new ≡ writes t.old (order_edits (table_of t.old) i c change to) }
{
    match change {
        Change::Kept => {}
        Change::Moved => edits::store(t, i, to),
        Change::Released => {
            to_pool(t, c.resource, c.index);
            edits::store(t, i, to);
        }
    }
}

pub fn set_indicator(
    t: &mut [u32; WORDS],
    partition: u32,
    token: u32,
    k: Index,
    value: u32,
) -> Result<(), OrderRefusal>
    ensures { Answered t.old t.new result (set_indicator (table_of t.old) partition token k.0 value) }
{
    let Some((i, c)) = look_up_own(t, partition, k) else {
        return Err(OrderRefusal::Parameter);
    };
    let o = order(t, c, token, value);
    carry(t, i, c, o.change, o.connector);
    o.status
}

pub fn get_sensor(
    t: &[u32; WORDS],
    partition: u32,
    token: u32,
    k: Index,
) -> Result<u32, OrderRefusal>
    ensures { sensed result ≡ get_sensor (table_of t.now) partition token k.0 }
{
    if token != 9003 {
        return Err(OrderRefusal::Parameter);
    }
    let Some((_, c)) = look_up_own(t, partition, k) else {
        return Err(OrderRefusal::Parameter);
    };
    Ok(c.sense())
}
