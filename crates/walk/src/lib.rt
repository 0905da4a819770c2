// A walk over a device tree, one token a call, on a connector record by value.
#![tactic(auto)]

ghost use Rattle.std.specs.Prelude.{◌≡◌, true, [], ◌∷◌, ◌++◌, eqb, ltb, ℕ, ◌+◌, ◌-◌, ◌<◌, ◌≤◌, ◌^◌, length};
ghost use Rattle.words.specs.Pick.{every};
ghost use Rattle.words.specs.Bytes.{part, name_length};
ghost use Rattle.buffer.specs.Put.{bytes32, put};
ghost use Rattle.devtree.specs.Tree.{begin, prop};
ghost use Rattle.table.specs.Model.{table_of};
ghost use Rattle.unowned.specs.Unowned.{unowned};
ghost use Rattle.sent.specs.Sent.{next_sent};
ghost use Rattle.guards.specs.Guards.{is_area};
ghost use Rattle.walk.specs.Step.{written, on_begin, on_property, consume, step};

use buffer::{copy_bytes, put_word};
use connector::Connector;
use devtree::Token;
use guards::{is_area, is_readable, is_unisolated, pages_meet};
use next_sent::next_sent;
use step_status::StepStatus;
use stepped::{Stepped, asking, on_end, step_to};
use table::WORDS;

// The offset of a name in the work area, and with its NUL the offset past it.
const NAME: usize = 20;

// A node's name and its NUL.
fn write_child(area: &mut [u8], s: &[u8], name: usize, n: usize)
    requires { (n + 21 ≤ length area.old) × (name_length 48 s.now name ≡ n) × (n ≤ 47) × (n < length s.now - name) }
    ensures { area.new ≡ written area.old (begin (part s.now name n)) }
{
    put_word(area, 8, 20);
    copy_bytes(area, NAME, s, name, n + 1);
}

// Words 2 to 4 for a name of `n` bytes and a value of `len`.
fn write_words(area: &mut [u8], n: usize, len: usize)
    requires { (20 ≤ length area.old) × (n ≤ 31) × (len ≤ 8172) }
    ensures { area.new ≡ put area.old 8 (bytes32 20 ++ (bytes32 len ++ bytes32 (n + 21))) }
{
    put_word(area, 8, 20);
    put_word(area, 12, len as u32);
    put_word(area, 16, (n + 21) as u32);
}

// A property's name, its NUL and its value.
fn write_property(
    area: &mut [u8],
    s: &[u8],
    strings: &[u8],
    name: usize,
    n: usize,
    value: usize,
    len: usize,
)
    requires { (n + 21 + len ≤ length area.old) × (name_length 32 strings.now name ≡ n) × (n ≤ 31) × (n < length strings.now - name) × (len ≤ length s.now - value) × (len ≤ 8172) }
    ensures { area.new ≡ written area.old (prop (part strings.now name n) (part s.now value len)) }
{
    write_words(area, n, len);
    copy_bytes(area, NAME, strings, name, n + 1);
    copy_bytes(area, n + 21, s, value, len);
}

#[tactic(auto, unfolding(crate::specs::Step::on_begin, words::specs::Pick::pick))]
fn on_begin(
    c: Connector,
    area: &mut [u8],
    s: &[u8],
    at: usize,
    name: usize,
    n: usize,
    next: usize,
) -> Stepped
    requires { (n + 21 ≤ length area.old) × (name_length 48 s.now name ≡ n) × (n ≤ 47) × (n < length s.now - name) × (next < 2 ^ 32) }
    ensures { (result ≡ (on_begin c area.old at next (part s.now name n)).stepped) × (area.new ≡ (on_begin c area.old at next (part s.now name n)).area) }
{
    let depth = c.walk.depth;
    if 8 <= depth {
        return Stepped {
            status: StepStatus::BadTree { at },
            connector: c,
        };
    }
    let lent = area.len();
    write_child(area, s, name, n);
    step_to(c, StepStatus::NextChild, next as u32, depth + 1, lent)
}

// A property's reply needs more than the page that is lent.
#[tactic(auto, unfolding(words::specs::Pick::every, words::specs::Pick::pick))]
fn needs_page(lent: usize, n: usize, len: usize) -> bool
    requires { (n ≤ 31) × (len ≤ 8172) }
    ensures { result ≡ every (eqb lent 4096 ∷ ltb 4096 (20 + n + 1 + len) ∷ []) }
{
    lent == 4096 && 4096 < 20 + n + 1 + len
}

fn on_property(
    c: Connector,
    area: &mut [u8],
    s: &[u8],
    strings: &[u8],
    at: usize,
    name: usize,
    n: usize,
    value: usize,
    len: usize,
    next: usize,
) -> Stepped
    requires { (is_area (length area.old) ≡ true) × (name_length 32 strings.now name ≡ n) × (n ≤ 31) × (n < length strings.now - name) × (len ≤ length s.now - value) × (len ≤ 8192 - 20 - (n + 1)) × (next < 2 ^ 32) }
    ensures { (result ≡ (on_property c area.old at next (part strings.now name n) (part s.now value len)).stepped) × (area.new ≡ (on_property c area.old at next (part strings.now name n) (part s.now value len)).area) }
{
    let depth = c.walk.depth;
    if depth == 0 {
        return Stepped {
            status: StepStatus::BadTree { at },
            connector: c,
        };
    }
    let lent = area.len();
    if needs_page(lent, n, len) {
        return asking(c);
    }
    write_property(area, s, strings, name, n, value, len);
    step_to(c, StepStatus::NextProperty, next as u32, depth, lent)
}

// The next token that is sent is consumed, or the reason why not is answered.
#[tactic(auto, unfolding(crate::specs::Step::consume))]
fn advance(c: Connector, area: &mut [u8], s: &[u8], strings: &[u8], table: &[u32; WORDS]) -> Stepped
    requires { (is_area (length area.old) ≡ true) × (length s.now ≤ 32768) }
    ensures { (result ≡ (consume c area.old s.now strings.now (next_sent (unowned (table_of table.now) c.partition) s.now strings.now c.walk.depth c.walk.place)).stepped) × (area.new ≡ (consume c area.old s.now strings.now (next_sent (unowned (table_of table.now) c.partition) s.now strings.now c.walk.depth c.walk.place)).area) }
{
    let walk = c.walk;
    match next_sent(
        s,
        strings,
        walk.depth,
        walk.place as usize,
        table,
        c.partition,
    ) {
        Token::Begin {
            at,
            name_at,
            name_len,
            next,
        } => on_begin(c, area, s, at, name_at, name_len, next),
        Token::Property {
            at,
            name_at,
            name_len,
            value_at,
            value_len,
            next,
        } => {
            on_property(
                c, area, s, strings, at, name_at, name_len, value_at, value_len, next,
            )
        }
        Token::EndNode { at, next } => on_end(c, area.len(), at, next as u32),
        Token::End { at, .. } | Token::Fault { at } => Stepped {
            status: StepStatus::BadTree { at },
            connector: c,
        },
    }
}

// One step of the walk of the connector `c`, with the tree that is lent, over a work area of one page or two. Nodes that
// belong to a connector that is unowned in the table are left out.
pub fn step(
    c: Connector,
    area: &mut [u8],
    structure: &[u8],
    strings: &[u8],
    table: &[u32; WORDS],
) -> Stepped
    ensures { (result ≡ (step (unowned (table_of table.now) c.partition) c area.old structure.now strings.now).stepped) × (area.new ≡ (step (unowned (table_of table.now) c.partition) c area.old structure.now strings.now).area) }
{
    let lent = area.len();
    if !is_area(lent) {
        return Stepped {
            status: StepStatus::Parameter,
            connector: c,
        };
    }
    if !is_unisolated(c.state) {
        return Stepped {
            status: StepStatus::NotUnisolated,
            connector: c,
        };
    }
    if !pages_meet(c.walk.page, lent) {
        return Stepped {
            status: StepStatus::Parameter,
            connector: c,
        };
    }
    if !is_readable(structure.len(), strings.len(), c.walk.place as usize) {
        return Stepped {
            status: StepStatus::BadTree { at: 0 },
            connector: c,
        };
    }
    advance(c, area, structure, strings, table)
}
