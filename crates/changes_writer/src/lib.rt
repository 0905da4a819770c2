// Update-nodes: borrowed changes reported in a work area, as many as fit.
#![tactic(auto, unfolding(words::specs::Pick::pick, words::specs::Pick::every, crate::specs::Writer::is_sound, crate::specs::Writer::update_nodes, crate::specs::Plan::list_size, crate::specs::Plan::fit_in))]

ghost use Rattle.std.specs.Prelude.{◌≡◌, [], ◌∷◌, ◌++◌, ◌+◌, ◌-◌, ◌*◌, ◌%◌, ◌≤◌, ltb, drop, get_or, length, take};
ghost use Rattle.std.proofs.lemmas.List.Edits.{sets};
ghost use Rattle.words.specs.Pick.{pick};
ghost use Rattle.buffer.specs.Put.{put};
ghost use Rattle.node_changes.specs.Changes.{change, changes_at, changes_in, of_kind, tally_of};
ghost use Rattle.node_changes.specs.Lists.{area_bytes, operands, operation, width};
ghost use Rattle.changes_writer.specs.Writer.{bytes_of, change_limit, is_sound, list_words, remaining, report, state_in, update_nodes, updates_left};
ghost use Rattle.changes_writer.specs.Plan.{PlanFits, PortionFits, entry_bytes, fit_in, in_portion, list_size, lists_of, plan_of, portion_in};

use buffer::put_word;
use node_changes::{
    ADD, AREA_BYTES, CHANGE_WORDS, DELETE, Tally, UPDATE, count_kinds, one_of, operand_count,
};
use words::{word_at, zero_at};

// The most changes that may be borrowed.
pub const CHANGES: usize = 4096;

// The words of an area for operation lists.
const LIST_WORDS: usize = 1019;

// An operator with opcode 1 and no operands.
const OPCODE: u32 = 0x100_0000;

// The scope of a migration.
const MIGRATION: u32 = 1;

// What a report says of the changes after it: there are none, or more.
#[derive(Clone, Copy, PartialEq, Eq)]
pub enum Updating {
    Done,
    More,
}

// Nothing is reported. There is one number for all reasons, so none is told.
#[derive(Clone, Copy, PartialEq, Eq)]
pub struct Refused;

// Some changes of a kind: how many stand before them, and how many they are.
#[derive(Clone, Copy, PartialEq, Eq)]
struct Portion {
    skip: usize,
    count: usize,
}

#[derive(Clone, Copy, PartialEq, Eq)]
struct Plan {
    deletes: Portion,
    updates: Portion,
    adds: Portion,
}

// Of `rest` entries as many as fit in a room with their operator.
fn fit(rest: usize, width: usize, room: usize) -> usize
    requires { (1 ≤ width) × (width ≤ 2) }
    ensures { result ≡ fit_in rest width room }
{
    rest.min(room.saturating_sub(1) / width)
}

// The words of an operation list.
fn list_size(count: usize, width: usize) -> usize
    requires { (count ≤ list_words) × (width ≤ 2) }
    ensures { result ≡ list_size count width }
{
    if count == 0 { 0 } else { 1 + count * width }
}

// The place past the first `skip` changes of a kind. It ends at the last of them, so a `for` over
// the list would need a `break`.
fn skipped(changes: &[u32], kind: u32, skip: usize) -> usize
    requires { skip ≤ length (of_kind kind (changes_in changes.now)) }
    ensures { (of_kind kind (changes_at changes.now result) ≡ drop skip (of_kind kind (changes_in changes.now))) × (result ≤ length changes.now) }
{
    let mut left = skip;
    let mut i = 0;
    while 0 < left {
        left -= one_of(changes[i], kind);
        i += CHANGE_WORDS;
    }
    i
}

// The operands of the change at word `i`, as if it were of the kind, at `at`, for which there is room.
fn put_operands(changes: &[u32], i: usize, kind: u32, work: &mut [u8], at: usize)
    requires { (i + 3 ≤ length changes.now) × (at + 4 * width kind ≤ length work.old) }
    ensures { work.new ≡ put work.old at (bytes_of (operands (change kind (get_or changes.now (i + 1) 0) (get_or changes.now (i + 2) 0)))) }
{
    put_word(work, at, changes[i + 1]);
    if kind == ADD {
        put_word(work, at + 4, changes[i + 2]);
    }
}

// The operands of the first `count` changes of a kind from word `from` on, at `at`, for which there is room. Every change is
// put, and the next one over it unless it is of the kind, so that there is no branch on the kind. As in
// `skipped`, a `for` would need a `break`.
fn put_entries(changes: &[u32], from: usize, kind: u32, count: usize, work: &mut [u8], at: usize)
    requires { (from ≤ length changes.now) × (count ≤ length (of_kind kind (changes_at changes.now from))) × (at + length (entry_bytes (take count (of_kind kind (changes_at changes.now from)))) ≤ length work.old) }
    ensures { work.new ≡ put work.old at (entry_bytes (take count (of_kind kind (changes_at changes.now from)))) }
{
    let step = 4 * operand_count(kind);
    let mut left = count;
    let mut i = from;
    let mut to = at;
    while 0 < left {
        put_operands(changes, i, kind, work, to);
        let n = one_of(changes[i], kind);
        to += n * step;
        left -= n;
        i += CHANGE_WORDS;
    }
}

// The operation list of a portion at `at`, for which there is room; the answer is the place past it.
fn put_operation(changes: &[u32], kind: u32, p: Portion, work: &mut [u8], at: usize) -> usize
    requires { (kind ≤ 3) × PortionFits kind p (changes_in changes.now) × (at + 4 * list_size p.count (width kind) ≤ length work.old) }
    ensures { (work.new ≡ put work.old at (bytes_of (operation kind (in_portion kind p (changes_in changes.now))))) × (result ≡ at + 4 * list_size p.count (width kind)) }
{
    if p.count == 0 {
        return at;
    }
    let words = p.count * operand_count(kind);
    put_word(work, at, kind * OPCODE + words as u32);
    let from = skipped(changes, kind, p.skip);
    put_entries(changes, from, kind, p.count, work, at + 4);
    at + 4 + 4 * words
}

// The state variable and twelve zero bytes.
fn put_head(work: &mut [u8], state: u32)
    requires { 16 ≤ length work.old }
    ensures { work.new ≡ put work.old 0 (bytes_of (state ∷ 0 ∷ 0 ∷ 0 ∷ [])) }
{
    put_word(work, 0, state);
    put_word(work, 4, 0);
    put_word(work, 8, 0);
    put_word(work, 12, 0);
}

// The area of a report, with the operation lists of three portions.
fn write_area(changes: &[u32], p: Plan, state: u32, work: &mut [u8])
    requires { (length work.old ≡ area_bytes) × PlanFits p (changes_in changes.now) }
    ensures { work.new ≡ sets work.old 0 (bytes_of ((state ∷ 0 ∷ 0 ∷ 0 ∷ lists_of p (changes_in changes.now)) ++ (0 ∷ []))) }
{
    put_head(work, state);
    let updates = put_operation(changes, DELETE, p.deletes, work, 16);
    let adds = put_operation(changes, UPDATE, p.updates, work, updates);
    let end = put_operation(changes, ADD, p.adds, work, adds);
    put_word(work, end, 0);
}

// Of n changes of a kind, some of which were reported, those that fit in a room.
fn portion_of(n: usize, before: usize, width: usize, room: usize) -> Portion
    requires { (1 ≤ width) × (width ≤ 2) }
    ensures { result ≡ portion_in n before width room }
{
    let skip = before.min(n);
    Portion {
        skip,
        count: fit(n - skip, width, room),
    }
}

// Deletes, then updates in the room that they leave, then adds.
fn planned(t: Tally, before: usize) -> Plan
    ensures { result ≡ plan_of t before }
{
    let deletes = portion_of(t.deletes, before, 1, LIST_WORDS);
    let room = LIST_WORDS - list_size(deletes.count, 1);
    let updates = portion_of(t.updates, before - deletes.skip, 1, room);
    let rest = room - list_size(updates.count, 1);
    let adds = portion_of(t.adds, before - deletes.skip - updates.skip, 2, rest);
    Plan {
        deletes,
        updates,
        adds,
    }
}

// The state variable once the first `end` of n changes are reported: 0 where these are all.
fn next_state(end: usize, n: usize) -> u32
    requires { end ≤ change_limit }
    ensures { result ≡ pick (ltb end n) end 0 }
{
    if end < n { end as u32 } else { 0 }
}

// A report of the changes that were not reported so far.
fn report_changes(changes: &[u32], t: Tally, work: &mut [u8]) -> Updating
    requires { (t ≡ tally_of (changes_in changes.now)) × (length work.old ≡ area_bytes) × (t.deletes + t.updates + t.adds ≤ change_limit) × (state_in work.old ≤ t.deletes + t.updates + t.adds) }
    ensures { updates_left (Ok result) work.new ≡ report (state_in work.old) (remaining (state_in work.old) changes.now) work.old }
{
    let n = t.deletes + t.updates + t.adds;
    let before = word_at(work, 0) as usize;
    let p = planned(t, before);
    let end = before + p.deletes.count + p.updates.count + p.adds.count;
    write_area(changes, p, next_state(end, n), work);
    if end < n {
        Updating::More
    } else {
        Updating::Done
    }
}

// Whether nothing is refused before a pass over the changes.
fn is_sound(scope: u32, changes: &[u32], work: &[u8]) -> bool
    ensures { result ≡ is_sound scope changes.now work.now }
{
    let n = changes.len() / CHANGE_WORDS;
    scope == MIGRATION
        && word_at(work, 0) as usize <= n
        && n <= CHANGES
        && zero_at(work, 4, 12)
        && work.len() == AREA_BYTES
        && changes.len() % CHANGE_WORDS == 0
}

// Reports borrowed changes in the work area, as many as fit; or leaves it as it is.
pub fn update_nodes(scope: u32, changes: &[u32], work: &mut [u8]) -> Result<Updating, Refused>
    ensures { updates_left result work.new ≡ update_nodes scope changes.now work.old }
{
    if !is_sound(scope, changes, work) {
        return Err(Refused);
    }
    let t = count_kinds(changes);
    if t.deletes + t.updates + t.adds != changes.len() / CHANGE_WORDS {
        return Err(Refused);
    }
    Ok(report_changes(changes, t, work))
}
