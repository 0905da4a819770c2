// The changes that a work area of update-nodes reports, three words each.
#![tactic(auto, unfolding(words::specs::Pick::pick, words::specs::First::first_of, crate::specs::Reader::operator_fault, crate::specs::Reader::answer_to, crate::specs::Reader::read_updates))]

ghost use Rattle.std.specs.Prelude.{◌≡◌, [], ◌∷◌, ◌+◌, ◌-◌, ◌*◌, ◌/◌, ◌≤◌, eqb, length, IfOk, IsOk};
ghost use Rattle.std.proofs.lemmas.List.Edits.{sets};
ghost use Rattle.words.specs.Pick.{pick};
ghost use Rattle.words.specs.Bytes.{word_at};
ghost use Rattle.buffer.specs.Put.{put};
ghost use Rattle.node_changes.specs.Changes.{add};
ghost use Rattle.node_changes.specs.Lists.{area_bytes, opcode_of, operands_after, width};
ghost use Rattle.changes_reader.specs.Reader.{change_words, entries_at, operator_fault, read_area, read_updates, updates_read};
ghost use Rattle.changes_reader.specs.Scan.{changes_of, count_after};

use node_changes::{ADD, AREA_BYTES, CHANGE_WORDS, is_kind, operand_count};
use words::{room, word_at};

// What an area is refused for.
#[derive(Clone, Copy, PartialEq, Eq)]
pub enum AreaFault {
    WrongLength,
    PastArea,
    UnknownOpcode,
    OddAdd,
    NoTerminator,
    NoRoom,
}

// An operator with opcode 1 and no operands.
const OPCODE: u32 = 0x100_0000;

// Where the operation lists begin.
const LISTS: usize = 16;

// How many operands follow an operator.
fn operands_after(w: u32) -> usize
    ensures { (result ≡ operands_after w) × (result ≤ 16777215) }
{
    (w % OPCODE) as usize
}

// How many changes an operator reports.
fn entry_count(w: u32) -> usize
    ensures { (result ≡ operands_after w / width (opcode_of w)) × (result ≤ operands_after w) }
{
    operands_after(w) / operand_count(w / OPCODE)
}

// What is refused at an operator behind which so many bytes are left.
fn operator_fault(w: u32, left: usize) -> Result<(), AreaFault>
    ensures { result ≡ operator_fault w left }
{
    let n = operands_after(w);
    if n == 0 {
        return Ok(());
    }
    if left < 4 * n {
        return Err(AreaFault::PastArea);
    }
    if !is_kind(w / OPCODE) {
        return Err(AreaFault::UnknownOpcode);
    }
    if n % operand_count(w / OPCODE) != 0 {
        return Err(AreaFault::OddAdd);
    }
    Ok(())
}

// How many changes the operators report. An operator says where the next one stands, so no `for` fits.
fn scan_lists(area: &[u8]) -> Result<usize, AreaFault>
    requires { length area.now ≡ area_bytes }
    ensures count { result ≡ count_after 0 (read_area area.now) }
    ensures few { IfOk result (λ n. n ≤ area_bytes) }
{
    let mut at = LISTS;
    let mut changes = 0;
    while 4 <= room(area, at) {
        let w = word_at(area, at);
        if w == 0 {
            return Ok(changes);
        }
        operator_fault(w, room(area, at + 4))?;
        changes += entry_count(w);
        at += 4 + 4 * operands_after(w);
    }
    Err(AreaFault::NoTerminator)
}

// The index of a change whose operands stand at `at`.
fn index_at(area: &[u8], at: usize, kind: u32) -> u32
    requires { at ≤ area_bytes }
    ensures { result ≡ pick (eqb kind add) (word_at area.now (at + 4)) 0 }
{
    if kind == ADD {
        word_at(area, at + 4)
    } else {
        0
    }
}

// The words of one change at `at`, for which there is room.
fn put_change(out: &mut [u32], at: usize, kind: u32, node: u32, index: u32)
    requires { 3 ≤ length out.old - at }
    ensures { out.new ≡ put out.old at (kind ∷ node ∷ index ∷ []) }
{
    out[at] = kind;
    out[at + 1] = node;
    out[at + 2] = index;
}

// The words of `count` changes of a kind, whose operands stand from `from` on, at `to`, for which there is room. The places are
// counted on: worked out from the number of the turn, read-updates took 1.4 times as long. Words are read among a change's own
// operands, so that no turn asks whether they are there: with places in the area, adds took 1.8 times as long.
fn write_entries(area: &[u8], from: usize, kind: u32, count: usize, out: &mut [u32], to: usize)
    requires { (from + 4 * (count * width kind) ≤ length area.now) × (3 * count ≤ length out.old - to) }
    ensures { out.new ≡ put out.old to (change_words (entries_at kind count area.now from)) }
{
    let step = 4 * operand_count(kind);
    let mut at = from;
    let mut i = to;
    for _ in 0..count {
        let entry = &area[at..at + step];
        put_change(out, i, kind, word_at(entry, 0), index_at(entry, 0, kind));
        at += step;
        i += CHANGE_WORDS;
    }
}

// The words of all changes, for which there is room, of an area that is not refused. No `for` fits, as in `scan_lists`.
fn write_list(area: &[u8], out: &mut [u32])
    requires { (length area.now ≡ area_bytes) × IsOk (read_area area.now) × (length (change_words (changes_of (read_area area.now))) ≤ length out.old) }
    ensures { out.new ≡ sets out.old 0 (change_words (changes_of (read_area area.now))) }
{
    let mut at = LISTS;
    let mut to = 0;
    while word_at(area, at) != 0 {
        let w = word_at(area, at);
        let n = entry_count(w);
        write_entries(area, at + 4, w / OPCODE, n, out, to);
        to += CHANGE_WORDS * n;
        at += 4 + 4 * operands_after(w);
    }
}

// The words of the changes that an area reports, and how many words; or nothing.
pub fn read_updates(area: &[u8], out: &mut [u32]) -> Result<u32, AreaFault>
    ensures { updates_read result out.new ≡ read_updates area.now out.old }
{
    if area.len() != AREA_BYTES {
        return Err(AreaFault::WrongLength);
    }
    let words = CHANGE_WORDS * scan_lists(area)?;
    if out.len() < words {
        return Err(AreaFault::NoRoom);
    }
    write_list(area, out);
    Ok(words as u32)
}
