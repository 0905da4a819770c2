// The statuses of a whole walk over a device tree, as text: document 01's small program.
#![tactic(auto)]

ghost use Rattle.std.specs.Prelude.{◌≡◌, false, ◌+◌, ◌*◌, ◌≤◌, length, leb};
ghost use Rattle.std.proofs.lemmas.List.Edits.{sets};
ghost use Rattle.words.specs.Pick.{pick};
ghost use Rattle.buffer.specs.Put.{put};
ghost use Rattle.emits.specs.Run.{ends, asks};
ghost use Rattle.status_lines.specs.Lines.{line_of};
ghost use Rattle.table.specs.Model.{table_of};
ghost use Rattle.statuses.specs.Statuses.{statuses_from, walk_statuses, lines, Same, to_come, text_of};

use buffer::{copy_bytes, put_word};
use connector::Connector;
use status_lines::counted_line;
use step_status::StepStatus;
use table::WORDS;
use treecheck::check_tree;
use walk::step;
use walked_connector::{INDEX, own_connector};
use words::word_at;

// Room for the text of any walk: six bytes for each of 32,768 + 2 statuses.
const TEXT: usize = 196620;

// Where a walk stands once no call follows with the same work area: the place in the text, the calls left, and whether it asked for more.
#[derive(Clone, Copy, PartialEq, Eq)]
pub struct Paused {
    pub connector: Connector,
    pub at: usize,
    pub left: usize,
    pub asked: bool,
}

fn is_last(status: StepStatus) -> bool
    ensures { result ≡ ends status }
{
    matches!(
        status,
        StepStatus::Complete
            | StepStatus::Parameter
            | StepStatus::NotUnisolated
            | StepStatus::BadTree { .. }
    )
}

fn is_asking(status: StepStatus) -> bool
    ensures { result ≡ asks status }
{
    status == StepStatus::MoreMemory
}

// The bytes at `at`; the answer is the place past them.
fn put_line(text: &mut [u8], at: usize, line: &[u8]) -> usize
    requires { at + length line.now ≤ length text.old }
    ensures { (text.new ≡ sets text.old at line.now) × (result ≡ at + length line.now) }
{
    copy_bytes(text, at, line, 0, line.len());
    at + line.len()
}

// The line of a status at `at`; the answer is the place past it.
fn put_status(text: &mut [u8], at: usize, status: StepStatus) -> usize
    requires { at + 6 ≤ length text.old }
    ensures { (text.new ≡ sets text.old at (line_of status)) × (result ≡ at + length (line_of status)) × (length (line_of status) ≤ 6) }
{
    let line = counted_line(status);
    let n = line[0] as usize;
    copy_bytes(text, at, &line, 1, n);
    at + n
}

fn pause(connector: Connector, at: usize, left: usize, asked: bool) -> Paused
    ensures { result ≡ record { connector = connector; at = at; left = left; asked = asked } }
{
    Paused {
        connector,
        at,
        left,
        asked,
    }
}

// At most `calls` calls with the same work area, up to the last of the walk or the one that asks for more.
// What is written and what is still to come add up to the whole.
fn walk_over(
    text: &mut [u8],
    from: usize,
    first: Connector,
    area: &mut [u8],
    calls: usize,
    structure: &[u8],
    strings: &[u8],
    table: &[u32; WORDS],
) -> Paused
    requires { from + 6 * calls ≤ length text.old }
    ensures { (result.at + 6 * result.left ≤ from + 6 * calls) × Same text.new result.at (to_come (table_of table.now) structure.now strings.now result) text.old from (lines (statuses_from (table_of table.now) calls structure.now strings.now first area.old)) × (length area.old ≡ 8192 → result.asked ≡ false) }
{
    let mut c = first;
    let mut at = from;
    for left in (0..calls).rev() {
        let r = step(c, area, structure, strings, table);
        c = r.connector;
        at = put_status(text, at, r.status);
        if is_last(r.status) {
            return pause(c, at, left, false);
        }
        if is_asking(r.status) {
            return pause(c, at, left, true);
        }
    }
    pause(c, at, 0, false)
}

// The text of the whole walk: over one page, and once that asks for more over two. The table that is lent has no connector,
// so no node is left out.
fn walk_tree(text: &mut [u8], structure: &[u8], strings: &[u8]) -> usize
    requires { 6 * (length structure.now + 2) ≤ length text.old }
    ensures { (text.new ≡ sets text.old 0 (lines (walk_statuses structure.now strings.now))) × (result ≡ length (lines (walk_statuses structure.now strings.now))) × (result ≤ length text.old) }
{
    let table: [u32; WORDS] = [0; WORDS];
    let mut page: [u8; 4096] = [0; 4096];
    put_word(&mut page, 0, INDEX);
    let calls = structure.len() + 2;
    let p = walk_over(
        text,
        0,
        own_connector(),
        &mut page,
        calls,
        structure,
        strings,
        &table,
    );
    if !p.asked {
        return p.at;
    }
    let mut run: [u8; 8192] = [0; 8192];
    put_word(&mut run, 0, INDEX);
    walk_over(
        text,
        p.at,
        p.connector,
        &mut run,
        p.left,
        structure,
        strings,
        &table,
    )
    .at
}

// The text of the input.
fn write_text(text: &mut [u8], input: &[u8]) -> usize
    requires { 196620 ≤ length text.old }
    ensures { (text.new ≡ sets text.old 0 (text_of input.now)) × (result ≡ length (text_of input.now)) × (result ≤ length text.old) }
{
    if input.len() < 4 {
        return put_line(text, 0, b"refused\n");
    }
    let end = 4 + word_at(input, 0) as usize;
    if input.len() < end {
        return put_line(text, 0, b"refused\n");
    }
    let structure = &input[4..end];
    let strings = &input[end..];
    if check_tree(structure, strings) == 0 {
        return put_line(text, 0, b"refused\n");
    }
    walk_tree(text, structure, strings)
}

// The statuses of a walk over the tree of the input, one to a line, or `refused`; nothing where the output has no room for all.
pub fn walk_statuses(input: &[u8], output: &mut [u8]) -> usize
    ensures { (output.new ≡ put output.old 0 (text_of input.now)) × (result ≡ pick (leb (length (text_of input.now)) (length output.old)) (length (text_of input.now)) 0) × (result ≤ length output.new) }
{
    let mut text = [0u8; TEXT];
    let n = write_text(&mut text, input);
    copy_bytes(output, 0, &text, 0, n);
    if n <= output.len() { n } else { 0 }
}
