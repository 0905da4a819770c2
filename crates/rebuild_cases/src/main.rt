// Walks each tree of its input over a work area, hands every reply to a reader, and writes what the check answers, the
// status and the reading of each reply, the rebuilt blocks, and whether they are the same tree. A case of the input is the
// lengths of the structure and of the strings block, four bytes each, and then the two blocks.
#![tactic(auto)]

ghost use Rattle.std.specs.Prelude.{◌+◌, ◌≤◌, IfSome, length};

mod print;

use buffer::put_word;
use case_io::{STDIN_FILENO, STDOUT_FILENO, part};
use connector::Connector;
use print::{print_bytes, print_number};
use reader::read_reply;
use replies::{Reader, reading_number};
use step_status::{StepStatus, status_number};
use table::WORDS;
use treecheck::check_tree;
use treecompare::compare_trees;
use walk::step;
use words::word_at;

// The size of the reader's buffers.
const BLOCK: usize = 131072;

// As many calls as a walk can have: each takes four bytes of at most 32,768, but for one that asks and one that is refused.
const CALLS: usize = 8194;

// Where walk and reader stand once no call follows with the same work area, and whether the walk asked for more.
#[derive(Clone, Copy, PartialEq, Eq)]
pub struct Paused {
    pub connector: Connector,
    pub reader: Reader,
    pub left: usize,
    pub asked: bool,
}

// Whether another call follows with the same work area.
fn goes_on(status: StepStatus) -> bool {
    matches!(
        status,
        StepStatus::NextChild | StepStatus::NextProperty | StepStatus::PreviousParent
    )
}

// One reply's status and reading.
fn print_reply(status: i32, reading: i32) {
    print_number(status);
    io::write_all(STDOUT_FILENO, b" ");
    print_number(reading);
    io::write_all(STDOUT_FILENO, b"\n");
}

// At most `calls` calls with this work area, each reply read into the blocks `s` and `st`.
fn walk_over(
    from: Connector,
    reader: Reader,
    calls: usize,
    area: &mut [u8],
    structure: &[u8],
    strings: &[u8],
    table: &[u32; WORDS],
    s: &mut [u8],
    st: &mut [u8],
) -> Paused {
    let mut c = from;
    let mut r = reader;
    for made in 0..calls {
        let x = step(c, area, structure, strings, table);
        let n = status_number(x.status);
        let y = read_reply(r, n, area, s, st);
        print_reply(n, reading_number(y.answer));
        c = x.connector;
        r = y.reader;
        if !goes_on(x.status) {
            return Paused {
                connector: c,
                reader: r,
                left: calls - made - 1,
                asked: x.status == StepStatus::MoreMemory,
            };
        }
    }
    Paused {
        connector: c,
        reader: r,
        left: 0,
        asked: false,
    }
}

// The walk from its start over one page.
fn walk_page(structure: &[u8], strings: &[u8], s: &mut [u8], st: &mut [u8]) -> Paused {
    let table: [u32; WORDS] = [0; WORDS];
    let mut page: [u8; 4096] = [0; 4096];
    put_word(&mut page, 0, walked_connector::INDEX);
    let c = walked_connector::own_connector();
    let r = replies::fresh();
    walk_over(c, r, CALLS, &mut page, structure, strings, &table, s, st)
}

// Where the walk asked for more, the rest of it over two pages.
fn walk_pages(p: Paused, structure: &[u8], strings: &[u8], s: &mut [u8], st: &mut [u8]) -> Paused {
    if !p.asked {
        return p;
    }
    let table: [u32; WORDS] = [0; WORDS];
    let mut run: [u8; 8192] = [0; 8192];
    put_word(&mut run, 0, walked_connector::INDEX);
    walk_over(
        p.connector,
        p.reader,
        p.left,
        &mut run,
        structure,
        strings,
        &table,
        s,
        st,
    )
}

// The rebuilt blocks, and how they compare with the lent ones.
fn print_rebuilt(structure: &[u8], strings: &[u8], s: &[u8], st: &[u8]) {
    io::write_all(STDOUT_FILENO, b"structure ");
    print_bytes(s);
    io::write_all(STDOUT_FILENO, b"\nstrings ");
    print_bytes(st);
    io::write_all(STDOUT_FILENO, b"\ncompare ");
    if 4096 < st.len() {
        io::write_all(STDOUT_FILENO, b"passed 4096\n");
        return;
    }
    print_number(compare_trees(structure, strings, s, st));
    io::write_all(STDOUT_FILENO, b"\n");
}

fn case(structure: &[u8], strings: &[u8]) {
    io::write_all(STDOUT_FILENO, b"check ");
    io::print_decimal(STDOUT_FILENO, u64::from(check_tree(structure, strings)));
    io::write_all(STDOUT_FILENO, b"\n");
    let mut s = [0u8; BLOCK];
    let mut st = [0u8; BLOCK];
    let p = walk_page(structure, strings, &mut s, &mut st);
    let q = walk_pages(p, structure, strings, &mut s, &mut st);
    let r = q.reader;
    print_rebuilt(
        structure,
        strings,
        part(&s, 0, r.structure as usize),
        part(&st, 0, r.strings as usize),
    );
}

// The first case of an input, and what follows it; none where the input has no whole case.
fn first_case(input: &[u8]) -> Option<(&[u8], &[u8], &[u8])>
    ensures { IfSome result (λ r. length r.2.now + 8 ≤ length input.now) }
{
    let blocks = input.get(8..)?;
    let (structure, rest) = blocks.split_at_checked(word_at(input, 0) as usize)?;
    let (strings, rest) = rest.split_at_checked(word_at(input, 4) as usize)?;
    Some((structure, strings, rest))
}

fn cases(input: &[u8]) {
    let mut left = input;
    while let Some((structure, strings, rest)) = first_case(left) {
        case(structure, strings);
        left = rest;
    }
}

fn main() {
    let mut input = io::large_buffer();
    let n = io::read_full(STDIN_FILENO, &mut input);
    cases(&input[..n]);
}
