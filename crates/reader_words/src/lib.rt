// The guest's reader for a caller that holds no records: its record as four words.
#![tactic(auto)]

ghost use Rattle.std.specs.Prelude.{◌≡◌};
ghost use Rattle.replies.specs.Replies.{reading_number, new_reader};
ghost use Rattle.reader.specs.Replies.{reply};
ghost use Rattle.reader_words.specs.Reading.{node_of, word_of_node, reader_of, reader_words, is_taken, Replied};

use replies::{Node, Reader, Reading};

// The reader's words: used lengths of the structure and the strings buffer, depth, node.
pub const READER_WORDS: usize = 4;

// The node that a word stands for; any other word reads as finished. No `From`: the type and the trait are of other crates.
#[tactic(auto, unfolding(crate::specs::Reading::node_of, words::specs::Pick::pick))]
fn node_of(w: u32) -> Node
    ensures { result ≡ node_of w }
{
    match w {
        0 => Node::NoChild,
        1 => Node::HasChild,
        _ => Node::Finished,
    }
}

fn word_of_node(n: Node) -> u32
    ensures { result ≡ word_of_node n }
{
    match n {
        Node::NoChild => 0,
        Node::HasChild => 1,
        Node::Finished => 2,
    }
}

fn get_reader(w: &[u32; READER_WORDS]) -> Reader
    ensures { result ≡ reader_of w.now }
{
    Reader {
        structure: w[0],
        strings: w[1],
        depth: w[2],
        node: node_of(w[3]),
    }
}

fn put_reader(w: &mut [u32; READER_WORDS], r: Reader)
    ensures { w.new ≡ reader_words r }
{
    *w = [r.structure, r.strings, r.depth, word_of_node(r.node)];
}

// A reader before the first reply.
pub fn fresh_reader(w: &mut [u32; READER_WORDS])
    ensures { w.new ≡ reader_words new_reader }
{
    *w = [0; READER_WORDS];
}

// Whether an answer is one of those that change the record.
fn is_taken(a: Reading) -> bool
    ensures { result ≡ is_taken a }
{
    matches!(a, Reading::Finished | Reading::Taken)
}

// The reader takes one reply. Its words are written only where the reply was taken.
fn read_reply(
    w: &mut [u32; READER_WORDS],
    status: i32,
    area: &[u8],
    structure: &mut [u8],
    strings: &mut [u8],
) -> Reading
    ensures { Replied (λ a. a) w.old w.new result structure.new strings.new (reply (reader_of w.old) status area.now structure.old strings.old) }
{
    let read = reader::read_reply(get_reader(w), status, area, structure, strings);
    if is_taken(read.answer) {
        put_reader(w, read.reader);
    }
    read.answer
}

// The same, answered with document 01's number.
pub fn read_number(
    w: &mut [u32; READER_WORDS],
    status: i32,
    area: &[u8],
    structure: &mut [u8],
    strings: &mut [u8],
) -> i32
    ensures { Replied reading_number w.old w.new result structure.new strings.new (reply (reader_of w.old) status area.now structure.old strings.old) }
{
    i32::from(read_reply(w, status, area, structure, strings))
}
