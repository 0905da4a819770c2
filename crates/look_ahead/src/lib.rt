// What stands ahead in a node, from past its begin-node token on: whether a property names a connector by its index.
#![tactic(auto)]

ghost use Rattle.std.specs.Prelude.{◌≡◌, ◌-◌, ◌≤◌, length};
ghost use Rattle.words.specs.Bytes.{part};
ghost use Rattle.devtree.specs.Names.{same_name};
ghost use Rattle.devtree.specs.Tokens.{tokens};
ghost use Rattle.sent.specs.Sent.{my_drc_index, names_connector, ahead};

use devtree::{Broken, past_property, skip};
use kinds::Index;
use words::{eight_at, name_length, room, word_at};

// "ibm,my-d" and "rc-index" as numbers, the first byte lowest.
const IBM_MY_D: u64 = 0x642d_796d_2c6d_6269;

const RC_INDEX: u64 = 0x7865_646e_692d_6372;

// Whether the sixteen bytes at `name` are "ibm,my-drc-index".
fn is_index_name(strings: &[u8], name: usize) -> bool
    requires { 16 ≤ length strings.now - name }
    ensures { result ≡ same_name (part strings.now name 16) my_drc_index }
{
    eight_at(strings, name) == IBM_MY_D && eight_at(strings, name + 8) == RC_INDEX
}

// Whether a property with the name of `n` bytes at `name`, and a value of `size` bytes, names a connector by its index.
pub fn names_connector(strings: &[u8], name: usize, n: usize, size: usize) -> bool
    ensures { result ≡ names_connector (part strings.now name n) size }
{
    size == 4 && room(strings, name).min(n) == 16 && is_index_name(strings, name)
}

// The connector that the first such property from `at` on names, before the next begin-node, which is not checked itself, or end-node.
pub fn index_ahead(s: &[u8], strings: &[u8], at: usize) -> Result<Option<Index>, Broken>
    ensures { result ≡ ahead s.now strings.now (tokens s.now strings.now at) }
{
    let mut p = at;
    loop {
        let q = skip(s, p);
        match word_at(s, q) {
            1 | 2 => return Ok(None),
            3 => {}
            _ => return Err(Broken { at: q.min(s.len()) }),
        }
        let name = word_at(s, q + 8) as usize;
        let n = name_length(strings, name, 32);
        let next = past_property(s, strings, q, name, n).ok_or(Broken { at: q })?;
        if names_connector(strings, name, n, word_at(s, q + 4) as usize) {
            return Ok(Some(Index(word_at(s, q + 12))));
        }
        p = next;
    }
}
