// The place past a node of the structure block, from past its begin-node token on, without a reply for any of its tokens.
#![tactic(auto)]

ghost use Rattle.std.specs.Prelude.{◌≡◌};
ghost use Rattle.words.specs.Bytes.{word_at};
ghost use Rattle.devtree.specs.Tokens.{token_of, tokens};
ghost use Rattle.past_node.specs.Past.{past_of, past_node};

use devtree::{Broken, past_begin, past_property, skip};
use words::{name_length, word_at};

// The offset past the token at `q`, whose number is `kind`.
fn past_token(s: &[u8], strings: &[u8], q: usize, kind: u32) -> Result<usize, Broken>
    requires { kind ≡ word_at s.now q }
    ensures { result ≡ past_of (token_of s.now strings.now q kind) }
{
    let next = match kind {
        1 => past_begin(s, q, name_length(s, q + 4, 48)),
        2 => Some(q + 4),
        3 => {
            let name = word_at(s, q + 8) as usize;
            past_property(s, strings, q, name, name_length(strings, name, 32))
        }
        _ => None,
    };
    next.ok_or(Broken { at: q.min(s.len()) })
}

// Past the node whose tokens stand from `at` on, past its begin-node, with `depth` nodes open around it.
pub fn past_node(s: &[u8], strings: &[u8], depth: u32, at: usize) -> Result<usize, Broken>
    ensures { result ≡ past_node depth 1 (tokens s.now strings.now at) }
{
    let left = 8u32.saturating_sub(depth);
    let mut p = at;
    let mut below: u32 = 1;
    loop {
        let q = skip(s, p);
        let kind = word_at(s, q);
        let next = past_token(s, strings, q, kind)?;
        match kind {
            1 => {
                if left <= below {
                    return Err(Broken { at: q });
                }
                below += 1;
            }
            2 => {
                if below <= 1 {
                    return Ok(next);
                }
                below -= 1;
            }
            _ => {}
        }
        p = next;
    }
}
