// The next token of a walk that is sent to the partition: nodes that belong to an unowned connector are left out.
#![tactic(auto)]

ghost use Rattle.std.specs.Prelude.{◌≡◌};
ghost use Rattle.table.specs.Model.{table_of};
ghost use Rattle.unowned.specs.Unowned.{unowned};
ghost use Rattle.sent.specs.Sent.{is_looked_at, next_sent};
ghost use Rattle.next_sent.specs.Turns.{begun, met};

use devtree::{Broken, Token, read_token};
use look_ahead::index_ahead;
use past_node::past_node;
use table::WORDS;
use unowned::is_unowned;

// Whether a begin-node token is looked at: one below the root, which a step would take.
fn is_looked_at(depth: u32) -> bool
    ensures { result ≡ is_looked_at depth }
{
    1 <= depth && depth < 8
}

// Past the node of a begin-node token, with the next token from `next` on, where it is left out; none where it is sent.
fn begun(
    s: &[u8],
    strings: &[u8],
    depth: u32,
    t: &[u32; WORDS],
    p: u32,
    next: usize,
) -> Result<Option<usize>, Broken>
    ensures { result ≡ begun (unowned (table_of t.now) p) s.now strings.now depth next }
{
    if !is_looked_at(depth) {
        return Ok(None);
    }
    let Some(k) = index_ahead(s, strings, next)? else {
        return Ok(None);
    };
    if !is_unowned(t, p, k) {
        return Ok(None);
    }
    Ok(Some(past_node(s, strings, depth, next)?))
}

// Past a token that is left out with its node; none where it is sent. Only a begin-node token may be left out.
fn met(
    s: &[u8],
    strings: &[u8],
    depth: u32,
    t: &[u32; WORDS],
    p: u32,
    token: Token,
) -> Result<Option<usize>, Broken>
    ensures { result ≡ met (unowned (table_of t.now) p) s.now strings.now depth token }
{
    match token {
        Token::Begin { next, .. } => begun(s, strings, depth, t, p, next),
        _ => Ok(None),
    }
}

// The next token that is sent, from `place` on, with `depth` nodes open that are sent. A fault met where a node is looked at or left out is sent in its place.
pub fn next_sent(
    s: &[u8],
    strings: &[u8],
    depth: u32,
    place: usize,
    t: &[u32; WORDS],
    p: u32,
) -> Token
    ensures { result ≡ next_sent (unowned (table_of t.now) p) s.now strings.now depth place }
{
    let mut at = place;
    loop {
        let token = read_token(s, strings, at);
        match met(s, strings, depth, t, p, token) {
            Ok(None) => return token,
            Ok(Some(next)) => {
                at = next;
            }
            Err(fault) => return Token::Fault { at: fault.at },
        }
    }
}
