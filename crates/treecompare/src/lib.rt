// Whether two device trees are the same: both are read in step, token by token.
#![tactic(auto)]

ghost use Rattle.std.specs.Prelude.{◌≡◌, ◌≤◌};
ghost use Rattle.treecompare.specs.Compare.{comparison, number, compared};
ghost use Rattle.treecompare.specs.Lockstep.{in_step_from, resume, Forward, same_roots};

use token_pairs::{Pair, Places, pair_at};
use treecheck::check_tree;

// One of the two trees fails the check.
#[derive(Clone, Copy, PartialEq, Eq)]
struct Refused;

// The places past two nodes side by side, where they are the same, from past their begin-node tokens on, at the places `at`; `left` levels may be nested in them.
fn same_node(
    a: &[u8],
    astrings: &[u8],
    b: &[u8],
    bstrings: &[u8],
    at: Places,
    left: u32,
) -> Option<Places>
    requires { left ≤ 7 }
    ensures at_value { in_step_from a.now astrings.now b.now bstrings.now left at ≡ resume a.now astrings.now b.now bstrings.now left result }
    ensures forward { Forward a.now at result }
{
    let mut p = at;
    loop {
        match pair_at(a, astrings, b, bstrings, p) {
            Pair::Open(next) => {
                if left == 0 {
                    return None;
                }
                p = same_node(a, astrings, b, bstrings, next, left - 1)?;
            }
            Pair::Equal(next) => {
                p = next;
            }
            Pair::Close(next) => return Some(next),
            Pair::Unlike => return None,
        }
    }
}

// Whether the blocks begin with two roots that are the same.
fn same_roots(a: &[u8], astrings: &[u8], b: &[u8], bstrings: &[u8]) -> bool
    ensures { result ≡ same_roots a.now astrings.now b.now bstrings.now }
{
    match pair_at(a, astrings, b, bstrings, Places { a: 0, b: 0 }) {
        Pair::Open(next) => same_node(a, astrings, b, bstrings, next, 7).is_some(),
        _ => false,
    }
}

// Document 01's number for an answer.
fn number_of(c: Result<bool, Refused>) -> i32
    ensures { result ≡ number c }
{
    match c {
        Ok(true) => 1,
        Ok(false) => 0,
        Err(Refused) => -33,
    }
}

// Both trees are checked, and then read in step from their roots on.
fn compare(a: &[u8], astrings: &[u8], b: &[u8], bstrings: &[u8]) -> Result<bool, Refused>
    ensures { result ≡ comparison a.now astrings.now b.now bstrings.now }
{
    if check_tree(a, astrings) == 0 || check_tree(b, bstrings) == 0 {
        return Err(Refused);
    }
    Ok(same_roots(a, astrings, b, bstrings))
}

// 1 where the tree of the blocks `a` and `astrings` and that of `b` and `bstrings` are the same, 0 where they differ, -33 where either fails the check.
pub fn compare_trees(a: &[u8], astrings: &[u8], b: &[u8], bstrings: &[u8]) -> i32
    ensures { result ≡ compared a.now astrings.now b.now bstrings.now }
{
    number_of(compare(a, astrings, b, bstrings))
}
