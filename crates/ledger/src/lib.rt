// The ledger of resources in the table's words: what is read of its lines.
#![tactic(auto)]

ghost use Rattle.std.specs.Prelude.{◌≡◌, get_or, length};
ghost use Rattle.table.specs.Layout.{line_count_of};
ghost use Rattle.table.specs.Model.{blank_line, table_of};

use kinds::Index;
use table::{LINE_AT, LINE_KIND, RESOURCES, WORDS, at_most};

// How many resources there are: a count over the limit reads as the limit.
pub fn line_count(t: &[u32; WORDS]) -> usize
    ensures { result ≡ length (table_of t.now).ledger }
{
    used_lines(t)
}

// The ledger's lines that are in use, by the second word.
pub fn used_lines(t: &[u32; WORDS]) -> usize
    ensures { result ≡ line_count_of t.now }
{
    at_most(t[1], RESOURCES)
}

// The kind of the resource of line `j`, 0 past the last.
pub fn line_kind(t: &[u32; WORDS], j: usize) -> u32
    ensures { result ≡ (get_or (table_of t.now).ledger j blank_line).kind }
{
    if used_lines(t) <= j {
        return 0;
    }
    t[LINE_KIND + j]
}

// The index of the connector where the resource of line `j` stands; 0 in the pool, and past the last.
pub fn line_at(t: &[u32; WORDS], j: usize) -> Index
    ensures { result.0 ≡ (get_or (table_of t.now).ledger j blank_line).at }
{
    if used_lines(t) <= j {
        return Index(0);
    }
    Index(t[LINE_AT + j])
}
