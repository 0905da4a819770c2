// The edits of the table's ledger, in the words that the caller lends, and a fresh table.
#![tactic(auto)]

ghost use Rattle.std.specs.Prelude.{◌≡◌, ◌<◌, replicate};
ghost use Rattle.table.specs.Layout.{put_line, resource_limit, word_count};
ghost use Rattle.table.specs.Model.{add_line, move_line, write};

use kinds::Index;
use ledger::used_lines;
use table::{LINE_AT, LINE_KIND, RESOURCES, WORDS};

// The resource of line `j` stands at the connector with the index `at`, 0 for the pool.
pub fn set_line(t: &mut [u32; WORDS], j: usize, at: Index)
    ensures { t.new ≡ write t.old (move_line j at.0) }
{
    if used_lines(t) <= j {
        return;
    }
    t[LINE_AT + j] = at.0;
}

fn put_line(t: &mut [u32; WORDS], n: usize, kind: u32)
    requires { n < resource_limit }
    ensures { t.new ≡ put_line t.old n kind }
{
    t[LINE_KIND + n] = kind;
    t[LINE_AT + n] = 0;
}

// One resource of this kind more, in the pool, unless the limit is reached.
pub fn push_line(t: &mut [u32; WORDS], kind: u32)
    ensures { t.new ≡ write t.old (add_line kind) }
{
    let n = used_lines(t);
    if RESOURCES <= n {
        return;
    }
    put_line(t, n, kind);
    t[1] = (n + 1) as u32;
}

// No connector and no resource.
pub fn fresh(t: &mut [u32; WORDS])
    ensures { t.new ≡ replicate word_count 0 }
{
    *t = [0; WORDS];
}
