// The edits of the table's connectors, in the words that the caller lends.
#![tactic(auto)]

ghost use Rattle.std.specs.Prelude.{◌≡◌, ◌<◌};
ghost use Rattle.connector.specs.Fields.{step_words};
ghost use Rattle.table.specs.Layout.{all_columns, connector_limit, put_row, store_row};
ghost use Rattle.table.specs.Model.{add_row, row, step_row, write};

use connector::{COLUMNS, Connector};
use connector_words::{word_of_page, word_of_state, words_of};
use states::{State, Walk};
use table::{
    CONNECTORS, DEPTH, INDEX, KIND, PAGE, PARENT, PARTITION, PLACE, RESOURCE, STATE, WANTED, WORDS,
    used_rows,
};

// The ledger's edits stand in a crate of their own.
pub use ledger_edits::{fresh, push_line, set_line};

// A connector's words into row `i`.
fn set_row(t: &mut [u32; WORDS], i: usize, w: [u32; COLUMNS])
    requires { i < connector_limit }
    ensures { t.new ≡ put_row t.old i (all_columns w) }
{
    t[INDEX + i] = w[0];
    t[KIND + i] = w[1];
    t[PARTITION + i] = w[2];
    t[PARENT + i] = w[3];
    t[STATE + i] = w[4];
    t[RESOURCE + i] = w[5];
    t[PLACE + i] = w[6];
    t[DEPTH + i] = w[7];
    t[PAGE + i] = w[8];
    t[WANTED + i] = w[9];
}

fn put(t: &mut [u32; WORDS], i: usize, c: Connector)
    requires { i < connector_limit }
    ensures { t.new ≡ store_row t.old i c }
{
    set_row(t, i, words_of(c));
}

// Connector `i` becomes `c`.
pub fn store(t: &mut [u32; WORDS], i: usize, c: Connector)
    ensures { t.new ≡ write t.old (row i c) }
{
    if used_rows(t) <= i {
        return;
    }
    put(t, i, c);
}

fn set_step(t: &mut [u32; WORDS], i: usize, state: u32, place: u32, depth: u32, page: u32)
    requires { i < connector_limit }
    ensures { t.new ≡ put_row t.old i (step_words state place depth page) }
{
    t[STATE + i] = state;
    t[PLACE + i] = place;
    t[DEPTH + i] = depth;
    t[PAGE + i] = page;
}

// Connector `i` gets a state and a walk; its other words stay.
pub fn store_step(t: &mut [u32; WORDS], i: usize, state: State, walk: Walk)
    ensures { t.new ≡ write t.old (step_row i state walk) }
{
    if used_rows(t) <= i {
        return;
    }
    set_step(
        t,
        i,
        word_of_state(state),
        walk.place,
        walk.depth,
        word_of_page(walk.page),
    );
}

// One connector more, unless the limit is reached.
pub fn push_connector(t: &mut [u32; WORDS], c: Connector)
    ensures { t.new ≡ write t.old (add_row c) }
{
    let n = used_rows(t);
    if CONNECTORS <= n {
        return;
    }
    put(t, n, c);
    t[0] = (n + 1) as u32;
}
