// Which connectors a partition is told of, and how long the array properties with strings become.
#![tactic(auto)]

ghost use Rattle.std.specs.Prelude.{◌≡◌, [], ◌∷◌, ◌+◌, ◌*◌, ◌<◌, ◌≤◌, get_or};
ghost use Rattle.table.specs.Layout.{connector_at, count_of};
ghost use Rattle.table.specs.Model.{blank_connector, table_of};
ghost use Rattle.property_sizes.specs.Arrays.{Measured, is_listed, keep, listed};
ghost use Rattle.property_sizes.specs.Sums.{Added};

use kinds::known;
use property_entries::{ArrayProperty, entry_length};
use table::{INDEX, KIND, PARTITION, WORDS, used_rows};

#[derive(Clone, Copy, PartialEq, Eq)]
pub struct Sizes {
    pub count: usize,
    pub names: usize,
    pub types: usize,
}

// Whether connector `i` is the partition's, and of a known kind.
pub fn is_listed(t: &[u32; WORDS], i: usize, partition: u32) -> bool
    ensures { result ≡ is_listed partition (get_or (table_of t.now).connectors i blank_connector) }
{
    i < used_rows(t) && t[PARTITION + i] == partition && known(t[KIND + i])
}

// With one connector more, if it is listed.
fn with_row(s: Sizes, t: &[u32; WORDS], i: usize, partition: u32) -> Sizes
    requires { (i < count_of t.now) × (s.count ≤ i) × (s.names ≤ 4 + 16 * i) × (s.types ≤ 4 + 16 * i) }
    ensures { Added s result (keep (is_listed partition) (connector_at t.now i ∷ [])) }
{
    if !is_listed(t, i, partition) {
        return s;
    }
    let kind = t[KIND + i];
    let index = t[INDEX + i];
    let name = entry_length(ArrayProperty::Names, kind, index);
    let text = entry_length(ArrayProperty::Types, kind, index);
    Sizes {
        count: s.count + 1,
        names: s.names + name,
        types: s.types + text,
    }
}

// One pass over the table.
pub fn measure(t: &[u32; WORDS], partition: u32) -> Sizes
    ensures { Measured result (listed partition (table_of t.now)) }
{
    let mut s = Sizes {
        count: 0,
        names: 4,
        types: 4,
    };
    for i in 0..used_rows(t) {
        s = with_row(s, t, i, partition);
    }
    s
}
