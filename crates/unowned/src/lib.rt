// When an index is that of an unowned connector of the table.
#![tactic(auto)]

ghost use Rattle.std.specs.Prelude.{◌≡◌};
ghost use Rattle.table.specs.Model.{table_of};
ghost use Rattle.unowned.specs.Unowned.{unowned};

use kinds::Index;
use states::in_use;
use table::WORDS;

// Whether nodes that belong to the connector with this index are left out of what partition `p` is sent; which partition it
// is does not matter.
#[tactic(auto, unfolding(crate::specs::Unowned::unowned, words::specs::Pick::pick))]
pub fn is_unowned(t: &[u32; WORDS], p: u32, index: Index) -> bool
    ensures { result ≡ unowned (table_of t.now) p index.0 }
{
    let i = table::find(t, index);
    i < table::count(t) && !in_use(table::connector_at(t, i).state)
}
