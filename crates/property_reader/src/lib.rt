// Four array properties read: for each connector its index, the kind of its type and its domain.
#![tactic(auto)]

ghost use Rattle.std.specs.Prelude.{◌≡◌, ◌++◌, ◌+◌, ◌-◌, ◌*◌, ◌≤◌, false, length};
ghost use Rattle.std.proofs.lemmas.List.Edits.{sets};
ghost use Rattle.buffer.specs.Put.{bytes32, put};
ghost use Rattle.property_texts.specs.Texts.{past_texts, unknown_in};
ghost use Rattle.property_reader.specs.Reader.{answer_to, arrays, arrays_of, counts_differ, cut_short, few, left_over, list_left, list_of, past_numbers, read_properties, unended};

use buffer::put_word;
use property_texts::{past_texts, scan_types, type_at};
use words::word_at;

#[derive(Clone, Copy, Debug, PartialEq, Eq)]
pub enum ListRefusal {
    CutShort,
    CountsDiffer,
    Unended,
    UnknownType,
    LeftOver,
    NoRoom,
}

// The four arrays that are read.
#[derive(Clone, Copy)]
struct Lent<'a> {
    names: &'a [u8],
    indexes: &'a [u8],
    domains: &'a [u8],
    types: &'a [u8],
}

// Where the strings of names and types end.
#[derive(Clone, Copy, PartialEq, Eq)]
struct Ends {
    names: usize,
    types: usize,
}

// Where `n` numbers behind a count end.
fn past_numbers(n: u32) -> usize
    ensures { result ≡ past_numbers n }
{
    4 + 4 * n as usize
}

fn has_few(s: &[u8]) -> bool
    ensures { result ≡ few s.now }
{
    s.len() < past_numbers(word_at(s, 0))
}

// Three words at `at`, for which there is room.
fn put_triple(out: &mut [u8], at: usize, index: u32, kind: u32, domain: u32)
    requires { 12 ≤ length out.old - at }
    ensures { out.new ≡ put out.old at (bytes32 index ++ bytes32 kind ++ bytes32 domain) }
{
    put_word(out, at, index);
    put_word(out, at + 4, kind);
    put_word(out, at + 8, domain);
}

impl Lent<'_> {
    #[tactic(auto, unfolding(crate::specs::Reader::cut_short, crate::specs::Reader::either, words::specs::Pick::pick))]
    fn are_cut_short(&self) -> bool
        ensures { result ≡ cut_short (arrays_of self.now) }
    {
        self.names.len() < 4
            || self.indexes.len() < 4
            || self.domains.len() < 4
            || self.types.len() < 4
            || has_few(self.indexes)
            || has_few(self.domains)
    }

    // Whether a count is not the names'.
    #[tactic(auto, unfolding(crate::specs::Reader::counts_differ, crate::specs::Reader::either, words::specs::Pick::pick))]
    fn differ(&self, n: u32) -> bool
        ensures { result ≡ counts_differ n self.now.indexes.now self.now.domains.now self.now.types.now }
    {
        word_at(self.indexes, 0) != n
            || word_at(self.domains, 0) != n
            || word_at(self.types, 0) != n
    }

    // Whether a string has no NUL: the strings end past the array.
    #[tactic(auto, unfolding(crate::specs::Reader::unended, crate::specs::Reader::either, words::specs::Pick::pick))]
    fn are_unended(&self, n: u32, ends: Ends) -> bool
        requires { (ends.names ≡ past_texts n self.now.names.now 4) × (ends.types ≡ past_texts n self.now.types.now 4) }
        ensures { result ≡ unended n self.now.names.now self.now.types.now }
    {
        self.names.len() < ends.names || self.types.len() < ends.types
    }

    // Whether bytes are left over: the entries end before the array.
    #[tactic(auto, unfolding(crate::specs::Reader::left_over, crate::specs::Reader::either, words::specs::Pick::pick))]
    fn are_left_over(&self, n: u32, ends: Ends) -> bool
        requires { (ends.names ≡ past_texts n self.now.names.now 4) × (ends.types ≡ past_texts n self.now.types.now 4) }
        ensures { result ≡ left_over n (arrays_of self.now) }
    {
        ends.names < self.names.len()
            || past_numbers(n) < self.indexes.len()
            || past_numbers(n) < self.domains.len()
            || ends.types < self.types.len()
    }

    // How long the list of `n` entries is, in so much room: each refusal is looked for in all arrays before the next.
    #[tactic(auto, unfolding(crate::specs::Reader::answer_to, crate::specs::Reader::first_refusal, words::specs::Pick::pick))]
    fn answer_to(&self, n: u32, room: usize) -> Result<usize, ListRefusal>
        ensures { result ≡ answer_to n (arrays_of self.now) room }
    {
        if self.are_cut_short() {
            return Err(ListRefusal::CutShort);
        }
        if self.differ(n) {
            return Err(ListRefusal::CountsDiffer);
        }
        let scan = scan_types(self.types, n);
        let ends = Ends {
            names: past_texts(self.names, n),
            types: scan.end,
        };
        if self.are_unended(n, ends) {
            return Err(ListRefusal::Unended);
        }
        if scan.unknown {
            return Err(ListRefusal::UnknownType);
        }
        if self.are_left_over(n, ends) {
            return Err(ListRefusal::LeftOver);
        }
        let written = 12 * n as usize;
        if room < written {
            return Err(ListRefusal::NoRoom);
        }
        Ok(written)
    }

    // The list, for which there is room, of arrays whose strings are ended and whose types are known.
    fn write_list(&self, n: u32, out: &mut [u8])
        requires ended { past_texts n self.now.types.now 4 ≤ length self.now.types.now }
        requires are_known { unknown_in n self.now.types.now 4 ≡ false }
        requires has_room { 12 * n ≤ length out.old }
        ensures { out.new ≡ sets out.old 0 (list_of n (arrays_of self.now)) }
    {
        let mut text = 4;
        for i in 0..n as usize {
            let number = 4 + 4 * i;
            let t = type_at(self.types, text);
            put_triple(
                out,
                12 * i,
                word_at(self.indexes, number),
                t.kind.unwrap(),
                word_at(self.domains, number),
            );
            text = text + t.long + 1;
        }
    }
}

// The list of the arrays' connectors, 12 bytes each, and the answer how many bytes it has; or nothing.
pub fn read_properties(
    names: &[u8],
    indexes: &[u8],
    domains: &[u8],
    types: &[u8],
    out: &mut [u8],
) -> Result<usize, ListRefusal>
    ensures { list_left result out.new ≡ read_properties (arrays names.now indexes.now domains.now types.now) out.old }
{
    let n = word_at(names, 0);
    let lent = Lent {
        names,
        indexes,
        domains,
        types,
    };
    let written = lent.answer_to(n, out.len())?;
    lent.write_list(n, out);
    Ok(written)
}
