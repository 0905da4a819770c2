// The check of a tree, and the comparison of two.
ghost use Rattle.std.specs.Prelude.{◌≡◌};
ghost use Rattle.words.specs.Pick.{pick};
ghost use Rattle.devtree.specs.Check.{passes};
ghost use Rattle.treecompare.specs.Compare.{compared};

#[unsafe(no_mangle)]
pub extern "C" fn drc_check_tree(structure: &[u8], strings: &[u8]) -> u32
    ensures { result ≡ pick (passes structure.now strings.now) 1 0 }
{
    fustorbel::trees::drc_check_tree(structure, strings)
}

#[unsafe(no_mangle)]
pub extern "C" fn drc_compare_trees(
    structure: &[u8],
    strings: &[u8],
    structure2: &[u8],
    strings2: &[u8],
) -> i32
    ensures { result ≡ compared structure.now strings.now structure2.now strings2.now }
{
    fustorbel::trees::drc_compare_trees(structure, strings, structure2, strings2)
}
