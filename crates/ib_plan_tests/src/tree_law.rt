//! The law of a tree at its own type, and through the bound that a layer above asks for.

ghost use Rattle.std.specs.Prelude.{◌≡◌, ℕ, true, List};
ghost use Rattle.ib_map.specs.Space.{has_pages};
ghost use Rattle.ib_logrec.specs.declared.entry.Entry.{Entry};
ghost use Rattle.ib_logrec.specs.Log.{memory_after, by_place};
ghost use Rattle.ib_walk.specs.Words.{IsLawfulMemory};

use ib_logrec::Law;
use ib_tree::{TreeLaw, Trees};
use std::test::Fail;

// What a layer above cites of any trees.
fn memory_law<T: Trees>()
    ensures { (pages : ℕ) (log : List Entry) → has_pages pages ≡ true → T.Law.lawful pages log
        → IsLawfulMemory pages T.Trees.ROOTS (memory_after (by_place T.Law.opening pages) log) }
{
    T::trees_law();
}

fn roots_of<T: Trees>() -> u32 {
    T::ROOTS
}

#[test]
fn has_one_tree(rt: HostRuntime) -> Result<(), Fail> {
    memory_law::<TreeLaw>();
    assert_eq!(rt; roots_of::<TreeLaw>(), 1);
    Ok(())
}

#[test]
fn opens_with_the_pages_of_a_new_space(rt: HostRuntime) -> Result<(), Fail> {
    assert_eq!(rt; TreeLaw::opening_word(16, 0, 0), 3);
    assert_eq!(rt; TreeLaw::opening_word(16, 1, 0), 1);
    assert_eq!(rt; TreeLaw::opening_word(16, 2, 0), 0);
    assert_eq!(rt; TreeLaw::opening_word(16, 1, 160), 0);
    Ok(())
}
