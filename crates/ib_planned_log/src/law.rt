//! The law of a running space: which lists of entries keep it.

use ib_logrec::Law;
use ib_tree::{Clocks, TreeLaw, Trees};

/// The law of one tree that is changed by plan alone: the lawful lists of `TreeLaw` whose entries each make
/// just the change that is planned for it behind those before it, and write exactly the words that differ.
pub struct KeptLaw;

impl Law for KeptLaw {
    ghost use Rattle.ib_tree.specs.TreeLog.{opening, HasTreeRange};
    ghost use Rattle.ib_planned_log.specs.Kept.{IsKeptLog};
    ghost use Rattle.ib_planned_log.specs.KeptLog.{IsKeptLog-none, IsKeptLog-front, IsKeptLog-grammar, IsKeptLog-stays};

    ghost lawful = { IsKeptLog };

    ghost opening = { opening };

    ghost range = { HasTreeRange };

    fn opening_word(pages: u32, page: u32, index: u32) -> u64 {
        TreeLaw::opening_word(pages, page, index)
    }

    ghost empty = { λ pages fits. IsKeptLog-none pages };

    ghost begins = { λ pages xs ys fits lawful. IsKeptLog-front pages xs ys lawful };

    ghost grammar = { λ pages log fits lawful. IsKeptLog-grammar pages log lawful };

    ghost stays = { λ pages xs e page r fits lawful untouched. IsKeptLog-stays pages xs e page r lawful untouched };
}

impl Trees for KeptLaw {
    ghost ROOTS = { 1 };

    const ROOTS: u32 = 1;

    fn trees_law() {}
}

impl Clocks for KeptLaw {
    fn clocks_law() {}
}
