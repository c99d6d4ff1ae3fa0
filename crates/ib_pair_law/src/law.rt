//! The law of a running space of two trees: which lists of entries keep it.

use ib_logrec::Law;
use ib_map::PAGE_WORDS;
use ib_tree::Trees;

/// The law of two trees, the second of which finds the pairs of the first by their values. Each entry makes the
/// change that is planned for the first tree, then the one that is planned for the second, and writes exactly the
/// words that differ.
pub struct PairLaw;

impl Law for PairLaw {
    ghost use Rattle.ib_pair_law.specs.Opening.{pair_opening};
    ghost use Rattle.ib_pair_law.specs.PairKept.{IsPairLog};
    ghost use Rattle.ib_pair_law.specs.PairLog.{HasPairRange, IsPairLog-none, IsPairLog-front, IsPairLog-grammar, IsPairLog-stays};

    ghost lawful = { IsPairLog };

    ghost opening = { pair_opening };

    ghost range = { HasPairRange };

    fn opening_word(_pages: u32, page: u32, index: u32) -> u64 {
        let index = index as usize;
        if index < PAGE_WORDS {
            ib_page::opening_word(2, page, index)
        } else {
            0
        }
    }

    ghost empty = { λ pages fits. IsPairLog-none pages };

    ghost begins = { λ pages xs ys fits lawful. IsPairLog-front pages xs ys lawful };

    ghost grammar = { λ pages log fits lawful. IsPairLog-grammar pages log lawful };

    ghost stays = { λ pages xs e page r fits lawful untouched. IsPairLog-stays pages xs e page r lawful untouched };
}

impl Trees for PairLaw {
    ghost ROOTS = { 2 };

    const ROOTS: u32 = 2;

    fn trees_law() {}
}
