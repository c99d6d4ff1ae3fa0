//! The law of kept logs at its own type, and its pages of a new space.

use ib_logrec::Law;
use ib_planned_log::{KeptLaw, kept_law};
use ib_tree::Trees;
use std::test::Fail;

fn roots_of<T: Trees>() -> u32 {
    T::trees_law();
    T::ROOTS
}

#[test]
fn has_one_tree(rt: HostRuntime) -> Result<(), Fail> {
    kept_law();
    assert_eq!(rt; roots_of::<KeptLaw>(), 1);
    Ok(())
}

#[test]
fn opens_with_the_pages_of_a_new_space(rt: HostRuntime) -> Result<(), Fail> {
    assert_eq!(rt; KeptLaw::opening_word(16, 0, 0), 3);
    assert_eq!(rt; KeptLaw::opening_word(16, 1, 0), 1);
    assert_eq!(rt; KeptLaw::opening_word(16, 2, 0), 0);
    Ok(())
}
