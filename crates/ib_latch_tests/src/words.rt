//! The words of the twelve states, and takings and givings as sessions make them.

use ib_word::{
    LockWord, WordState, again_x, classify, from_cell, give_x, is_drained, owes_ex, take_s,
    take_sx, take_x, to_cell, upgrade_x,
};

#[test]
fn states_of_words(rt: HostRuntime) {
    let with_reader = classify(LockWord(268_435_455));
    let next_with_sx = classify(LockWord(-268_435_457));
    let three = classify(LockWord(-536_870_913));
    let two_with_sx = classify(LockWord(-805_306_368));
    let three_with_sx = classify(LockWord(-805_306_369));
    assert_eq!(rt; with_reader, WordState::SxReaders { n: 1 });
    assert_eq!(rt; next_with_sx, WordState::NextSxReaders { n: 1 });
    assert_eq!(rt; three, WordState::Xn { n: 3 });
    assert_eq!(rt; two_with_sx, WordState::X2Sx);
    assert_eq!(rt; three_with_sx, WordState::XnSx { n: 3 });
}

#[test]
fn recursion(rt: HostRuntime) {
    assert_eq!(rt; take_x(LockWord::FREE), Some(LockWord(0)));
    assert_eq!(rt; [again_x(1), again_x(2)], [536_870_912, 1]);
    assert_eq!(rt;
        [give_x(3), give_x(2), give_x(1)],
        [1, 536_870_912, 536_870_912]
    );
}

#[test]
fn upgrade_past_a_reader(rt: HostRuntime) {
    assert_eq!(rt; take_sx(LockWord::FREE), Some(LockWord(268_435_456)));
    assert_eq!(rt; take_s(LockWord(268_435_456)), Some(LockWord(268_435_455)));
    assert_eq!(rt;
        upgrade_x(LockWord(268_435_455)),
        Some(LockWord(-268_435_457))
    );
    assert!(rt; !is_drained(LockWord(-268_435_457)));
    assert!(rt; is_drained(LockWord(-268_435_456)));
    assert!(rt; !owes_ex(LockWord(-268_435_457)));
    assert!(rt; owes_ex(LockWord(-268_435_456)));
    assert!(rt; owes_ex(LockWord(0)));
}

#[test]
fn no_reader_passes_a_next_writer(rt: HostRuntime) {
    assert_eq!(rt; take_s(LockWord::FREE), Some(LockWord(536_870_911)));
    assert_eq!(rt; take_x(LockWord(536_870_911)), Some(LockWord(-1)));
    assert_eq!(rt; take_s(LockWord(-1)), None);
    assert_eq!(rt; to_cell(LockWord(-1)), 2_147_483_647);
    assert_eq!(rt; from_cell(2_684_354_560), LockWord::FREE);
}
