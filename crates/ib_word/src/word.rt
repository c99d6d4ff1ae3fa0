//! The lock word, what a grant takes off it, and the cell of the shared table that holds it.
//!
//! Each clause `counted` speaks of the word of s readers, sx grants of SX and x grants of X, a
//! next writer counting as one X.

ghost use Rattle.std.specs.Prelude.{◌≡◌, ℕ, ◌+◌, ◌-◌, ◌<◌, ◌≤◌, ◌^◌, ◌==◌, if◌then◌else◌, nat_le, pos, ◌+ℤ◌, ◌-ℤ◌, ◌<ℤ◌, SomeIff};
ghost use Rattle.ib_word.specs.Weight.{x_weight};
ghost use Rattle.ib_word.specs.Word.{IsWithin, SameCounts, cell_of, word_in, word_of};

/// What a first and a second X each take off a lock word, and the word of a free latch (sync0rw).
pub const X_LOCK_DECR: u32 = 0x2000_0000;

/// What SX takes off a lock word (WL#6363).
pub const X_LOCK_HALF_DECR: u32 = 0x1000_0000;

/// What is added to a lock word to make it a cell of the shared table.
pub const WORD_BIAS: u64 = 1 << 31;

/// The most readers of a latch of which the laws of words speak. It is below HALF, so that many
/// readers never make a word look like another state.
pub const MOST_READERS: u32 = 1024;

/// The most grants of X on a latch of which the laws of words speak. No call keeps to it by
/// itself: who asks for the state of a word owes that its counts are within.
pub const MOST_X: u32 = 65_536;

// The laws cite these by name: with another number the check fails here.
const _: () = prove!(X_LOCK_DECR == 0x2000_0000);

const _: () = prove!(X_LOCK_HALF_DECR == 0x1000_0000);

const _: () = prove!(WORD_BIAS == 0x8000_0000);

const _: () = prove!(MOST_READERS == 1024);

const _: () = prove!(MOST_X == 65_536);

/// The lock word of a latch. A free latch has `X_LOCK_DECR`.
#[derive(Clone, Copy, PartialEq, Eq, Debug)]
pub struct LockWord(pub i32);

impl LockWord {
    /// The word of a latch that nobody holds.
    pub const FREE: LockWord = LockWord(X_LOCK_DECR as i32);
}

/// The law of lock words, as a contract: a word tells the counts that give it, but for how often
/// its owner has SX, and that of a free latch tells that there are none.
pub fn word_law()
    ensures unique { (s sx x s' sx' x' : ℕ) → IsWithin s sx x → IsWithin s' sx' x'
        → word_of s sx x ≡ word_of s' sx' x' → SameCounts s sx x s' sx' x' }
    ensures free { LockWord.FREE.0 ≡ word_of 0 0 0 }
{}

/// The word after one more reader. S is granted where nobody owns X and there is no next writer
/// (sync0rw, `rw_lock_s_lock_low`).
pub fn take_s(w: LockWord) -> Option<LockWord>
    ensures word { SomeIff result (pos 0 <ℤ w.0) (record { 0 = w.0 -ℤ pos 1 }) }
    ensures counted { (s sx x : ℕ) → IsWithin s sx x → w.0 ≡ word_of s sx x
        → SomeIff result (x ≡ 0) (record { 0 = word_of (s + 1) sx x }) }
{
    let word = w.0;
    if word > 0 {
        Some(LockWord(word - 1))
    } else {
        None
    }
}

/// The word after SX is granted to a session that has neither SX nor X: where nobody has either
/// (WL#6363, `rw_lock_sx_lock_low`).
pub fn take_sx(w: LockWord) -> Option<LockWord>
    ensures word { SomeIff result (pos X_LOCK_HALF_DECR <ℤ w.0)
        (record { 0 = w.0 -ℤ pos X_LOCK_HALF_DECR }) }
    ensures counted { (s sx x : ℕ) → IsWithin s sx x → w.0 ≡ word_of s sx x
        → SomeIff result ((sx ≡ 0) × (x ≡ 0)) (record { 0 = word_of s 1 x }) }
{
    let half = X_LOCK_HALF_DECR as i32;
    if w.0 > half {
        Some(LockWord(w.0 - half))
    } else {
        None
    }
}

/// The word after X is granted or reserved to a session that has neither SX nor X: where nobody
/// has either. Readers may remain, and then the session is the next writer
/// (sync0rw, `rw_lock_x_lock_low`).
pub fn take_x(w: LockWord) -> Option<LockWord>
    ensures word { SomeIff result (pos X_LOCK_HALF_DECR <ℤ w.0)
        (record { 0 = w.0 -ℤ pos X_LOCK_DECR }) }
    ensures counted { (s sx x : ℕ) → IsWithin s sx x → w.0 ≡ word_of s sx x
        → SomeIff result ((sx ≡ 0) × (x ≡ 0)) (record { 0 = word_of s sx 1 }) }
{
    if w.0 > X_LOCK_HALF_DECR as i32 {
        Some(LockWord(w.0 - X_LOCK_DECR as i32))
    } else {
        None
    }
}

/// The word after X is granted or reserved to the owner of SX that has no X: it always is, since
/// nobody else has X then (WL#6363).
pub fn upgrade_x(w: LockWord) -> Option<LockWord>
    ensures word { SomeIff result (pos 0 <ℤ w.0) (record { 0 = w.0 -ℤ pos X_LOCK_DECR }) }
    ensures counted { (s sx x : ℕ) → IsWithin s sx x → w.0 ≡ word_of s sx x
        → SomeIff result (x ≡ 0) (record { 0 = word_of s sx 1 }) }
{
    if w.0 > 0 {
        Some(LockWord(w.0 - X_LOCK_DECR as i32))
    } else {
        None
    }
}

/// What a further X of an owner that has `count` of them takes off the word: `X_LOCK_DECR` for
/// the second, 1 for each later one (sync0rw).
pub fn again_x(count: u32) -> u32
    requires { 1 ≤ count }
    ensures table { result ≡ (if count == 1 then X_LOCK_DECR else 1) }
    ensures weighs { x_weight (count + 1) ≡ x_weight count + result }
    ensures counted { (s sx : ℕ) → word_of s sx (count + 1) ≡ word_of s sx count -ℤ pos result }
{
    if count == 1 { X_LOCK_DECR } else { 1 }
}

/// What a release of X by an owner that has `count` of them adds to the word: what the last of
/// them took off (sync0rw, `rw_lock_x_unlock_func`).
pub fn give_x(count: u32) -> u32
    requires { 1 ≤ count }
    ensures table { result ≡ (if nat_le count 2 then X_LOCK_DECR else 1) }
    ensures weighs { x_weight count ≡ x_weight (count - 1) + result }
    ensures counted { (s sx : ℕ) → word_of s sx (count - 1) ≡ word_of s sx count +ℤ pos result }
{
    if count <= 2 { X_LOCK_DECR } else { 1 }
}

/// The cell of the shared table that holds the word: the word plus `WORD_BIAS`.
pub fn to_cell(w: LockWord) -> u64
    ensures cell { result ≡ cell_of w.0 }
    ensures sum { pos result ≡ w.0 +ℤ pos WORD_BIAS }
    ensures within { result < 2 ^ 32 }
    ensures inverse { word_in result ≡ w.0 }
{
    (i64::from(w.0) + WORD_BIAS as i64) as u64
}

/// The word that a cell of the shared table holds.
pub fn from_cell(cell: u64) -> LockWord
    requires { cell < 2 ^ 32 }
    ensures word { result.0 ≡ word_in cell }
    ensures inverse { cell_of result.0 ≡ cell }
{
    LockWord((cell as i64 - WORD_BIAS as i64) as i32)
}
