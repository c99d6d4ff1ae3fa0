//! The form `pair`: the sessions of a script on two trees in one space, and what is printed of their run.
#![tactic(auto)]

mod answer;
mod pair_descents;
mod print;
mod shared_pair;
mod value_part;

pub use answer::answer_pair;
pub use pair_descents::PairDescents;
pub use shared_pair::SharedPair;
