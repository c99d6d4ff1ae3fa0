//! The atomic steps under the rule. Each call says by ghosts what its step is, which picks what the
//! step tells.

ghost use Rattle.std.specs.Prelude.{◌≡◌, ◌<◌, ℕ};
ghost use Rattle.atomic_table.specs.Table.{Allows};
ghost use Rattle.ib_logrec.specs.Words.{entry_in};
ghost use Rattle.ib_rule.specs.declared.kind.WordOp.TheVariants.{Swap};
ghost use Rattle.ib_rule.specs.Rule.{RuleHolds};
ghost use Rattle.ib_rule.specs.Steps.{run};
ghost use Rattle.ib_rule.specs.Told.{tells};

use crate::kind::{StepKind, WordOp};
use crate::rule::Ruled;
use crate::view::View;
use atomic_table::{Play, Seat, Shared};
use ib_layout::Geometry;
use ib_logrec::Law;
use std::marker::{Brand, PhantomData};

/// What contracts say of a step: its kind, what it does to its word, the sizes of its space, and the entry
/// of which it stores a word.
pub trait Naming {
    ghost use Rattle.ib_layout.specs.Geometry.{Sizes};
    ghost use Rattle.ib_logrec.specs.declared.entry.Entry.{Entry};
    ghost use Rattle.ib_rule.specs.declared.kind.StepKind.{StepKind};
    ghost use Rattle.ib_rule.specs.declared.kind.WordOp.{WordOp};

    ghost kind: { StepKind };

    ghost op: { WordOp };

    ghost key: { Sizes };

    ghost entry: { Entry };
}

impl Naming for Brand {
    ghost use Rattle.ib_rule.specs.declared.kind.StepKind.TheVariants.{Look};
    ghost use Rattle.ib_rule.specs.declared.kind.WordOp.TheVariants.{Load};
    ghost use Rattle.ib_rule.specs.Stores.{no_entry};

    ghost kind = { Look 0 };

    ghost op = { Load };

    ghost key = { record { pages = 0; log_words = 0 } };

    ghost entry = { no_entry };
}

/// What a step tells its caller. It holds no value: it is a type by which the proof says that.
pub struct Tells<T, L> {
    kind: PhantomData<(T, L)>,
}

impl<T: Naming, L: Law> Play<(), View> for Tells<T, L> {
    ghost use Rattle.ib_rule.specs.Steps.{run};
    ghost use Rattle.ib_rule.specs.Told.{tells};

    ghost then = { λ _ m n w. tells L.lawful L.opening T.key T.entry T.kind (run T.op) m n w };
}

/// The table as threads share it.
pub(crate) type Board<L> = Shared<(), View, Geometry, Ruled<L>>;

// A step of this kind, which does this to its word. It answers the word found.
#[inline(always)]
pub(crate) fn act<L: Law, T: Naming>(
    shared: &Board<L>,
    seat: &mut Seat<(), View>,
    word: usize,
    op: WordOp,
    kind: StepKind,
) -> u64
    requires kind { kind ≡ T.kind }
    requires op { op ≡ T.op }
    requires key { shared.now.key ≡ T.key }
    requires own { seat.old.table_id ≡ shared.now.table_id }
    requires range { word < shared.now.table_id.words }
    requires allowed { Allows (RuleHolds L.lawful L.opening shared.now.key)
        shared.now.table_id.slots seat.old.id seat.old.me word (run op)
        (tells L.lawful L.opening shared.now.key T.entry kind (run op) seat.old.me) }
    ensures own { (seat.new.table_id ≡ seat.old.table_id) × (seat.new.id ≡ seat.old.id) }
    ensures told { tells L.lawful L.opening shared.now.key T.entry kind (run op) seat.old.me
        result seat.new.me }
{
    // For the proof: the contract alone speaks of it.
    let _ = kind;
    match op {
        WordOp::Load => shared.load::<Tells<T, L>>(seat, word),
        WordOp::Swap(new) => shared.swap::<Tells<T, L>>(seat, word, new),
        WordOp::Add(k) => shared.fetch_add::<Tells<T, L>>(seat, word, k),
        WordOp::Sub(k) => shared.fetch_sub::<Tells<T, L>>(seat, word, k),
        WordOp::Exchange(old, new) => {
            shared.compare_exchange::<Tells<T, L>>(seat, word, old, new)
        }
    }
}

// A store of a word of the entry at the front of `words`.
pub(crate) fn store<L: Law, T: Naming>(
    shared: &Board<L>,
    seat: &mut Seat<(), View>,
    words: &[u64],
    word: usize,
    value: u64,
    kind: StepKind,
)
    requires kind { kind ≡ T.kind }
    requires op { Swap value ≡ T.op }
    requires key { shared.now.key ≡ T.key }
    requires entry { entry_in words.now ≡ T.entry }
    requires own { seat.old.table_id ≡ shared.now.table_id }
    requires range { word < shared.now.table_id.words }
    requires allowed { Allows (RuleHolds L.lawful L.opening shared.now.key)
        shared.now.table_id.slots seat.old.id seat.old.me word (λ _. value)
        (tells L.lawful L.opening shared.now.key (entry_in words.now) kind (λ _. value)
        seat.old.me) }
    ensures own { (seat.new.table_id ≡ seat.old.table_id) × (seat.new.id ≡ seat.old.id) }
    ensures told { (n : ℕ) × tells L.lawful L.opening shared.now.key (entry_in words.now) kind
        (λ _. value) seat.old.me n seat.new.me }
{
    // For the proof: the contract alone speaks of it.
    let _ = words;
    act::<L, T>(shared, seat, word, WordOp::Swap(value), kind);
}
