//! The index claimed, and the path of a key read and taken for an insert, without waiting.

ghost use Rattle.std.specs.Prelude.{◌≡◌, ℕ, ◌<◌, ◌≤◌, ◌+◌, ◌*◌, ◌∷◌, ◌++◌, [], true, false, List, IfErr, IfOk, OnOk};
ghost use Rattle.ib_levels.specs.declared.level.Mode.TheVariants.{S as ModeS, Sx as ModeSx};
ghost use Rattle.ib_heap.specs.declared.TheConstants.{MOST_LEVEL};
ghost use Rattle.ib_rule.specs.Conditions.{HasGrantLeft, HasGrantsLeft};
ghost use Rattle.ib_rule.specs.Under.{under, under_lawful};
ghost use Rattle.ib_rule.specs.Views.{is_watched};
ghost use Rattle.ib_mtr.specs.Mtr.{IsMtr, IsStillMtr};
ghost use Rattle.ib_cursor.specs.Claims.{HasClaimed, IsPathWithLeaves, beside, claim_grant};
ghost use Rattle.ib_cursor.specs.Descent.{MayDescend};
ghost use Rattle.ib_cursor.specs.Going.{HasLatched};
ghost use Rattle.ib_cursor.specs.OnPath.{IsOnPath, IsRoot, IsSought};
ghost use Rattle.ib_cursor.specs.Refusals.{AreFewLooks, IsInsertRefusal, IsInsertRefused, IsPageRefused, IsPathRefusal, IsRefusedBehind, IsVainOnPath, IsVainTry};
ghost use Rattle.ib_cursor.specs.Shapes.{HasIndex, HasReadLink, HasReadPath, is_claimed};
ghost use Rattle.ib_cursor.specs.Spaces.{pages_under};
ghost use Rattle.ib_cursor.specs.Takings.{CanTakePage, HasTakenMore, HasTakenPage, MayTakeFirst, MayTakeLeaves, TakesFirst, WillTake};

use crate::claim::{FoundPath, Named, facts_of_trees, link_here, right_of};
use crate::fault::NowaitFault;
use crate::held_page::level_of;
use crate::latch_page::{look, read};
use crate::search::Sought;
use crate::try_latch::{try_page, try_take};
use ib_latch::Sleep;
use ib_levels::{Latch, Level, Mode};
use ib_logrec::Law;
use ib_map::Key;
use ib_mtr::Mtr;
use ib_page::Path;
use ib_tree::Trees;

// Claims the index by a try, and looks. Nothing is held before, and of what was known of the index before nothing is
// left.
pub(crate) fn try_claim<L: Law, S: Sleep>(mtr: &mut Mtr<'_, L, S>) -> Result<(), NowaitFault>
    requires mtr { IsMtr mtr.old.latches.now mtr.old.pass.now }
    requires memo { mtr.old.pass.now.memo ≡ [] }
    requires room { HasGrantLeft mtr.old.pass.now.view }
    requires unwatched { is_watched 1 mtr.old.pass.now.view.memory.since ≡ false }
    ensures still { IsStillMtr mtr.old mtr.new }
    ensures latched { OnOk result (under_lawful L.Law mtr.old.latches.now HasLatched claim_grant
        mtr.old.pass.now mtr.new.pass.now) }
    ensures claimed { OnOk result (is_claimed mtr.new.pass.now.view.memory.since ≡ true) }
    ensures few { OnOk result (AreFewLooks 0 mtr.old.pass.now.view mtr.new.pass.now.view) }
    ensures vain { IfErr result (λ fault. under_lawful L.Law mtr.old.latches.now IsVainTry ModeSx 1
        fault mtr.old.pass.now mtr.new.pass.now) }
{
    match try_take(mtr, Latch::INDEX, Mode::Sx, Level::IndexTree) {
        Ok(()) => {
            look(mtr);
            Ok(())
        }
        Err(fault) => Err(fault),
    }
}

// Looks at a page of the key's path, had in S by a try behind the claimed index, and gives it up again.
fn try_link<L: Trees, S: Sleep>(
    mtr: &mut Mtr<'_, L, S>,
    sought: Sought,
    page: u32,
) -> Result<Named, NowaitFault>
    requires mtr { IsMtr mtr.old.latches.now mtr.old.pass.now }
    requires index { under_lawful L.Law mtr.old.latches.now HasIndex mtr.old.pass.now }
    requires on_path { (level : ℕ) × IsOnPath (pages_under L.Law mtr.old.latches.now mtr.old.pass.now)
        sought.root sought.key page level }
    requires room { HasGrantLeft mtr.old.pass.now.view }
    requires sought { IsSought L.ROOTS sought.root sought.key }
    ensures still { IsStillMtr mtr.old mtr.new }
    ensures link_read { IfOk result (λ named. under L.Law mtr.old.latches.now HasReadLink
        sought.root sought.key page named.level named.link mtr.old.pass.now mtr.new.pass.now) }
    ensures low { IfOk result (λ named. named.level ≤ MOST_LEVEL) }
    ensures few { OnOk result (AreFewLooks 0 mtr.old.pass.now.view mtr.new.pass.now.view) }
    ensures vain { IfErr result (λ fault. (level : ℕ) × under L.Law mtr.old.latches.now
        IsVainOnPath sought.root sought.key ModeS page level fault mtr.old.pass.now
        mtr.new.pass.now) }
{
    facts_of_trees(mtr);
    match try_page(mtr, page, Mode::S) {
        Ok(()) => {}
        Err(fault) => return Err(fault),
    }
    let level = level_of(mtr, page);
    let link = link_here(mtr, sought, page, level);
    mtr.release_at(1);
    Ok(Named { level, link })
}

// Reads the path of a key page by page behind the claimed index by tries, with no page held while the next is tried: the
// claim keeps the path.
pub(crate) fn try_path<L: Trees, S: Sleep>(
    mtr: &mut Mtr<'_, L, S>,
    sought: Sought,
) -> Result<FoundPath, NowaitFault>
    requires mtr { IsMtr mtr.old.latches.now mtr.old.pass.now }
    requires index { under_lawful L.Law mtr.old.latches.now HasIndex mtr.old.pass.now }
    requires room { HasGrantsLeft 32 mtr.old.pass.now.view }
    requires sought { IsSought L.ROOTS sought.root sought.key }
    ensures still { IsStillMtr mtr.old mtr.new }
    ensures on_path { IfOk result (λ found. under L.Law mtr.old.latches.now HasReadPath
        sought.root sought.key found.path found.leaf found.left mtr.old.pass.now
        mtr.new.pass.now) }
    ensures few { OnOk result (AreFewLooks 0 mtr.old.pass.now.view mtr.new.pass.now.view) }
    ensures refusal { IfErr result (λ fault. under L.Law mtr.old.latches.now IsPathRefusal
        sought.root sought.key fault mtr.old.pass.now mtr.new.pass.now) }
{
    facts_of_trees(mtr);
    let mut path = Path::new();
    let mut page = sought.root;
    let first = match try_link(mtr, sought, page) {
        Ok(named) => named,
        Err(fault) => return Err(fault),
    };
    let mut level = first.level;
    let mut link = first.link;
    while level > 0 {
        match try_link(mtr, sought, link) {
            Ok(below) => {
                path.push(page);
                page = link;
                level = below.level;
                link = below.link;
            }
            Err(fault) => return Err(fault),
        }
    }
    path.push(page);
    Ok(FoundPath {
        path,
        leaf: page,
        left: link,
    })
}

// Tries a page in X behind the claimed index and the pages that are held already, and loads it.
pub(crate) fn try_take_page<L: Law, S: Sleep>(
    mtr: &mut Mtr<'_, L, S>,
    page: u32,
) -> Result<(), NowaitFault>
    requires mtr { IsMtr mtr.old.latches.now mtr.old.pass.now }
    requires page { page < mtr.old.latches.now.sizes.pages }
    requires room { HasGrantLeft mtr.old.pass.now.view }
    requires holds { (held : List ℕ) × under L.Law mtr.old.latches.now CanTakePage held page
        mtr.old.pass.now }
    ensures still { IsStillMtr mtr.old mtr.new }
    ensures taken { OnOk result ((held : List ℕ) → under L.Law mtr.old.latches.now CanTakePage held
        page mtr.old.pass.now → under L.Law mtr.old.latches.now HasTakenPage held page
        mtr.old.pass.now mtr.new.pass.now) }
    ensures few { OnOk result (AreFewLooks 0 mtr.old.pass.now.view mtr.new.pass.now.view) }
    ensures refused { IfErr result (λ fault. (held : List ℕ) → under L.Law mtr.old.latches.now
        CanTakePage held page mtr.old.pass.now → under L.Law mtr.old.latches.now IsRefusedBehind held
        (page ∷ []) fault mtr.old.pass.now mtr.new.pass.now) }
{
    // For the proof: a space has a number of pages of which the laws speak.
    let _ = mtr.geometry().pages();
    match try_take(mtr, Latch::page(page), Mode::X, Level::TreeNode) {
        Ok(()) => {
            read(mtr, page);
            Ok(())
        }
        Err(fault) => Err(fault),
    }
}

// Tries the page of a link, where there is one.
pub(crate) fn try_take_beside<L: Law, S: Sleep>(
    mtr: &mut Mtr<'_, L, S>,
    page: u32,
) -> Result<(), NowaitFault>
    requires mtr { IsMtr mtr.old.latches.now mtr.old.pass.now }
    requires room { HasGrantLeft mtr.old.pass.now.view }
    requires ready { under L.Law mtr.old.latches.now MayTakeFirst (beside page) mtr.old.pass.now }
    ensures still { IsStillMtr mtr.old mtr.new }
    ensures taken { OnOk result (under L.Law mtr.old.latches.now TakesFirst (beside page)
        mtr.old.pass.now mtr.new.pass.now) }
    ensures few { OnOk result (AreFewLooks 0 mtr.old.pass.now.view mtr.new.pass.now.view) }
    ensures refused { IfErr result (λ fault. (held more : List ℕ) → under L.Law mtr.old.latches.now
        WillTake held (beside page ++ more) mtr.old.pass.now → under L.Law mtr.old.latches.now
        IsRefusedBehind held (beside page) fault mtr.old.pass.now mtr.new.pass.now) }
{
    if page == 0 {
        return Ok(());
    }
    match try_take_page(mtr, page) {
        Ok(()) => Ok(()),
        Err(fault) => Err(fault),
    }
}

// Tries the nodes of the path, from the root down, behind the pages that are held already.
fn try_take_nodes<L: Law, S: Sleep>(mtr: &mut Mtr<'_, L, S>, path: &Path) -> Result<(), NowaitFault>
    requires mtr { IsMtr mtr.old.latches.now mtr.old.pass.now }
    requires room { HasGrantsLeft 32 mtr.old.pass.now.view }
    requires ready { (held : List ℕ) × (front : List ℕ) × (more : List ℕ) × (leaf : ℕ)
        × (path.now ≡ front ++ leaf ∷ []) × under L.Law mtr.old.latches.now WillTake held
        (front ++ more) mtr.old.pass.now }
    ensures still { IsStillMtr mtr.old mtr.new }
    ensures taken { OnOk result ((held front more : List ℕ) (leaf : ℕ) → path.now
        ≡ front ++ leaf ∷ [] → under L.Law mtr.old.latches.now WillTake held (front ++ more)
        mtr.old.pass.now → under L.Law mtr.old.latches.now HasTakenMore held front
        mtr.old.pass.now mtr.new.pass.now) }
    ensures few { OnOk result (AreFewLooks 0 mtr.old.pass.now.view mtr.new.pass.now.view) }
    ensures refused { IfErr result (λ fault. under_lawful L.Law mtr.old.latches.now IsPageRefused
        path.now fault mtr.old.pass.now mtr.new.pass.now) }
{
    let pages = path.pages();
    let mut at = 0;
    while at + 1 < pages.len() {
        match try_take_page(mtr, pages[at]) {
            Ok(()) => at += 1,
            Err(fault) => return Err(fault),
        }
    }
    Ok(())
}

// Tries the pages of the leaf level, from left to right: the leaf before the key's, the key's leaf,
// and the one that its link names then.
fn try_take_leaves<L: Law, S: Sleep>(
    mtr: &mut Mtr<'_, L, S>,
    leaf: u32,
    left: u32,
) -> Result<(), NowaitFault>
    requires mtr { IsMtr mtr.old.latches.now mtr.old.pass.now }
    requires room { HasGrantsLeft 8 mtr.old.pass.now.view }
    requires ready { under L.Law mtr.old.latches.now MayTakeLeaves leaf left mtr.old.pass.now }
    ensures still { IsStillMtr mtr.old mtr.new }
    ensures taken { OnOk result ((r : under L.Law mtr.old.latches.now MayTakeLeaves leaf left
        mtr.old.pass.now) → under L.Law mtr.old.latches.now HasTakenMore r.held
        (beside left ++ leaf ∷ beside r.right) mtr.old.pass.now mtr.new.pass.now) }
    ensures few { OnOk result (AreFewLooks 0 mtr.old.pass.now.view mtr.new.pass.now.view) }
    ensures refused { IfErr result (λ fault. (r : under L.Law mtr.old.latches.now MayTakeLeaves leaf
        left mtr.old.pass.now) → under_lawful L.Law mtr.old.latches.now IsPageRefused
        (beside left ++ leaf ∷ beside r.right) fault mtr.old.pass.now mtr.new.pass.now) }
{
    match try_take_beside(mtr, left) {
        Ok(()) => {}
        Err(fault) => return Err(fault),
    }
    match try_take_page(mtr, leaf) {
        Ok(()) => {}
        Err(fault) => return Err(fault),
    }
    let right = right_of(mtr, leaf);
    match try_take_beside(mtr, right) {
        Ok(()) => Ok(()),
        Err(fault) => Err(fault),
    }
}

// Claims the index, reads the path of a key, and takes the pages that an insert may change, all by tries. Where one is
// refused, those that were had are held still.
fn take_to_insert<L: Trees, S: Sleep>(
    mtr: &mut Mtr<'_, L, S>,
    sought: Sought,
) -> Result<Path, NowaitFault>
    requires may { MayDescend mtr.old.latches.now mtr.old.pass.now }
    requires unwatched { is_watched 1 mtr.old.pass.now.view.memory.since ≡ false }
    requires sought { IsSought L.ROOTS sought.root sought.key }
    ensures still { IsStillMtr mtr.old mtr.new }
    ensures claimed { IfOk result (λ path. (held : List ℕ) × under L.Law mtr.old.latches.now
        HasClaimed sought.root sought.key path held mtr.old.pass.now mtr.new.pass.now
        × IsPathWithLeaves (pages_under L.Law mtr.old.latches.now mtr.new.pass.now) path held) }
    ensures alone { OnOk result (is_claimed mtr.new.pass.now.view.memory.since ≡ true) }
    ensures twice { OnOk result (AreFewLooks 0 mtr.old.pass.now.view mtr.new.pass.now.view) }
    ensures few { mtr.new.pass.now.view.looks.count
        ≤ mtr.old.pass.now.view.looks.count + 4 * (MOST_LEVEL + 3) }
    ensures refusal { IfErr result (λ fault. under L.Law mtr.old.latches.now IsInsertRefusal
        sought.root sought.key fault mtr.old.pass.now mtr.new.pass.now) }
{
    facts_of_trees(mtr);
    match try_claim(mtr) {
        Ok(()) => {}
        Err(fault) => return Err(fault),
    }
    let found = match try_path(mtr, sought) {
        Ok(found) => found,
        Err(fault) => return Err(fault),
    };
    match try_take_nodes(mtr, &found.path) {
        Ok(()) => {}
        Err(fault) => return Err(fault),
    }
    match try_take_leaves(mtr, found.leaf, found.left) {
        Ok(()) => Ok(found.path),
        Err(fault) => Err(fault),
    }
}

/// Descends to the leaf of a key for an insert that may change the tree's structure, as `descend_to_insert`
/// (`btr_cur_search_to_nth_level` with `BTR_MODIFY_TREE`), without waiting: the index is tried in SX, the
/// pages of the path in S to read them, and then those pages and the leaves beside the key's leaf in X
/// (`rw_lock_sx_lock_nowait`, `rw_lock_s_lock_nowait`, `rw_lock_x_lock_func_nowait`), for every `Sleep`.
/// Where one is refused, the log's end is looked at, and then all is given back: memo and work set are empty
/// again. `Busy` and `Raced` tell the latch that was not had, one of these, and the words of the try. There
/// are two looks for each grant, and two at most for the refused try.
///
/// ```
/// match descend_to_insert_nowait(&mut mtr, 1, key) {
///     Ok(path) => split(mtr, path),
///     Err(fault) => {
///         mtr.finish();
///         later(fault)
///     }
/// }
/// ```
pub fn descend_to_insert_nowait<L: Trees, S: Sleep>(
    mtr: &mut Mtr<'_, L, S>,
    root: u32,
    key: Key,
) -> Result<Path, NowaitFault>
    requires may { MayDescend mtr.old.latches.now mtr.old.pass.now }
    requires unwatched { is_watched 1 mtr.old.pass.now.view.memory.since ≡ false }
    requires root { IsRoot L.ROOTS root }
    ensures still { IsStillMtr mtr.old mtr.new }
    ensures claimed { IfOk result (λ path. (held : List ℕ) × under L.Law mtr.old.latches.now
        HasClaimed root key path held mtr.old.pass.now mtr.new.pass.now × IsPathWithLeaves
        (pages_under L.Law mtr.old.latches.now mtr.new.pass.now) path held) }
    ensures alone { OnOk result (is_claimed mtr.new.pass.now.view.memory.since ≡ true) }
    ensures twice { OnOk result (AreFewLooks 0 mtr.old.pass.now.view mtr.new.pass.now.view) }
    ensures few { mtr.new.pass.now.view.looks.count
        ≤ mtr.old.pass.now.view.looks.count + 4 * (MOST_LEVEL + 3) }
    ensures refused { IfErr result (λ fault. under L.Law mtr.old.latches.now IsInsertRefused root
        key fault mtr.old.pass.now mtr.new.pass.now) }
{
    match take_to_insert(mtr, Sought { root, key }) {
        Ok(path) => Ok(path),
        Err(fault) => {
            mtr.give_back();
            Err(fault)
        }
    }
}
