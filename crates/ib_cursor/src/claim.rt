//! The index claimed, and the path of a key read under it.

ghost use Rattle.std.specs.Prelude.{◌≡◌, ℕ, ◌<◌, ◌≤◌, ◌+◌, ◌∷◌, ◌++◌, [], true, false, List, Some};
ghost use Rattle.ib_map.specs.Space.{has_pages};
ghost use Rattle.ib_levels.specs.declared.level.Mode.TheVariants.{S as ModeS};
ghost use Rattle.ib_page.specs.Image.{IsFormed, next_of, prev_of};
ghost use Rattle.ib_page.specs.Work.{changed_of};
ghost use Rattle.ib_heap.specs.declared.TheConstants.{MOST_LEVEL};
ghost use Rattle.ib_logrec.specs.Log.{by_place};
ghost use Rattle.ib_rule.specs.Conditions.{HasGrantLeft, HasGrantsLeft};
ghost use Rattle.ib_rule.specs.Under.{under, under_lawful};
ghost use Rattle.ib_rule.specs.Views.{is_watched};
ghost use Rattle.ib_mtr.specs.Mtr.{IsMtr, IsStillMtr};
ghost use Rattle.ib_cursor.specs.Claims.{HasClaimed, IsPathWithLeaves, beside, claim_grant};
ghost use Rattle.ib_cursor.specs.Descent.{IsAt, MayDescend};
ghost use Rattle.ib_cursor.specs.Going.{HasLatched};
ghost use Rattle.ib_cursor.specs.Shapes.{HasIndex, HasReadLink, HasReadPath, HasReadValue, NamesLink, ShapeLaws, is_claimed};
ghost use Rattle.ib_cursor.specs.Spaces.{pages_under};
ghost use Rattle.ib_cursor.specs.Takings.{CanTakePage, HasTakenMore, HasTakenPage, MayTakeFirst, MayTakeLeaves, MayTakePath, TakesFirst, WillTake};
ghost use Rattle.ib_cursor.specs.OnPath.{IsOnPath, IsRoot, IsSought};

use crate::held_page::{child_of, level_of, value_of};
use crate::latch_page::{latch_page, look, read, take};
use crate::search::Sought;
use ib_latch::{Parkers, Sleep};
use ib_levels::{Latch, Level, Mode};
use ib_logrec::Law;
use ib_map::Key;
use ib_mtr::Mtr;
use ib_page::Path;
use ib_tree::Trees;
use std::sync::Wait;

// The laws of trees on the space of a mini-transaction.
pub(crate) fn facts_of_trees<L: Trees, S: Sleep>(mtr: &Mtr<'_, L, S>)
    ensures shapes { ShapeLaws mtr.now.latches.now.sizes.pages L.ROOTS
        (L.lawful mtr.now.latches.now.sizes.pages)
        (by_place L.opening mtr.now.latches.now.sizes.pages) }
    ensures empty { L.lawful mtr.now.latches.now.sizes.pages [] }
    ensures pages { has_pages mtr.now.latches.now.sizes.pages ≡ true }
{
    // For the proof: the laws of trees, at the number of pages that the space has.
    L::trees_law();
    let _ = mtr.geometry().pages();
}

/// Claims the index (`mtr_sx_lock` of the index before a search with `BTR_MODIFY_TREE`): takes it in SX, and looks. Nothing
/// is held before, and of what was known of the index before nothing is left.
pub fn claim_index<L: Law, R: Wait>(rt: &R, mtr: &mut Mtr<'_, L, Parkers>)
    requires mtr { IsMtr mtr.old.latches.now mtr.old.pass.now }
    requires memo { mtr.old.pass.now.memo ≡ [] }
    requires room { HasGrantLeft mtr.old.pass.now.view }
    requires unwatched { is_watched 1 mtr.old.pass.now.view.memory.since ≡ false }
    ensures still { IsStillMtr mtr.old mtr.new }
    ensures latched { under_lawful L.Law mtr.old.latches.now HasLatched claim_grant mtr.old.pass.now
        mtr.new.pass.now }
    ensures claimed { is_claimed mtr.new.pass.now.view.memory.since ≡ true }
{
    take(rt, mtr, Latch::INDEX, Mode::Sx, Level::IndexTree);
    look(mtr);
}

// The leaf before one that is loaded, by its link, 0 for none.
fn left_of<L: Law, S: Sleep>(mtr: &Mtr<'_, L, S>, leaf: u32) -> u32
    requires mtr { IsMtr mtr.now.latches.now mtr.now.pass.now }
    requires loaded { (image : List ℕ) × (changed_of leaf mtr.now.pass.now.work ≡ Some image)
        × IsFormed image }
    ensures { (image : List ℕ) → changed_of leaf mtr.now.pass.now.work ≡ Some image
        → result ≡ prev_of image }
{
    let image = mtr.image(leaf).unwrap();
    image.prev()
}

// The leaf before a leaf that is held behind the claimed index, 0 for none: the leaf is loaded for it,
// and leaves the work set again.
fn left_link<L: Trees, S: Sleep>(mtr: &mut Mtr<'_, L, S>, sought: Sought, leaf: u32) -> u32
    requires mtr { IsMtr mtr.old.latches.now mtr.old.pass.now }
    requires at { under L.Law mtr.old.latches.now IsAt sought.root sought.key (claim_grant ∷ [])
        leaf 0 ModeS mtr.old.pass.now }
    requires claimed { is_claimed mtr.old.pass.now.view.memory.since ≡ true }
    requires sought { IsSought L.ROOTS sought.root sought.key }
    ensures still { IsStillMtr mtr.old mtr.new }
    ensures linked { under L.Law mtr.old.latches.now NamesLink sought.root sought.key leaf 0
        result mtr.old.pass.now mtr.new.pass.now }
    ensures looks { mtr.new.pass.now.view.looks ≡ mtr.old.pass.now.view.looks }
{
    facts_of_trees(mtr);
    read(mtr, leaf);
    let left = left_of(mtr, leaf);
    mtr.forget(leaf);
    left
}

// What a page that is held behind the claimed index names: a node the child of the key, a leaf the
// leaf before it. No lock word is looked at.
pub(crate) fn link_here<L: Trees, S: Sleep>(
    mtr: &mut Mtr<'_, L, S>,
    sought: Sought,
    page: u32,
    level: u32,
) -> u32
    requires mtr { IsMtr mtr.old.latches.now mtr.old.pass.now }
    requires at { under L.Law mtr.old.latches.now IsAt sought.root sought.key (claim_grant ∷ [])
        page level ModeS mtr.old.pass.now }
    requires claimed { is_claimed mtr.old.pass.now.view.memory.since ≡ true }
    requires sought { IsSought L.ROOTS sought.root sought.key }
    ensures still { IsStillMtr mtr.old mtr.new }
    ensures linked { under L.Law mtr.old.latches.now NamesLink sought.root sought.key page level
        result mtr.old.pass.now mtr.new.pass.now }
    ensures looks { mtr.new.pass.now.view.looks ≡ mtr.old.pass.now.view.looks }
{
    facts_of_trees(mtr);
    if level == 0 {
        return left_link(mtr, sought, page);
    }
    child_of(mtr, page, sought.key)
}

// What is read of a page of the path: its level, and the page that it names.
#[derive(Clone, Copy)]
pub(crate) struct Named {
    pub(crate) level: u32,
    pub(crate) link: u32,
}

// Looks at a page of the key's path in S behind the claimed index, and gives it up again.
fn read_link<L: Trees, R: Wait>(
    rt: &R,
    mtr: &mut Mtr<'_, L, Parkers>,
    sought: Sought,
    page: u32,
) -> Named
    requires mtr { IsMtr mtr.old.latches.now mtr.old.pass.now }
    requires index { under_lawful L.Law mtr.old.latches.now HasIndex mtr.old.pass.now }
    requires on_path { (level : ℕ) × IsOnPath (pages_under L.Law mtr.old.latches.now mtr.old.pass.now)
        sought.root sought.key page level }
    requires room { HasGrantLeft mtr.old.pass.now.view }
    requires sought { IsSought L.ROOTS sought.root sought.key }
    ensures still { IsStillMtr mtr.old mtr.new }
    ensures link_read { under L.Law mtr.old.latches.now HasReadLink sought.root sought.key page
        result.level result.link mtr.old.pass.now mtr.new.pass.now }
    ensures low { result.level ≤ MOST_LEVEL }
{
    facts_of_trees(mtr);
    latch_page(rt, mtr, page, Mode::S);
    let level = level_of(mtr, page);
    let link = link_here(mtr, sought, page, level);
    mtr.release_at(1);
    Named { level, link }
}

/// The path of a key, from the root to the leaf, its leaf, and the leaf before that, 0 for none.
#[derive(Drop)]
pub struct FoundPath {
    pub path: Path,
    pub leaf: u32,
    pub left: u32,
}

/// Reads the path of a key page by page behind the claimed index, with no page held while the next is taken: the
/// claim keeps the path.
pub fn read_path<L: Trees, R: Wait>(
    rt: &R,
    mtr: &mut Mtr<'_, L, Parkers>,
    sought: Sought,
) -> FoundPath
    requires mtr { IsMtr mtr.old.latches.now mtr.old.pass.now }
    requires index { under_lawful L.Law mtr.old.latches.now HasIndex mtr.old.pass.now }
    requires room { HasGrantsLeft 32 mtr.old.pass.now.view }
    requires sought { IsSought L.ROOTS sought.root sought.key }
    ensures still { IsStillMtr mtr.old mtr.new }
    ensures on_path { under L.Law mtr.old.latches.now HasReadPath sought.root sought.key result.path
        result.leaf result.left mtr.old.pass.now mtr.new.pass.now }
{
    facts_of_trees(mtr);
    let mut path = Path::new();
    let mut page = sought.root;
    let first = read_link(rt, mtr, sought, page);
    let mut level = first.level;
    let mut link = first.link;
    while level > 0 {
        path.push(page);
        page = link;
        let below = read_link(rt, mtr, sought, page);
        level = below.level;
        link = below.link;
    }
    path.push(page);
    FoundPath {
        path,
        leaf: page,
        left: link,
    }
}

/// What the key's leaf has of it, looked up where it lies in S behind the claimed index; the leaf is given up again at
/// once. None where the key is not there.
pub fn read_value<L: Trees, R: Wait>(
    rt: &R,
    mtr: &mut Mtr<'_, L, Parkers>,
    sought: Sought,
    leaf: u32,
) -> Option<u64>
    requires mtr { IsMtr mtr.old.latches.now mtr.old.pass.now }
    requires index { under_lawful L.Law mtr.old.latches.now HasIndex mtr.old.pass.now }
    requires on_path { IsOnPath (pages_under L.Law mtr.old.latches.now mtr.old.pass.now)
        sought.root sought.key leaf 0 }
    requires room { HasGrantLeft mtr.old.pass.now.view }
    requires sought { IsSought L.ROOTS sought.root sought.key }
    ensures still { IsStillMtr mtr.old mtr.new }
    ensures value_read { under L.Law mtr.old.latches.now HasReadValue sought.key leaf result
        mtr.old.pass.now mtr.new.pass.now }
{
    facts_of_trees(mtr);
    latch_page(rt, mtr, leaf, Mode::S);
    let value = value_of(mtr, leaf, sought.key);
    mtr.release_at(1);
    value
}

// Takes a page in X behind the claimed index and the pages that are held already, and loads it.
pub(crate) fn take_page<L: Law, R: Wait>(rt: &R, mtr: &mut Mtr<'_, L, Parkers>, page: u32)
    requires mtr { IsMtr mtr.old.latches.now mtr.old.pass.now }
    requires page { page < mtr.old.latches.now.sizes.pages }
    requires room { HasGrantLeft mtr.old.pass.now.view }
    requires holds { (held : List ℕ) × under L.Law mtr.old.latches.now CanTakePage held page
        mtr.old.pass.now }
    ensures still { IsStillMtr mtr.old mtr.new }
    ensures taken { (held : List ℕ) → under L.Law mtr.old.latches.now CanTakePage held page
        mtr.old.pass.now → under L.Law mtr.old.latches.now HasTakenPage held page mtr.old.pass.now
        mtr.new.pass.now }
{
    // For the proof: a space has a number of pages of which the laws speak.
    let _ = mtr.geometry().pages();
    take(rt, mtr, Latch::page(page), Mode::X, Level::TreeNode);
    read(mtr, page);
}

// Takes the page of a link, where there is one.
pub(crate) fn take_beside<L: Law, R: Wait>(rt: &R, mtr: &mut Mtr<'_, L, Parkers>, page: u32)
    requires mtr { IsMtr mtr.old.latches.now mtr.old.pass.now }
    requires room { HasGrantLeft mtr.old.pass.now.view }
    requires ready { under L.Law mtr.old.latches.now MayTakeFirst (beside page) mtr.old.pass.now }
    ensures still { IsStillMtr mtr.old mtr.new }
    ensures taken { under L.Law mtr.old.latches.now TakesFirst (beside page) mtr.old.pass.now
        mtr.new.pass.now }
{
    if page == 0 {
        return;
    }
    take_page(rt, mtr, page);
}

// Takes the nodes of the path, from the root down, behind the pages that are held already.
fn take_nodes<L: Law, R: Wait>(rt: &R, mtr: &mut Mtr<'_, L, Parkers>, path: &Path)
    requires mtr { IsMtr mtr.old.latches.now mtr.old.pass.now }
    requires room { HasGrantsLeft 32 mtr.old.pass.now.view }
    requires ready { (held : List ℕ) × (front : List ℕ) × (more : List ℕ) × (leaf : ℕ)
        × (path.now ≡ front ++ leaf ∷ []) × under L.Law mtr.old.latches.now WillTake held
        (front ++ more) mtr.old.pass.now }
    ensures still { IsStillMtr mtr.old mtr.new }
    ensures taken { (held front more : List ℕ) (leaf : ℕ) → path.now ≡ front ++ leaf ∷ []
        → under L.Law mtr.old.latches.now WillTake held (front ++ more) mtr.old.pass.now
        → under L.Law mtr.old.latches.now HasTakenMore held front mtr.old.pass.now
        mtr.new.pass.now }
{
    let pages = path.pages();
    let mut at = 0;
    while at + 1 < pages.len() {
        take_page(rt, mtr, pages[at]);
        at += 1;
    }
}

// The leaf behind one that is loaded, by its link, 0 for none.
pub(crate) fn right_of<L: Law, S: Sleep>(mtr: &Mtr<'_, L, S>, leaf: u32) -> u32
    requires mtr { IsMtr mtr.now.latches.now mtr.now.pass.now }
    requires loaded { (image : List ℕ) × (changed_of leaf mtr.now.pass.now.work ≡ Some image)
        × IsFormed image }
    ensures { (image : List ℕ) → changed_of leaf mtr.now.pass.now.work ≡ Some image
        → result ≡ next_of image }
{
    let image = mtr.image(leaf).unwrap();
    image.next()
}

// Takes the pages of the leaf level, from left to right: the leaf before the key's, the key's leaf,
// and the one that its link names then.
fn take_leaves<L: Law, R: Wait>(rt: &R, mtr: &mut Mtr<'_, L, Parkers>, leaf: u32, left: u32)
    requires mtr { IsMtr mtr.old.latches.now mtr.old.pass.now }
    requires room { HasGrantsLeft 8 mtr.old.pass.now.view }
    requires ready { under L.Law mtr.old.latches.now MayTakeLeaves leaf left mtr.old.pass.now }
    ensures still { IsStillMtr mtr.old mtr.new }
    ensures taken { (r : under L.Law mtr.old.latches.now MayTakeLeaves leaf left mtr.old.pass.now)
        → under L.Law mtr.old.latches.now HasTakenMore r.held
        (beside left ++ leaf ∷ beside r.right) mtr.old.pass.now mtr.new.pass.now }
{
    take_beside(rt, mtr, left);
    take_page(rt, mtr, leaf);
    let right = right_of(mtr, leaf);
    take_beside(rt, mtr, right);
}

/// Takes the pages of a path that was read, behind the pages that are held already: its nodes from the root down, and on
/// the leaf level from left to right the leaf before the key's leaf, that leaf, and the leaf behind it.
pub fn take_path<L: Law, R: Wait>(rt: &R, mtr: &mut Mtr<'_, L, Parkers>, found: &FoundPath)
    requires mtr { IsMtr mtr.old.latches.now mtr.old.pass.now }
    requires room { HasGrantsLeft 48 mtr.old.pass.now.view }
    requires ready { (held : List ℕ) × under L.Law mtr.old.latches.now MayTakePath held
        found.now.path found.now.leaf found.now.left mtr.old.pass.now }
    ensures still { IsStillMtr mtr.old mtr.new }
    ensures taken { (held : List ℕ) (r : under L.Law mtr.old.latches.now MayTakePath held
        found.now.path found.now.leaf found.now.left mtr.old.pass.now)
        → under L.Law mtr.old.latches.now HasTakenMore held
        (r.front ++ (beside found.now.left ++ found.now.leaf ∷ beside r.right)) mtr.old.pass.now
        mtr.new.pass.now }
{
    take_nodes(rt, mtr, &found.path);
    take_leaves(rt, mtr, found.leaf, found.left);
}

/// Descends to the leaf of a key for an insert that may change the tree's structure
/// (`btr_cur_search_to_nth_level` with `BTR_MODIFY_TREE`; the order of latches is WL#6326's): the index
/// is claimed in SX, and the path read page by page in S, each given up again at once. Then the pages of
/// the path are taken in X by level downward and loaded, and on the leaf level from left to right the
/// leaf before the key's leaf, that leaf, and the leaf behind it. The session holds nothing before, and
/// the index is not watched; the key's path is answered.
pub fn descend_to_insert<L: Trees, R: Wait>(
    rt: &R,
    mtr: &mut Mtr<'_, L, Parkers>,
    root: u32,
    key: Key,
) -> Path
    requires may { MayDescend mtr.old.latches.now mtr.old.pass.now }
    requires unwatched { is_watched 1 mtr.old.pass.now.view.memory.since ≡ false }
    requires root { IsRoot L.ROOTS root }
    ensures still { IsStillMtr mtr.old mtr.new }
    ensures claimed { (held : List ℕ) × under L.Law mtr.old.latches.now HasClaimed root key result
        held mtr.old.pass.now mtr.new.pass.now × IsPathWithLeaves
        (pages_under L.Law mtr.old.latches.now mtr.new.pass.now) result held }
    ensures alone { is_claimed mtr.new.pass.now.view.memory.since ≡ true }
{
    facts_of_trees(mtr);
    claim_index(rt, mtr);
    let found = read_path(rt, mtr, Sought { root, key });
    take_nodes(rt, mtr, &found.path);
    take_leaves(rt, mtr, found.leaf, found.left);
    found.path
}
