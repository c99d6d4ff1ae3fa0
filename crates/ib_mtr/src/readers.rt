//! What a caller asks of a mini-transaction before its commit, who does not prove that the commit's conditions hold.

ghost use Rattle.std.specs.Prelude.{◌≡◌, ◌↔◌, ◌+◌, ◌<◌, ℕ, true, IsTrue};
ghost use Rattle.std.specs.List.{All};
ghost use Rattle.ib_map.specs.declared.call.Change.{Change};
ghost use Rattle.ib_map.specs.Writes.{spans_pages, touches};
ghost use Rattle.ib_levels.specs.declared.latch.TheConstants.{MOST_PAGES};
ghost use Rattle.ib_core.specs.Sessions.{sx_grants, x_grants};
ghost use Rattle.ib_logrec.specs.Law.{AllowsAny};
ghost use Rattle.ib_page.specs.Writes.{writes_of};
ghost use Rattle.ib_mtr.specs.Commits.{MayCommit, MayCommitAny};
ghost use Rattle.ib_mtr.specs.Mtr.{IsMtr};

use crate::mtr::Mtr;
use ib_latch::Sleep;
use ib_levels::{Latch, Level};
use ib_logrec::{Law, MOST_WRITES};
use ib_page::WorkSet;
use ib_rule::{Grants, Pass};

impl<'a, L: Law, S: Sleep> Mtr<'a, L, S> {
    /// Whether it may commit where the law of logs allows every entry in the grammar: it may take a
    /// grant and wish for X on the log latch, changes a word, and no more than `MOST_WRITES` of them,
    /// holds X on each page that it changes, and where these are several, SX on the index and not X. Then `commit` may be called with any
    /// change of a key.
    ///
    /// ```
    /// if !mtr.may_commit_any() {
    ///     mtr.commit_read();
    ///     return None;
    /// }
    /// mtr.commit(rt, Change::Insert { key, value }).ok()
    /// ```
    pub fn may_commit_any(&self) -> bool
        requires { IsMtr self.now.latches.now self.now.pass.now }
        ensures exact { IsTrue result ↔ MayCommitAny self.now.pass.now }
        ensures enough { (change : Change)
            → AllowsAny self.now.latches.now.sizes.pages (L.lawful self.now.latches.now.sizes.pages)
            → MayCommitAny self.now.pass.now
            → MayCommit (L.lawful self.now.latches.now.sizes.pages) self.now.pass.now change }
    {
        let (pass, work) = (self.pass(), self.pass.work());
        // For the proof: the session's number and those of its entries fit an entry, and its pages lie in the space.
        let _ = (self.pass.number(), self.pass.made(), self.pass.used());
        let sizes = self.geometry();
        let _ = (sizes.pages(), sizes.log_words(), work.len());
        pass.may_grow()
            && pass.can_wish(Latch::LOG, Level::Log)
            && work.changed() > 0
            && work.changed() <= MOST_WRITES
            && owns_changed(pass, work)
            && owns_index(pass, work)
    }
}

// Whether X is held on each page that is changed.
fn owns_changed(pass: &Pass, work: &WorkSet) -> bool
    requires { All (λ w. w.page < MOST_PAGES) work.now }
    ensures { IsTrue result ↔ ((page : ℕ) → touches page (writes_of work.now) ≡ true
        → 0 < x_grants (page + 2) pass.now.view.session) }
{
    for place in 0..work.len() {
        if work.is_changed_at(place) && !owns_page(pass, work.page_at(place).page) {
            return false;
        }
    }
    true
}

// Whether X is held on the page.
fn owns_page(pass: &Pass, page: u32) -> bool
    requires { page < MOST_PAGES }
    ensures { IsTrue result ↔ (0 < x_grants (page + 2) pass.now.view.session) }
{
    pass.counts(Latch::page(page)).x > 0
}

// Whether SX is held on the index and X is not, where several pages are changed.
fn owns_index(pass: &Pass, work: &WorkSet) -> bool
    ensures { IsTrue result ↔ (spans_pages (writes_of work.now) ≡ true
        → (0 < sx_grants 1 pass.now.view.session) × (x_grants 1 pass.now.view.session ≡ 0)) }
{
    let Grants { s: _, sx, x } = pass.counts(Latch::INDEX);
    sx > 0 && x == 0 || !changes_several(work)
}

// Whether several pages are changed.
fn changes_several(work: &WorkSet) -> bool
    ensures { result ≡ spans_pages (writes_of work.now) }
{
    let mut found = false;
    for place in 0..work.len() {
        if work.is_changed_at(place) {
            if found {
                return true;
            }
            found = true;
        }
    }
    false
}
