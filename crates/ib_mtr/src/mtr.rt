//! The mini-transaction, from its start to its end.

ghost use Rattle.std.specs.Prelude.{◌≡◌, IsSome, MatchOption, length, []};
ghost use Rattle.std.specs.Borrow.{sem};
ghost use Rattle.ib_core.specs.Sessions.{idle};
ghost use Rattle.ib_page.specs.Work.{before_of, changed_of, without_page};
ghost use Rattle.ib_rule.specs.Pass.{IsAtRest};
ghost use Rattle.ib_rule.specs.Views.{KnowsHeld};
ghost use Rattle.ib_mtr.specs.Mtr.{IsMtr, IsStillMtr, finished, started, with_work};
ghost use Rattle.ib_mtr.specs.Lending.{LendsPages};

use ib_latch::{Latches, Parkers, Sleep};
use ib_layout::Geometry;
use ib_logrec::Law;
use ib_page::{Image, WorkSet};
use ib_rule::Pass;

/// A mini-transaction of one session (mtr0mtr): it takes latches and remembers each grant in its
/// memo, and works on pages of which it holds the latch. Its memo and its pages stay in the scratch
/// of the pass, so that it takes no memory; it is not dropped, but ends by `finish`.
pub struct Mtr<'a, L: Law, S: Sleep = Parkers> {
    pub(crate) latches: &'a Latches<L, S>,
    pub(crate) pass: &'a mut Pass,
}

impl<'a, L: Law, S: Sleep> Mtr<'a, L, S> {
    /// Starts with an empty memo and no pages (`mtr_t::start`). The session holds nothing and is in
    /// the middle of nothing, and its scratch is free.
    ///
    /// ```
    /// let mtr = Mtr::start(&table, &mut pass);
    /// let place = mtr.commit_read();
    /// ```
    pub fn start(latches: &'a Latches<L, S>, pass: &'a mut Pass) -> Mtr<'a, L, S>
        requires rest { IsAtRest latches.now pass.old }
        ensures mtr { IsMtr result.latches.now result.pass.now }
        ensures latches { result.latches ≡ latches.entry }
        ensures pass { result.pass.ghost_name ≡ pass.entry.ghost_name }
        ensures started { result.pass.now ≡ started pass.old }
    {
        pass.begin_work();
        Mtr { latches, pass }
    }

    /// Ends with an empty memo: the scratch is free again. Nothing is read, and nothing is released.
    ///
    /// ```
    /// let mtr = Mtr::start(&table, &mut pass);
    /// mtr.finish();
    /// ```
    pub fn finish(self)
        requires mtr { IsMtr self.latches.now self.pass.now }
        requires none { self.pass.now.memo ≡ [] }
        ensures finished { self.exit.1.0.now ≡ finished self.entry.pass.now }
        ensures idle { self.exit.1.0.now.view.session ≡ idle }
        ensures known { KnowsHeld self.exit.1.0.now.view }
    {
        let Mtr { latches: _, pass } = self;
        pass.end_work();
    }

    /// The pass, to be asked what its session holds and may take.
    ///
    /// ```
    /// if mtr.pass().may_grow() && mtr.pass().may_claim(latch, Level::TreeNode) {
    ///     mtr.x_latch(rt, latch, Level::TreeNode);
    /// }
    /// ```
    pub fn pass(&self) -> &Pass
        ensures { result.now ≡ self.now.pass.now }
    {
        self.pass
    }

    /// How many pages the space has, and how many words its log.
    pub fn geometry(&self) -> Geometry
        ensures { result ≡ self.now.latches.now.sizes }
    {
        self.latches.space().geometry()
    }

    /// How many entries of the log the session has seen. Nothing is read.
    pub fn place(&self) -> u32
        requires { IsMtr self.now.latches.now self.now.pass.now }
        ensures { result ≡ length self.now.pass.now.view.memory.seen }
    {
        self.pass.place()
    }

    /// The changed image of a page. None exactly where the page is not loaded.
    ///
    /// ```
    /// if mtr.image(page).is_none() {
    ///     mtr.load(page);
    /// }
    /// ```
    pub fn image(&self, page: u32) -> Option<&Image>
        requires { IsMtr self.now.latches.now self.now.pass.now }
        ensures { MatchOption result (changed_of page self.now.pass.now.work ≡ None)
            (λ image. changed_of page self.now.pass.now.work ≡ Some image.now) }
    {
        self.pass.work().image(page)
    }

    /// A page that is loaded and not changed leaves the work set. Its latch stays held.
    pub fn forget(&mut self, page: u32)
        requires mtr { IsMtr self.old.latches.now self.old.pass.now }
        requires loaded { IsSome (changed_of page self.old.pass.now.work) }
        requires unchanged { changed_of page self.old.pass.now.work
            ≡ before_of page self.old.pass.now.work }
        ensures still { IsStillMtr self.old self.new }
        ensures forgotten { self.new.pass.now
            ≡ with_work (without_page page self.old.pass.now.work) self.old.pass.now }
    {
        self.pass.work_mut().remove(page);
    }

    /// The work set, lent to be changed. The memo stays as it is. It is a mini-transaction again
    /// afterwards where each page that is there then is one whose latch it holds.
    pub fn work(&mut self) -> &mut WorkSet
        requires { IsMtr self.old.latches.now self.old.pass.now }
        ensures* lends { sem 𝓛 (LendsPages L.row S.row L.Law S.Sleep self.entry result) }
        ensures work { result.now ≡ self.old.pass.now.work }
    {
        self.pass.work_mut()
    }
}
