//! A space whose sessions take its latches, from its opening on.

ghost use Rattle.std.specs.Prelude.{◌≡◌, ℕ, ◌+◌, ◌-◌, ◌≤◌, true, [], ◌∷◌, length, Err, IfOk, IfErr};
ghost use Rattle.ib_rule.specs.Connects.{HasConnected, HasDisconnected, HasMet, IsDeserted, IsNew};
ghost use Rattle.ib_rule.specs.Under.{under_lawful};
ghost use Rattle.ib_rule.specs.Closed.{HasClosed};
ghost use Rattle.ib_rule.specs.Pass.{IsAtRest, IsFrom};

use crate::parkers::Parkers;
use crate::sleep::Sleep;
use ib_layout::Geometry;
use ib_logrec::{Law, MOST_SESSIONS};
use ib_rule::{Closed, ConnectFault, OutOfMemory, Pass, Space, SpaceCloseRefused, SpaceWords};
use std::alloc::Global;
use std::marker::Model;
use std::sync::Wait;

/// A space and how its sessions sleep. Contracts see it as its space. It is not dropped, as its
/// space is not.
pub struct Latches<L: Law, S: Sleep = Parkers> {
    pub(crate) space: Space<L>,
    pub(crate) sleep: S,
}

impl<L: Law, S: Sleep> Model for Latches<L, S> {
    ghost use Rattle.std.specs.Prelude.{◌≡◌, ℕ, ◌<◌, ◌≤◌, true};
    ghost use Rattle.ib_rule.specs.Space.{SpaceState};

    ghost Value = { SpaceState };

    ghost view = { λ p. p.space };

    // Each session that was drawn may sleep.
    ghost invariant = { λ p. (n : ℕ) → 0 < n → n ≤ p.space.drawn → S.admits p.sleep n ≡ true };
}

/// There was no memory to copy the words. The latches come back as they were.
pub struct LatchesCloseRefused<L: Law, S: Sleep = Parkers> {
    /// The latches, with all that they had.
    pub latches: Latches<L, S>,
}

impl<L: Law, S: Sleep> Latches<L, S> {
    /// The latches of a new space: the opening pages of the law, an empty log, no sessions, and every
    /// latch free. Refused where memory lacks.
    ///
    /// ```
    /// let sizes = Geometry::new(16, 100_000)?;
    /// let mut table: Latches<AnyLaw> = Latches::open(alloc, sizes)?;
    /// ```
    pub fn open(alloc: Global, geometry: Geometry) -> Result<Latches<L, S>, OutOfMemory>
        ensures { IfOk result (IsNew geometry) }
    {
        let sleep = S::new(alloc)?;
        let space = Space::open(alloc, geometry)?;
        Ok(Latches { space, sleep })
    }

    /// The space, for steps that are none on latches.
    ///
    /// ```
    /// let word = table.space().load_word(&mut pass, Latch::INDEX);
    /// ```
    pub fn space(&self) -> &Space<L>
        ensures { result.now ≡ self.now }
    {
        &self.space
    }

    /// How many passes are not given back yet.
    ///
    /// ```
    /// if table.connected() == 0 {
    ///     table.discard();
    /// }
    /// ```
    pub fn connected(&self) -> u32
        ensures connected { result ≡ self.now.drawn - length self.now.ended }
        ensures few { length self.now.ended ≤ self.now.drawn }
    {
        self.space.connected()
    }

    /// Draws the next number, and gives its session's pass: nothing seen, held or granted, the phase
    /// free, and the scratch in it. Refused as `TooManySessions`, with 1,024, exactly where so many were drawn.
    /// Where memory lacks, no number is drawn.
    ///
    /// ```
    /// let mut pass = match table.connect(alloc) {
    ///     Ok(pass) => pass,
    ///     Err(ConnectFault::TooManySessions { drawn }) => return refused(drawn),
    ///     Err(ConnectFault::OutOfMemory) => return out_of_memory(),
    /// };
    /// ```
    pub fn connect(&mut self, alloc: Global) -> Result<Pass, ConnectFault>
        ensures { HasConnected self.old self.new result }
    {
        let drawn = self.space.drawn();
        if drawn < MOST_SESSIONS && self.sleep.admit(drawn + 1).is_err() {
            return Err(ConnectFault::OutOfMemory);
        }
        self.space.connect(alloc)
    }

    /// The session ends, and its lists are kept. It holds nothing, its phase is free, and its
    /// scratch is in the pass.
    ///
    /// ```
    /// if pass.is_idle() {
    ///     table.disconnect(pass);
    /// }
    /// ```
    pub fn disconnect(&mut self, pass: Pass)
        requires { IsAtRest self.old pass }
        ensures { HasDisconnected self.old pass self.new }
    {
        self.space.disconnect(pass);
    }

    /// Afterwards `to` has seen what both had seen: the longer of the two lists, of which both are
    /// fronts. That tells it what a look at the log's end tells: what it had not seen before is harmless.
    /// What contracts see of `from` is as before.
    ///
    /// ```
    /// table.meet(&mut reader, &mut writer);
    /// assert!(rt; reader.place() >= writer.place());
    /// ```
    pub fn meet(&self, to: &mut Pass, from: &mut Pass)
        requires to { IsFrom self.now to.old }
        requires from { IsFrom self.now from.old }
        ensures { under_lawful L.Law self.now HasMet to.old from.old to.new from.new }
    {
        self.space.meet(to, from);
    }

    /// Closes the space, where nobody is connected: its words are those of a lawful log, the pages
    /// are the memory after all of it, each session that has ended had seen a front of it, and its
    /// own entries are exactly those of its number. Refused for want of memory alone.
    ///
    /// ```
    /// match table.close(alloc) {
    ///     Ok(closed) => Some(closed.page(5).word(9)),
    ///     Err(LatchesCloseRefused { latches }) => {
    ///         latches.discard();
    ///         None
    ///     }
    /// }
    /// ```
    pub fn close(self, alloc: Global) -> Result<Closed, LatchesCloseRefused<L, S>>
        requires none { IsDeserted self }
        ensures ok { IfOk result (HasClosed L.lawful L.opening self) }
        ensures err { IfErr result (λ e. e.latches ≡ self) }
    {
        let Latches { space, sleep } = self;
        match space.close(alloc) {
            Ok(closed) => Ok(closed),
            Err(refused) => {
                let SpaceCloseRefused { space } = refused;
                Err(LatchesCloseRefused {
                    latches: Latches { space, sleep },
                })
            }
        }
    }

    /// Ends the space as `close` does, and keeps its words where they lie. It takes no memory, so that nothing
    /// refuses it.
    ///
    /// ```
    /// let words = table.into_words();
    /// let log = words.log(alloc)?;
    /// ```
    pub fn into_words(self) -> SpaceWords
        requires none { IsDeserted self }
        ensures { HasClosed L.lawful L.opening self result }
    {
        let Latches { space, sleep: _ } = self;
        space.into_words()
    }

    /// Gives the space up, with its log and its pages, where nobody is connected: for who cannot close it.
    pub fn discard(self)
        requires { IsDeserted self }
    {
        let Latches { space, sleep: _ } = self;
        space.discard();
    }
}

impl<L: Law> Latches<L, Parkers> {
    /// How many wait cells were ever reserved, up to 4,294,967,295.
    pub fn cells_ever<R: Wait>(&self, rt: &R) -> u32 {
        self.sleep.ever(rt)
    }

    /// How many parkers there are: one for each session that was drawn, at least.
    pub fn sleepers(&self) -> usize
        ensures { self.now.drawn ≤ result }
    {
        self.sleep.count()
    }

    /// How many wait cells are reserved now: no more than sessions wait.
    pub fn cells_reserved<R: Wait>(&self, rt: &R) -> usize {
        self.sleep.reserved(rt)
    }
}
