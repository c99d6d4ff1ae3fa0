//! How what sessions share is opened and closed, and how sessions come to it and go.

use ib_layout::Geometry;
use ib_rule::{Closed, ConnectFault, OutOfMemory, Pass, SpaceWords};
use std::alloc::Global;

/// What sessions share (a `dict_table_t` with its indexes, their latches and pages): an index, or a pair of trees. Contracts
/// see it as its space. It is not dropped, but closed or discarded.
///
/// Lookups and changes are no part of it: each has those of its own.
pub trait SharedSpace {
    ghost use Rattle.std.specs.Prelude.{◌≡◌, ◌-◌, ◌≤◌, length, IfErr, IfOk};
    ghost use Rattle.ib_rule.specs.Closed.{HasClosed};
    ghost use Rattle.ib_rule.specs.Connects.{HasConnected, HasDisconnected, HasMet, IsDeserted, IsNew};
    ghost use Rattle.ib_rule.specs.Pass.{IsAtRest, IsFrom};
    ghost use Rattle.ib_rule.specs.Space.{SpaceState};
    ghost use Rattle.ib_shared.specs.SharedLaw.{SharedLaw};

    /// What comes back where it could not be closed.
    type Refused;

    // which logs are lawful, the words of the pages at the start, and when a record fits a log
    ghost law: { SharedLaw };

    // its space
    ghost space: { Self → SpaceState };

    // the space of what comes back
    ghost back: { Self.Refused → SpaceState };

    /// With no records, in a new space of these sizes: an empty log, no sessions, and every latch free. Refused where memory
    /// lacks.
    ///
    /// ```
    /// let mut index: Index = Index::open(alloc, Geometry::new(64, 100_000)?)?;
    /// let mut pass = index.connect(alloc)?;
    /// ```
    fn open(alloc: Global, geometry: Geometry) -> Result<Self, OutOfMemory>
        ensures { IfOk result (λ s. IsNew geometry (space s)) };

    /// How many passes are not given back yet.
    ///
    /// ```
    /// if index.connected() == 0 {
    ///     index.discard();
    /// }
    /// ```
    fn connected(&self) -> u32
        ensures connected { result ≡ (space self.now).drawn - length (space self.now).ended }
        ensures few { length (space self.now).ended ≤ (space self.now).drawn };

    /// Draws the next number, and gives its session's pass: nothing seen, held or granted, and the scratch in it. Refused as
    /// `TooManySessions`, with 1,024, exactly where so many were drawn. Where memory lacks, no number is drawn.
    ///
    /// ```
    /// let Ok(mut pass) = index.connect(alloc) else {
    ///     return None;
    /// };
    /// ```
    fn connect(&mut self, alloc: Global) -> Result<Pass, ConnectFault>
        ensures { HasConnected (space self.old) (space self.new) result };

    /// The session ends, and what it has seen and made is kept. It holds nothing, and its scratch is in the pass.
    ///
    /// ```
    /// if pass.is_idle() {
    ///     index.disconnect(pass);
    /// }
    /// ```
    fn disconnect(&mut self, pass: Pass)
        requires { IsAtRest (space self.old) pass }
        ensures { HasDisconnected (space self.old) pass (space self.new) };

    /// Afterwards `to` has seen what both had seen: the longer of the two lists, of which both are fronts. That tells it what
    /// a look at the log's end tells: what it had not seen before is harmless. What contracts see of `from` is as before.
    ///
    /// ```
    /// index.meet(&mut reader, &mut writer);
    /// assert!(rt; reader.place() >= writer.place());
    /// ```
    fn meet(&self, to: &mut Pass, from: &mut Pass)
        requires to { IsFrom (space self.now) to.old }
        requires from { IsFrom (space self.now) from.old }
        ensures { HasMet (space self.now).sizes (law.lawful (space self.now).sizes.pages) to.old from.old to.new from.new };

    /// Closes the space, where nobody is connected: its log's words are those of one lawful log, its pages are the memory
    /// after all of it, each session that has ended had seen a front of it, and its own entries are exactly those of its
    /// number. Refused for want of memory alone. Then it comes back as it was.
    ///
    /// ```
    /// match index.close(alloc) {
    ///     Ok(closed) => keep(closed),
    ///     Err(IndexRefused { index }) => index.discard(),
    /// }
    /// ```
    fn close(self, alloc: Global) -> Result<Closed, Self::Refused>
        requires none { IsDeserted (space self) }
        ensures ok { IfOk result (HasClosed law.lawful law.opening (space self)) }
        ensures err { IfErr result (λ refused. back refused ≡ space self) };

    /// What comes back where it could not be closed, as it was.
    fn returned(refused: Self::Refused) -> Self
        ensures { space result ≡ back refused };

    /// Ends it as `close` does, and keeps the words where they lie. It takes no memory, so that nothing refuses it.
    ///
    /// ```
    /// let words = index.into_words();
    /// let pages = words.page(1);
    /// ```
    fn into_words(self) -> SpaceWords
        requires { IsDeserted (space self) }
        ensures { HasClosed law.lawful law.opening (space self) result };

    /// Gives it up, with its log and its pages, where nobody is connected: for who cannot close it.
    fn discard(self)
        requires { IsDeserted (space self) };
}
