//! The end of a space with its log as a list, and a space that is given up.

ghost use Rattle.std.specs.Prelude.{◌≡◌, ◌<◌, ℕ, slice_index, IfOk, IfErr};
ghost use Rattle.ib_map.specs.declared.TheConstants.{PAGE_WORDS};
ghost use Rattle.ib_layout.specs.Places.{page_place};
ghost use Rattle.ib_rule.specs.Closed.{HasClosed, log_in};
ghost use Rattle.ib_rule.specs.Connects.{IsDeserted};

use crate::space::Space;
use crate::space_words::SpaceWords;
use ib_logrec::Law;
use ib_page::Image;
use std::alloc::Global;
use std::marker::Model;

/// The words of a space that nobody shares any more, with the used words of the log beside them as a list.
/// Contracts see its sizes, how many sessions were drawn, and the words.
#[derive(Drop)]
pub struct Closed {
    words: SpaceWords,
    log: Vec<u64>,
}

impl Model for Closed {
    ghost use Rattle.std.specs.Prelude.{◌≡◌};
    ghost use Rattle.ib_rule.specs.Closed.{ClosedState, log_in};

    ghost Value = { ClosedState };

    ghost view = { λ c. c.words };

    ghost invariant = { λ c. c.log.items ≡ log_in c.words.sizes c.words.words };
}

/// There was no memory for the words of the log. The space comes back as it was.
pub struct SpaceCloseRefused<L: Law> {
    /// The space, with all that it had.
    pub space: Space<L>,
}

impl<L: Law> Space<L> {
    /// Closes the space, where nobody is connected: its words are those of a lawful log, the pages
    /// are the memory after all of it, each session that has ended had seen a front of it, and its
    /// own entries are exactly those of its number. Refused for want of memory alone.
    pub fn close(self, alloc: Global) -> Result<Closed, SpaceCloseRefused<L>>
        requires none { IsDeserted self }
        ensures ok { IfOk result (HasClosed L.lawful L.opening self) }
        ensures err { IfErr result (λ e. e.space ≡ self) }
    {
        // Room for the whole log, of which the used words alone are touched.
        let Ok(mut log) = Vec::with_capacity(alloc, self.geometry.log_words() as usize) else {
            return Err(SpaceCloseRefused { space: self });
        };
        let words = self.into_words();
        words.copy_log(&mut log);
        Ok(Closed { words, log })
    }

    /// Gives the space up, with its log and its pages, where nobody is connected: for who cannot close it.
    pub fn discard(self)
        requires { IsDeserted self }
    {
        let Space {
            table,
            rest,
            geometry: _,
            drawn: _,
            ended: _,
        } = self;
        if let Some(rest) = rest {
            drop(rest.into_seat());
        }
        drop(table);
    }
}

impl Closed {
    /// How many sessions were drawn.
    pub fn sessions(&self) -> u32
        ensures { result ≡ self.now.drawn }
    {
        self.words.sessions()
    }

    /// The used words of the log.
    pub fn log(&self) -> &[u64]
        ensures { result.now ≡ log_in self.now.sizes self.now.words }
    {
        self.log.as_slice()
    }

    /// The words of a page.
    pub fn page(&self, page: u32) -> Image
        requires { page < self.now.sizes.pages }
        ensures { (i : ℕ) → i < PAGE_WORDS → slice_index result i
            ≡ slice_index self.now.words (page_place self.now.sizes page i) }
    {
        self.words.page(page)
    }
}
