//! The words of a space that nobody shares any more, where they lie.

ghost use Rattle.std.specs.Prelude.{◌≡◌, ◌<◌, ◌≤◌, ◌%◌, ℕ, [], length, slice_index, vec_capacity, IfOk};
ghost use Rattle.std.specs.Slots.{IsFull, slots_items, slots_len};
ghost use Rattle.ib_map.specs.declared.TheConstants.{PAGE_WORDS};
ghost use Rattle.ib_layout.specs.Places.{page_place};
ghost use Rattle.ib_rule.specs.Closed.{HasClosed, IsSized, log_in};
ghost use Rattle.ib_rule.specs.Connects.{IsDeserted};

use crate::space::{OutOfMemory, Space};
use atomic_table::Closed as ClosedTable;
use ib_layout::{END_PLACE, Geometry};
use ib_logrec::Law;
use ib_map::PAGE_WORDS;
use ib_page::Image;
use std::alloc::Global;
use std::marker::Model;

/// The words of a space that nobody shares any more. They stay where the sessions shared them, and are
/// read there. Contracts see the sizes, how many sessions were drawn, and the words.
///
/// ```
/// let words = table.into_words();
/// let first = if words.used() > 0 { words.log_word(0) } else { 0 };
/// let leaf = words.page(1);
/// ```
pub struct SpaceWords {
    geometry: Geometry,
    table: ClosedTable<(), Global>,
    sessions: u32,
}

impl Model for SpaceWords {
    ghost use Rattle.std.specs.Prelude.{◌≡◌};
    ghost use Rattle.std.specs.Slots.{IsFull, slots_items, slots_len};
    ghost use Rattle.ib_rule.specs.Closed.{ClosedState, IsSized};

    ghost Value = { ClosedState };

    ghost view = { λ c. record { sizes = c.geometry; drawn = c.sessions; words = slots_items c.table.words } };

    ghost invariant = { λ c. record {
      sized : IsSized c.geometry (slots_items c.table.words);
      full : IsFull c.table.words;
      bare : slots_len c.table.slots ≡ 0;
    } };
}

impl Drop for SpaceWords {
    fn drop(self) {
        let SpaceWords {
            geometry: _,
            table,
            sessions: _,
        } = self;
        table.free();
    }
}

impl<L: Law> Space<L> {
    /// Ends the space, where nobody is connected, and keeps its words: they are those of a lawful log,
    /// the pages are the memory after all of it, each session that has ended had seen a front of it, and
    /// its own entries are exactly those of its number. It takes no memory, so that nothing refuses it.
    pub fn into_words(self) -> SpaceWords
        requires none { IsDeserted self }
        ensures { HasClosed L.lawful L.opening self result }
    {
        // For the proof: the words of the log fit 32 bits.
        let _ = self.geometry.log_words();
        let Space {
            table,
            rest,
            geometry,
            drawn,
            ended: _,
        } = self;
        let Some(rest) = rest else { unreachable!() };
        SpaceWords {
            geometry,
            table: table.close_with(rest.into_seat()),
            sessions: drawn,
        }
    }
}

impl SpaceWords {
    /// The sizes of the space.
    pub fn geometry(&self) -> Geometry
        ensures { result ≡ self.now.sizes }
    {
        self.geometry
    }

    /// How many sessions were drawn.
    pub fn sessions(&self) -> u32
        ensures { result ≡ self.now.drawn }
    {
        self.sessions
    }

    /// How many words the entries of the log have.
    pub fn used(&self) -> u32
        ensures { result ≡ length (log_in self.now.sizes self.now.words) }
    {
        (self.table.word(END_PLACE) % (1 << 32)) as u32
    }

    /// A word of the log, of those that its entries have.
    pub fn log_word(&self, number: u32) -> u64
        requires { number < length (log_in self.now.sizes self.now.words) }
        ensures { result ≡ slice_index (log_in self.now.sizes self.now.words) number }
    {
        self.table.word(self.geometry.log_place(number))
    }

    /// A copy of the words that the entries of the log have.
    pub fn log(&self, alloc: Global) -> Result<Vec<u64>, OutOfMemory>
        ensures { IfOk result (λ log. log.items ≡ log_in self.now.sizes self.now.words) }
    {
        let mut log = Vec::with_capacity(alloc, self.used() as usize)?;
        self.copy_log(&mut log);
        Ok(log)
    }

    // Copies those words to a list that has none and has room for them.
    pub(crate) fn copy_log(&self, log: &mut Vec<u64>)
        requires none { log.old.items ≡ [] }
        requires room { length (log_in self.now.sizes self.now.words) ≤ vec_capacity log.old }
        ensures { log.new.items ≡ log_in self.now.sizes self.now.words }
    {
        for number in 0..self.used() {
            log.push_reserved(self.log_word(number));
        }
    }

    /// The words of a page.
    pub fn page(&self, page: u32) -> Image
        requires { page < self.now.sizes.pages }
        ensures { (i : ℕ) → i < PAGE_WORDS → slice_index result i
            ≡ slice_index self.now.words (page_place self.now.sizes page i) }
    {
        let mut image = Image::free(0);
        for i in 0..PAGE_WORDS {
            image.set_word(i, self.table.word(self.geometry.page_place(page, i as u32)));
        }
        image
    }
}
