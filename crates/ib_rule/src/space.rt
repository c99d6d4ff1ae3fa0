//! The table with the space's own seat, and its sessions.

ghost use Rattle.std.specs.Prelude.{◌≡◌, ◌+◌, ◌-◌, ◌<◌, ◌≤◌, true, [], ◌∷◌, length, nat_lt, replicate, if◌then◌else◌, Err, IfOk, IsSome};
ghost use Rattle.ib_map.specs.Space.{has_pages};
ghost use Rattle.ib_layout.specs.Places.{latches_of, words_of};
ghost use Rattle.ib_rule.specs.Connects.{HasConnected, HasDisconnected, HasMet, IsNew};
ghost use Rattle.ib_rule.specs.Under.{under_lawful};
ghost use Rattle.ib_rule.specs.Memory.{page_places};
ghost use Rattle.ib_rule.specs.Rule.{IsOpening};
ghost use Rattle.ib_rule.specs.Opening.{AreFreed, AreOpened};
ghost use Rattle.ib_rule.specs.Pass.{IsAtRest, IsFrom};

use crate::own_seat::OwnSeat;
use crate::pass::Pass;
use crate::pass_memory::PassMemory;
use crate::rule::Ruled;
use crate::seats::{draw, leave, tell};
use crate::view::View;
use atomic_table::{Seat, Table};
use ib_layout::Geometry;
use ib_levels::Latch;
use ib_logrec::{Law, MOST_SESSIONS};
use ib_map::PAGE_WORDS;
use ib_word::{LockWord, to_cell};
use std::alloc::{AllocError, Global};
use std::marker::Model;
use thiserror::Error;

/// There was no memory.
pub type OutOfMemory = AllocError;

// As many sessions as the latch machine takes have a number that an entry takes.
const _: () = prove!(MOST_SESSIONS == ib_core::MOST_SESSIONS);

/// The words that the sessions of a space share, under the rule of the law `L`. It is
/// not dropped but closed.
pub struct Space<L: Law> {
    pub(crate) table: Table<(), View, Geometry, Ruled<L>, Global>,
    pub(crate) rest: Option<OwnSeat>,
    pub(crate) geometry: Geometry,
    pub(crate) drawn: u32,
    pub(crate) ended: u32,
}

impl<L: Law> Model for Space<L> {
    ghost use Rattle.ib_rule.specs.Space.{SpaceState, space_state, IsSpace};

    ghost Value = { SpaceState };

    ghost view = { λ p. space_state p };

    ghost invariant = { λ p. IsSpace p };
}

/// Why no session was drawn.
#[derive(Debug, Drop, Error)]
pub enum ConnectFault {
    /// As many were drawn as there can be, 1,024.
    #[error("{drawn} sessions were drawn")]
    TooManySessions { drawn: u32 },
    /// There was no memory for its pass.
    #[error("out of memory")]
    OutOfMemory,
}

// The seat, out of its place.
fn take_out(rest: &mut Option<OwnSeat>) -> Seat<(), View>
    requires { IsSome rest.old }
    ensures seat { rest.old ≡ Some record { seat = result } }
    ensures none { rest.new ≡ None }
{
    let Some(rest) = rest.take() else {
        unreachable!()
    };
    rest.into_seat()
}

fn put_back(rest: &mut Option<OwnSeat>, seat: Seat<(), View>)
    requires { rest.old ≡ None }
    ensures { rest.new ≡ Some record { seat = seat } }
{
    if let Some(other) = rest.replace(OwnSeat::new(seat)) {
        drop(other.into_seat());
    }
}

// The words of a space that opens.
fn opening<L: Law>(alloc: Global, geometry: Geometry) -> Result<Vec<u64>, OutOfMemory>
    ensures words { IfOk result (λ v. IsOpening L.opening geometry v.items) }
    ensures pages { has_pages geometry.pages ≡ true }
{
    let latches = geometry.pages() + 2;
    let count = geometry.words();
    let mut words = vec![in alloc; 0; count]?;
    fill::<L>(geometry, latches, words.as_mut_slice());
    Ok(words)
}

// Zeros become the words of a space that opens.
fn fill<L: Law>(geometry: Geometry, latches: u32, words: &mut [u64])
    requires zeros { words.old ≡ replicate (words_of geometry) 0 }
    requires latches { latches ≡ latches_of geometry }
    ensures { IsOpening L.opening geometry words.new }
{
    free_latches(geometry, latches, words);
    open_pages::<L>(geometry, words);
}

// Each of the latches is free.
fn free_latches(geometry: Geometry, latches: u32, words: &mut [u64])
    requires size { length words.old ≡ words_of geometry }
    requires latches { latches ≡ latches_of geometry }
    ensures { AreFreed latches words.old words.new }
{
    let free = to_cell(LockWord::FREE);
    for latch in 0..latches {
        words[geometry.lock_place(Latch(latch))] = free;
    }
}

// Each page word is the law's.
fn open_pages<L: Law>(geometry: Geometry, words: &mut [u64])
    requires { length words.old ≡ words_of geometry }
    ensures { AreOpened L.opening geometry (page_places geometry) words.old words.new }
{
    let pages = geometry.pages();
    let width = PAGE_WORDS as u32;
    let first = geometry.page_place(0, 0);
    for place in 0..pages * width {
        words[first + place as usize] = L::opening_word(pages, place / width, place % width);
    }
}

impl<L: Law> Space<L> {
    /// A space of these sizes: the opening pages of the law, an empty log, and no sessions (fsp0fsp,
    /// `fsp_header_init`). Refused only where memory lacks.
    pub fn open(alloc: Global, geometry: Geometry) -> Result<Space<L>, OutOfMemory>
        ensures { IfOk result (IsNew geometry) }
    {
        let words = opening::<L>(alloc, geometry)?;
        let (table, seat) = Table::of_words(alloc, words.as_slice(), &geometry)?;
        Ok(Space {
            table,
            rest: Some(OwnSeat::new(seat)),
            geometry,
            drawn: 0,
            ended: 0,
        })
    }

    /// The sizes of the space.
    pub fn geometry(&self) -> Geometry
        ensures { result ≡ self.now.sizes }
    {
        self.geometry
    }

    /// How many numbers were drawn, at most 1,024.
    pub fn drawn(&self) -> u32
        ensures drawn { result ≡ self.now.drawn }
        ensures few { result ≤ 1024 }
    {
        self.drawn
    }

    /// How many passes are not given back yet.
    pub fn connected(&self) -> u32
        ensures connected { result ≡ self.now.drawn - length self.now.ended }
        ensures few { length self.now.ended ≤ self.now.drawn }
    {
        self.drawn - self.ended
    }

    /// Draws the next number, and gives its session's pass: nothing seen, held or granted, the phase
    /// free, and the scratch in it. Refused as `TooManySessions`, with 1,024, exactly where so many were drawn.
    /// Where memory lacks, no number is drawn.
    pub fn connect(&mut self, alloc: Global) -> Result<Pass, ConnectFault>
        ensures { HasConnected self.old self.new result }
    {
        if self.drawn >= MOST_SESSIONS {
            return Err(ConnectFault::TooManySessions { drawn: self.drawn });
        }
        let geometry = self.geometry;
        let Ok(room) = PassMemory::new(alloc, geometry.pages() + 2) else {
            return Err(ConnectFault::OutOfMemory);
        };
        let mut own = take_out(&mut self.rest);
        let seat = draw(&self.table.shared, &mut own);
        put_back(&mut self.rest, own);
        self.drawn += 1;
        Ok(room.into_pass(seat, geometry, self.drawn))
    }

    /// The session ends, and its lists are kept. It holds nothing, its phase is free, and its
    /// scratch is in the pass.
    pub fn disconnect(&mut self, pass: Pass)
        requires { IsAtRest self.old pass }
        ensures { HasDisconnected self.old pass self.new }
    {
        let mut own = take_out(&mut self.rest);
        leave(&self.table.shared, &mut own, pass.into_seat());
        put_back(&mut self.rest, own);
        self.ended += 1;
    }

    /// Afterwards `to` has seen what both had seen: the longer of the two lists, of which both are
    /// fronts. That tells it what a look at the log's end tells: what it had not seen before is harmless.
    /// What contracts see of `from` is as before.
    pub fn meet(&self, to: &mut Pass, from: &mut Pass)
        requires to { IsFrom self.now to.old }
        requires from { IsFrom self.now from.old }
        ensures { under_lawful L.Law self.now HasMet to.old from.old to.new from.new }
    {
        // For the proof: the law of logs speaks of the numbers of pages that a space has.
        let _ = self.geometry.pages();
        tell(&self.table.shared, &mut to.seat, &mut from.seat);
        let front = further((to.place, to.used), (from.place, from.used));
        to.place = front.0;
        to.used = front.1;
    }
}

// Of two fronts of the log, by entries and words, the longer one.
fn further(one: (u32, u32), other: (u32, u32)) -> (u32, u32)
    ensures { result ≡ if nat_lt one.0 other.0 then other else one }
{
    if one.0 < other.0 { other } else { one }
}
