//! The table of guesses, with its own seat and its passes.

ghost use Rattle.std.specs.Prelude.{◌≡◌, ◌+◌, ◌<◌, ◌≤◌, true, None, IfOk, IsSome, Some};
ghost use Rattle.ib_map.specs.Space.{has_pages};
ghost use Rattle.ib_hash.specs.Guesses.{IsPassOf, drawn_pass};
ghost use Rattle.ib_hash.specs.Pass.{looked_at, stored_at};

use crate::own_seat::OwnSeat;
use crate::pass::GuessPass;
use crate::rule::{Draw, GuessRule, Leave};
use crate::slots::SLOTS;
use crate::steps::{load, store};
use crate::view::GuessSteps;
use atomic_table::{Seat, Table};
use std::alloc::{AllocError, Global};
use std::marker::{Brand, Model};

/// There was no memory.
pub type OutOfMemory = AllocError;

/// How many passes can be drawn.
pub const MOST_PASSES: u32 = 1024;

const _: () = prove!(MOST_PASSES == 1024);

/// The guesses that the sessions of a space share: `SLOTS` words, each 0, for no guess, or a page of the space.
pub struct Guesses {
    pub(crate) table: Table<(), GuessSteps, u32, GuessRule, Global>,
    pub(crate) rest: Option<OwnSeat>,
    pub(crate) pages: u32,
    pub(crate) drawn: u32,
}

impl Model for Guesses {
    ghost use Rattle.ib_hash.specs.Guesses.{GuessesState, guesses_state, IsGuesses};

    ghost Value = { GuessesState };

    ghost view = { λ g. guesses_state g };

    ghost invariant = { λ g. IsGuesses g };
}

// The seat, out of its place.
fn take_out(rest: &mut Option<OwnSeat>) -> Seat<(), GuessSteps>
    requires { IsSome rest.old }
    ensures seat { rest.old ≡ Some record { seat = result } }
    ensures none { rest.new ≡ None }
{
    let Some(rest) = rest.take() else {
        unreachable!()
    };
    rest.into_seat()
}

fn put_back(rest: &mut Option<OwnSeat>, seat: Seat<(), GuessSteps>)
    requires { rest.old ≡ None }
    ensures { rest.new ≡ Some record { seat = seat } }
{
    if let Some(other) = rest.replace(OwnSeat::new(seat)) {
        drop(other.into_seat());
    }
}

impl Guesses {
    /// A table for a space of so many pages, from 16 to 4,096, without a guess (`btr_search_sys_create`). Refused only
    /// where memory lacks.
    ///
    /// ```
    /// let mut index: Index = Index::open(alloc, geometry)?;
    /// let mut guesses = Guesses::open(alloc, geometry.pages())?;
    /// ```
    pub fn open(alloc: Global, pages: u32) -> Result<Guesses, OutOfMemory>
        requires { has_pages pages ≡ true }
        ensures { IfOk result (λ g. (g.pages ≡ pages) × (g.drawn ≡ 0)) }
    {
        let words = vec![in alloc; 0; SLOTS as usize]?;
        let (table, seat) = Table::of_words(alloc, words.as_slice(), &pages)?;
        Ok(Guesses {
            table,
            rest: Some(OwnSeat::new(seat)),
            pages,
            drawn: 0,
        })
    }

    /// How many passes were drawn, at most 1,024.
    pub fn drawn(&self) -> u32
        ensures drawn { result ≡ self.now.drawn }
        ensures few { result ≤ MOST_PASSES }
    {
        self.drawn
    }

    /// Draws a pass, which has made no step. It takes no memory.
    ///
    /// ```
    /// if guesses.drawn() < MOST_PASSES {
    ///     let mut gp = guesses.connect();
    ///     look_up_all(&guesses, &mut gp);
    ///     guesses.disconnect(gp);
    /// }
    /// ```
    pub fn connect(&mut self) -> GuessPass
        requires { self.old.drawn < MOST_PASSES }
        ensures pass { result ≡ drawn_pass self.old }
        ensures drawn { self.new ≡ record self.old { drawn = self.old.drawn + 1 } }
    {
        let mut own = take_out(&mut self.rest);
        let seat = self.table.shared.split_seat::<Draw>(&mut own);
        put_back(&mut self.rest, own);
        self.drawn += 1;
        GuessPass {
            seat,
            looked: None,
            stored: None,
        }
    }

    /// Takes a pass back that was drawn here. Its steps are forgotten.
    pub fn disconnect(&mut self, gp: GuessPass)
        requires { IsPassOf self.old gp }
        ensures { self.new ≡ self.old }
    {
        let mut own = take_out(&mut self.rest);
        self.table
            .shared
            .join_seat::<Leave>(&mut own, gp.into_seat());
        put_back(&mut self.rest, own);
    }

    // Loads the guess of a slot: 0, or a page of the space.
    pub(crate) fn load_guess(&self, gp: &mut GuessPass, slot: u32) -> u32
        requires own { IsPassOf self.now gp.old }
        requires slot { slot < SLOTS }
        ensures looked { gp.new ≡ looked_at slot result gp.old }
        ensures page { result < self.now.pages }
    {
        let word = load::<Brand>(&self.table.shared, &mut gp.seat, slot);
        gp.looked = Some((slot, word));
        word as u32
    }

    // Stores a page of the space as the guess of a slot.
    pub(crate) fn store_guess(&self, gp: &mut GuessPass, slot: u32, page: u32)
        requires own { IsPassOf self.now gp.old }
        requires slot { slot < SLOTS }
        requires page { page < self.now.pages }
        ensures { gp.new ≡ stored_at slot page gp.old }
    {
        store(&self.table.shared, &mut gp.seat, slot, page);
        gp.stored = Some((slot, u64::from(page)));
    }
}

impl Drop for Guesses {
    fn drop(self) {
        let Guesses {
            table,
            rest,
            pages: _,
            drawn: _,
        } = self;
        drop(table);
        if let Some(rest) = rest {
            drop(rest.into_seat());
        }
    }
}
