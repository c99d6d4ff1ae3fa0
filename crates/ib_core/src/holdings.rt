//! The list of what a session holds, in order of taking: reads and changes of what is on one latch.

ghost use Rattle.std.specs.Prelude.{◌≡◌, ℕ, ◌+◌, ◌^◌, ◌<◌, ◌≤◌, ◌==◌, if◌then◌else◌, ◌∷◌, ◌++◌, [], find, position, length, IfSome, vec_len, vec_capacity};
ghost use Rattle.ib_levels.specs.Holding.{changed_on, on, without_latch};
ghost use Rattle.ib_core.specs.HeldAt.{IsHeldAt};
ghost use Rattle.ib_core.specs.Takings.{count_of, level_on, one_fewer, one_more};

use crate::removal::take_out;
use ib_levels::{Holding, Latch, Level, Mode};

/// The grants of one session on one latch, by mode. A reservation of X counts as a grant of X.
#[derive(Clone, Copy, PartialEq, Eq, Debug)]
pub struct Counts {
    pub s: u32,
    pub sx: u32,
    pub x: u32,
}

// The grants of one session on one latch, and the place in its list of the holding that has them,
// where there is one.
#[derive(Clone, Copy)]
pub(crate) struct Found {
    pub(crate) at: usize,
    pub(crate) s: u32,
    pub(crate) sx: u32,
    pub(crate) x: u32,
}

// What is held on the latch: the first holding of the list on it.
pub(crate) fn holding_on(held: &[Holding], latch: Latch) -> Option<Holding>
    ensures { result ≡ find (λ h. h.latch.0 == latch.0) held.now }
{
    held.iter().copied().find(|h| h.latch == latch)
}

// The grants on the latch: none where it is not held.
pub(crate) fn grants_on(held: &[Holding], latch: Latch) -> Counts
    requires { on latch.0 (λ h. 1) held.now ≤ 1 }
    ensures s { result.s ≡ on latch.0 (λ h. h.s) held.now }
    ensures sx { result.sx ≡ on latch.0 (λ h. h.sx) held.now }
    ensures x { result.x ≡ on latch.0 (λ h. h.x) held.now }
{
    match holding_on(held, latch) {
        Some(h) => Counts {
            s: h.s,
            sx: h.sx,
            x: h.x,
        },
        None => Counts { s: 0, sx: 0, x: 0 },
    }
}

// The place of the first holding on the latch, None where it is not held.
#[inline(always)]
fn place_on(held: &[Holding], latch: Latch) -> Option<usize>
    ensures index { result ≡ position (λ h. h.latch.0 == latch.0) held.now }
    ensures within { IfSome result (λ at. at < length held.now) }
{
    held.iter().position(|h| h.latch == latch)
}

// The grants on the latch and the place of their holding, by one walk.
#[inline(always)]
pub(crate) fn found_on(held: &[Holding], latch: Latch) -> Found
    requires { on latch.0 (λ h. 1) held.now ≤ 1 }
    ensures s { result.s ≡ on latch.0 (λ h. h.s) held.now }
    ensures sx { result.sx ≡ on latch.0 (λ h. h.sx) held.now }
    ensures x { result.x ≡ on latch.0 (λ h. h.x) held.now }
    ensures index { 0 < result.s + result.sx + result.x → IsHeldAt latch.0 result.at held.now }
{
    match place_on(held, latch) {
        Some(at) => {
            let h = held[at];
            Found {
                at,
                s: h.s,
                sx: h.sx,
                x: h.x,
            }
        }
        None => Found {
            at: 0,
            s: 0,
            sx: 0,
            x: 0,
        },
    }
}

// The level of the latch's first acquisition, or this one where it is not held.
pub(crate) fn level_of(held: &[Holding], latch: Latch, level: Level) -> Level
    ensures { result ≡ level_on latch.0 level held.now }
{
    match holding_on(held, latch) {
        Some(h) => h.level,
        None => level,
    }
}

// The holding with one grant of the mode more, where it is on the latch.
fn with_one_more(h: Holding, latch: Latch, mode: Mode) -> Holding
    requires { h.latch.0 ≡ latch.0 → h.s + h.sx + h.x < 2 ^ 28 }
    ensures { result ≡ (if h.latch.0 == latch.0 then one_more mode h else h) }
{
    if h.latch != latch {
        return h;
    }
    match mode {
        Mode::S => Holding { s: h.s + 1, ..h },
        Mode::Sx => Holding { sx: h.sx + 1, ..h },
        Mode::X => Holding { x: h.x + 1, ..h },
    }
}

// The holding with one grant of the mode fewer, where it is on the latch.
fn with_one_fewer(h: Holding, latch: Latch, mode: Mode) -> Holding
    requires { h.latch.0 ≡ latch.0 → 0 < count_of mode h }
    ensures { result ≡ (if h.latch.0 == latch.0 then one_fewer mode h else h) }
{
    if h.latch != latch {
        return h;
    }
    match mode {
        Mode::S => Holding { s: h.s - 1, ..h },
        Mode::Sx => Holding { sx: h.sx - 1, ..h },
        Mode::X => Holding { x: h.x - 1, ..h },
    }
}

// Each holding on the latch has one grant of the mode more.
fn each_one_more(held: &mut [Holding], latch: Latch, mode: Mode)
    requires { on latch.0 (λ h. h.s + h.sx + h.x) held.old < 2 ^ 28 }
    ensures { held.new ≡ changed_on latch.0 (one_more mode) held.old }
{
    for h in held.iter_mut() {
        *h = with_one_more(*h, latch, mode);
    }
}

// Each holding on the latch has one grant of the mode fewer.
fn each_one_fewer(held: &mut [Holding], latch: Latch, mode: Mode)
    requires single { on latch.0 (λ h. 1) held.old ≤ 1 }
    requires has { 0 < on latch.0 (count_of mode) held.old }
    ensures { held.new ≡ changed_on latch.0 (one_fewer mode) held.old }
{
    for h in held.iter_mut() {
        *h = with_one_fewer(*h, latch, mode);
    }
}

// One grant of the mode more on the latch.
pub(crate) fn add_one(held: &mut Vec<Holding>, latch: Latch, mode: Mode)
    requires { on latch.0 (λ h. h.s + h.sx + h.x) held.old.items < 2 ^ 28 }
    ensures items { held.new.items ≡ changed_on latch.0 (one_more mode) held.old.items }
    ensures capacity { vec_capacity held.old ≡ vec_capacity held.new }
{
    each_one_more(held.as_mut_slice(), latch, mode);
}

// One grant of the mode fewer on the latch.
pub(crate) fn take_one(held: &mut Vec<Holding>, latch: Latch, mode: Mode)
    requires single { on latch.0 (λ h. 1) held.old.items ≤ 1 }
    requires has { 0 < on latch.0 (count_of mode) held.old.items }
    ensures items { held.new.items ≡ changed_on latch.0 (one_fewer mode) held.old.items }
    ensures capacity { vec_capacity held.old ≡ vec_capacity held.new }
{
    each_one_fewer(held.as_mut_slice(), latch, mode);
}

// Nothing is held on the latch any more, whose one holding stands at this place.
#[inline(always)]
pub(crate) fn give_up(held: &mut Vec<Holding>, latch: Latch, at: usize)
    requires single { on latch.0 (λ h. 1) held.old.items ≤ 1 }
    requires index { IsHeldAt latch.0 at held.old.items }
    ensures items { held.new.items ≡ without_latch latch.0 held.old.items }
    ensures capacity { vec_capacity held.new ≡ vec_capacity held.old }
{
    // For the proof: the contract alone asks for the latch.
    let _ = latch;
    take_out(held, at);
}

// The holding stands behind the others. There is room for it.
#[inline(always)]
pub(crate) fn add(held: &mut Vec<Holding>, holding: Holding)
    requires { vec_len held.old < vec_capacity held.old }
    ensures items { held.new.items ≡ held.old.items ++ holding ∷ [] }
    ensures capacity { vec_capacity held.old ≤ vec_capacity held.new }
{
    held.push_reserved(holding);
}
