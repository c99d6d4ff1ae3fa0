//! Scripts that are generated.

ghost use Rattle.std.specs.Prelude.{◌≡◌, ◌≤◌, ◌<◌, ◌+◌, ◌/◌, ℕ, IfOk, Some, true, length, slice_get};
ghost use Rattle.ib_io.specs.declared.line_kind.TheConstants.{MOST_SCRIPT_SESSIONS};
ghost use Rattle.ib_script.specs.Generated.{IsGenerated, call_at, key_of, number_of, share_of};
ghost use Rattle.ib_script.specs.Loads.{is_load};
ghost use Rattle.ib_script.specs.Script.{IsSmall};
ghost use Rattle.ib_script.specs.declared.load.TheConstants.{MOST_GENERATED};

use crate::load::{Load, MOST_GENERATED};
use crate::script::Script;
use ib_io::MOST_SCRIPT_SESSIONS;
use ib_layout::Geometry;
use ib_map::{Call, Key};
use std::alloc::{AllocError, Global};

// How many commands a session has.
fn share_of(load: Load, session: u32) -> u32
    requires { is_load load.commands load.seed load.sessions ≡ true }
    ensures share { result ≡ share_of load session }
    ensures few { result ≤ load.commands / load.sessions + 1 }
{
    load.commands / load.sessions + u32::from(session <= load.commands % load.sessions)
}

// The number of a session's command.
fn number_of(load: Load, session: u32, at: u32) -> u64
    requires session { 1 ≤ session }
    requires few { session ≤ MOST_SCRIPT_SESSIONS }
    requires at { at < MOST_GENERATED }
    ensures { result ≡ number_of load session at }
{
    (u64::from(at) * 40503 + u64::from(load.seed)) % 65536 * 64 + u64::from(session - 1)
}

// Its key.
fn key_of(load: Load, session: u32, at: u32) -> Key
    requires session { 1 ≤ session }
    requires few { session ≤ MOST_SCRIPT_SESSIONS }
    requires at { at < MOST_GENERATED }
    ensures { result ≡ key_of load session at }
{
    Key::of_number(number_of(load, session, at))
}

// A session's command.
fn call_at(load: Load, session: u32, at: u32) -> Call
    requires load { is_load load.commands load.seed load.sessions ≡ true }
    requires session { 1 ≤ session }
    requires few { session ≤ MOST_SCRIPT_SESSIONS }
    requires at { at < MOST_GENERATED }
    ensures { result ≡ call_at load session at }
{
    let half = share_of(load, session) / 2;
    if at < half {
        return Call::Insert {
            key: key_of(load, session, at),
            value: u64::from(at),
        };
    }
    let back = at - half;
    let key = key_of(load, session, back);
    if back % 4 == 3 {
        Call::Get { key }
    } else {
        Call::Delete { key }
    }
}

// The commands of a session.
fn generated_calls(alloc: Global, load: Load, session: u32) -> Result<Vec<Call>, AllocError>
    requires load { is_load load.commands load.seed load.sessions ≡ true }
    requires session { 1 ≤ session }
    requires few { session ≤ MOST_SCRIPT_SESSIONS }
    ensures share { IfOk result (λ calls. length calls.items ≡ share_of load session) }
    ensures calls { IfOk result (λ calls. (at : ℕ) → at < share_of load session → slice_get calls.items at ≡ Some (call_at load session at)) }
{
    let mut calls = Vec::new(alloc);
    for at in 0..share_of(load, session) {
        calls.push(call_at(load, session, at))?;
    }
    Ok(calls)
}

/// The script that is generated: each session puts keys of its own in, and comes back to them in the same order, to take three of
/// four out again and look the fourth up.
pub fn generate(alloc: Global, load: Load) -> Result<Script, AllocError>
    requires { is_load load.commands load.seed load.sessions ≡ true }
    ensures script { IfOk result (IsGenerated load) }
    ensures small { IfOk result IsSmall }
{
    let mut sessions = Vec::new(alloc);
    for before in 0..load.sessions {
        sessions.push(generated_calls(alloc, load, before + 1)?)?;
    }
    Ok(Script::new(Geometry::largest(), sessions))
}
