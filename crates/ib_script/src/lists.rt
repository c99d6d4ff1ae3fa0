//! The commands of each session, in a list of lists.

ghost use Rattle.std.specs.Prelude.{◌≡◌, ◌≤◌, max, vec_len, OnOk};
ghost use Rattle.ib_script.specs.Lists.{lists_of, with_command, with_sessions};

use ib_map::Call;
use std::alloc::{AllocError, Global};

// An empty list for each session up to this one that has none.
fn add_sessions(alloc: Global, lists: &mut Vec<Vec<Call>>, session: usize) -> Result<(), AllocError>
    ensures lists { OnOk result (lists_of lists.new.items ≡ with_sessions session (lists_of lists.old.items)) }
    ensures at_least { OnOk result (session ≤ vec_len lists.new) }
    ensures at_most { vec_len lists.new ≤ max session (vec_len lists.old) }
{
    while lists.len() < session {
        lists.push(Vec::new(alloc))?;
    }
    Ok(())
}

// A command at the end of a session's list.
#[inline(always)]
fn push_to(lists: &mut Vec<Vec<Call>>, session: usize, call: Call) -> Result<(), AllocError>
    requires least { 1 ≤ session }
    requires most { session ≤ vec_len lists.old }
    ensures lists { OnOk result (lists_of lists.new.items ≡ with_command session call (lists_of lists.old.items)) }
    ensures same_sessions { vec_len lists.new ≡ vec_len lists.old }
{
    lists[session - 1].push(call)?;
    Ok(())
}

// The same, where the session may have no list yet.
#[inline(always)]
pub fn add_command(
    alloc: Global,
    lists: &mut Vec<Vec<Call>>,
    session: usize,
    call: Call,
) -> Result<(), AllocError>
    requires { 1 ≤ session }
    ensures lists { OnOk result (lists_of lists.new.items ≡ with_command session call (with_sessions session (lists_of lists.old.items))) }
    ensures at_most { vec_len lists.new ≤ max session (vec_len lists.old) }
{
    add_sessions(alloc, lists, session)?;
    push_to(lists, session, call)
}
