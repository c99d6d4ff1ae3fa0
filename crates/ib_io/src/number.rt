//! Numbers as digits.

ghost use Rattle.std.specs.Prelude.{◌≡◌, ◌≤◌, ◌+◌, ◌-◌, ◌*◌, ◌^◌, ◌⊎◌, false, true, IfSome, IfNone, IfOk};
ghost use Rattle.ib_io.specs.Fields.{number_in, session_in};
ghost use Rattle.ib_io.specs.Numbers.{is_digit, is_headed, number_of};

use crate::line_kind::{LineKind, MOST_SCRIPT_SESSIONS};

// A number with one more digit, where the byte is one and the number fits.
fn with_digit(number: u64, byte: u8) -> Option<u64>
    ensures digit { IfSome result (λ more. (is_digit byte ≡ true) × (more ≡ 10 * number + (byte - 48))) }
    ensures none { IfNone result ((is_digit byte ≡ false) ⊎ (2 ^ 64 ≤ 10 * number + (byte - 48))) }
{
    if !byte.is_ascii_digit() {
        return None;
    }
    number.checked_mul(10)?.checked_add(u64::from(byte - b'0'))
}

fn is_headed(field: &[u8]) -> bool
    ensures { result ≡ is_headed field.now }
{
    match field {
        [] => false,
        [_] => true,
        [first, ..] => *first != b'0',
    }
}

// The number that a field spells: digits that do not begin with 0, or 0 alone.
// None for any other bytes, and above 18446744073709551615.
fn number_of(field: &[u8]) -> Option<u64>
    ensures { result ≡ number_of field.now }
{
    if !is_headed(field) {
        return None;
    }
    let mut number = 0;
    for byte in field {
        number = with_digit(number, *byte)?;
    }
    Some(number)
}

/// The number that a field is, at most 18446744073709551615: digits that do not begin with 0, or 0 alone.
/// `Number` for any other bytes.
pub fn number_in(field: &[u8]) -> Result<u64, LineKind>
    ensures { result ≡ number_in field.now }
{
    number_of(field).ok_or(LineKind::Number)
}

/// The session that a field names, 1 to `MOST_SCRIPT_SESSIONS`: `Number` where it is no number, `Session` where it is another one.
pub fn session_in(field: &[u8]) -> Result<u32, LineKind>
    ensures session { result ≡ session_in field.now }
    ensures in_range { IfOk result (λ session. (1 ≤ session) × (session ≤ MOST_SCRIPT_SESSIONS)) }
{
    match u32::try_from(number_in(field)?) {
        Ok(session @ 1..=MOST_SCRIPT_SESSIONS) => Ok(session),
        _ => Err(LineKind::Session),
    }
}
