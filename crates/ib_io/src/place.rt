//! Where a byte stands first.

ghost use Rattle.std.specs.Prelude.{◌≤◌, length, take};
ghost use Rattle.ib_io.specs.Places.{IsFirstPlace};

use std::simd::prelude::*;

// Where the byte stands first among the first 16, which are looked at together.
#[inline(always)]
fn place_in_sixteen(byte: u8, text: &[u8]) -> Option<usize>
    requires { 16 ≤ length text.now }
    ensures { IsFirstPlace byte (take 16 text.now) result }
{
    let marks = u8x16::from_slice(text)
        .simd_eq(u8x16::splat(byte))
        .to_bitmask();
    if marks == 0 {
        return None;
    }
    Some(marks.trailing_zeros() as usize)
}

// The same among the first 8.
#[inline(always)]
fn place_in_eight(byte: u8, text: &[u8]) -> Option<usize>
    requires { 8 ≤ length text.now }
    ensures { IsFirstPlace byte (take 8 text.now) result }
{
    let marks = u8x8::from_slice(text)
        .simd_eq(u8x8::splat(byte))
        .to_bitmask();
    if marks == 0 {
        return None;
    }
    Some(marks.trailing_zeros() as usize)
}

// The same among all, which are looked at one by one.
#[inline(always)]
fn place_one_by_one(byte: u8, text: &[u8]) -> Option<usize>
    ensures { IsFirstPlace byte text.now result }
{
    for place in 0..text.len() {
        if text[place] == byte {
            return Some(place);
        }
    }
    None
}

// The same among all, which are few.
#[inline(always)]
fn place_in_few(byte: u8, text: &[u8]) -> Option<usize>
    ensures { IsFirstPlace byte text.now result }
{
    if text.len() < 8 {
        return place_one_by_one(byte, text);
    }
    if let Some(place) = place_in_eight(byte, text) {
        return Some(place);
    }
    let place = place_one_by_one(byte, &text[8..])?;
    Some(8 + place)
}

/// Where the byte stands first.
#[inline(always)]
pub fn place_of(byte: u8, text: &[u8]) -> Option<usize>
    ensures { IsFirstPlace byte text.now result }
{
    let mut at = 0;
    while 16 <= text.len() - at {
        if let Some(place) = place_in_sixteen(byte, &text[at..]) {
            return Some(at + place);
        }
        at += 16;
    }
    let place = place_in_few(byte, &text[at..])?;
    Some(at + place)
}
