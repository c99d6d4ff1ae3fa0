//! What the leaf on which a scan stands is to the chunk that it reads.

ghost use Rattle.std.specs.Prelude.{◌≡◌, ◌≤◌, [], ℕ, List, Some, length, take, MatchOption};
ghost use Rattle.ib_map.specs.Pairs.{cut};
ghost use Rattle.ib_page.specs.Image.{IsTreePage, records_of};
ghost use Rattle.ib_page.specs.Work.{changed_of};
ghost use Rattle.ib_walk.specs.Chunk.{IsLastKey};
ghost use Rattle.ib_mtr.specs.Mtr.{IsMtr};
ghost use Rattle.ib_scan.specs.Parts.{HasPut, IsPart};

use ib_latch::Sleep;
use ib_logrec::Law;
use ib_map::{Chunks, Key, is_below};
use ib_mtr::Mtr;
use ib_page::{Image, MOST_RECORDS};

/// What a leaf is to the chunk that begins at a key.
#[derive(Clone, Copy)]
pub enum Part {
    /// It gives none, and the leaf `next` is behind it.
    Passed { next: u32 },
    /// The chunk ends in it.
    Ends { end: Key },
}

// The last key of a leaf.
fn last_key(image: &Image) -> Option<Key>
    requires { IsTreePage image.now }
    ensures { MatchOption result (records_of image.now ≡ [])
        (λ last. IsLastKey (records_of image.now) last) }
{
    let len = image.len();
    if len == 0 {
        return None;
    }
    Some(image.record_at(len - 1).0)
}

// .. by the leaf's image. A chunk that begins at `start` ends at the leaf's last key, or at `high` where
// that is not above it or no leaf follows.
fn part_in(image: &Image, start: Key, high: Key) -> Part
    requires { IsTreePage image.now }
    ensures { IsPart start high image.now result }
{
    let next = image.next();
    if next == 0 {
        return Part::Ends { end: high };
    }
    match last_key(image) {
        None => Part::Passed { next },
        Some(last) => {
            if is_below(last, start) {
                return Part::Passed { next };
            }
            if is_below(last, high) {
                return Part::Ends { end: last };
            }
            Part::Ends { end: high }
        }
    }
}

/// What a leaf that is loaded is to the chunk that begins at `start`, of a scan up to `high`.
pub fn part_of<L: Law, S: Sleep>(mtr: &Mtr<'_, L, S>, leaf: u32, start: Key, high: Key) -> Part
    requires mtr { IsMtr mtr.now.latches.now mtr.now.pass.now }
    requires loaded { (image : List ℕ) × (changed_of leaf mtr.now.pass.now.work ≡ Some image)
        × IsTreePage image }
    ensures { (image : List ℕ) → changed_of leaf mtr.now.pass.now.work ≡ Some image
        → IsPart start high image result }
{
    let image = mtr.image(leaf).unwrap();
    part_in(image, start, high)
}

/// Appends a chunk that was read at a place, with what the leaf has from `start` to `end`, where there is
/// room for it: a chunk place, and as many pair places as it has pairs.
pub fn put<L: Law, S: Sleep>(
    mtr: &Mtr<'_, L, S>,
    leaf: u32,
    start: Key,
    end: Key,
    place: u32,
    out: &mut Chunks,
) -> bool
    requires mtr { IsMtr mtr.now.latches.now mtr.now.pass.now }
    requires loaded { (image : List ℕ) × (changed_of leaf mtr.now.pass.now.work ≡ Some image)
        × IsTreePage image }
    ensures { (image : List ℕ) → changed_of leaf mtr.now.pass.now.work ≡ Some image
        → HasPut (record {
          low = start;
          high = end;
          place = place;
          pairs = cut (records_of image) start end;
        }) result out.old out.new }
{
    let image = mtr.image(leaf).unwrap();
    let mut pairs = [(Key::least(), 0); MOST_RECORDS];
    let count = copy_part(image, start, end, &mut pairs);
    append_part(out, start, end, place, &pairs, count)
}

// Copies the records of a leaf from `start` to `end`, and says how many they are.
fn copy_part(image: &Image, start: Key, end: Key, pairs: &mut [(Key, u64)]) -> usize
    requires tree { IsTreePage image.now }
    requires room { length pairs.old ≡ MOST_RECORDS }
    ensures pairs { take result pairs.new ≡ cut (records_of image.now) start end }
    ensures count { result ≡ length (cut (records_of image.now) start end) }
    ensures few { result ≤ MOST_RECORDS }
    ensures size { length pairs.new ≡ MOST_RECORDS }
{
    // For the proof: a page has no more records.
    let _ = image.len();
    image.copy_between(start, end, pairs)
}

// Appends the chunk with the first `count` pairs, where there is room for it.
fn append_part(
    out: &mut Chunks,
    start: Key,
    end: Key,
    place: u32,
    pairs: &[(Key, u64)],
    count: usize,
) -> bool
    requires { count ≤ length pairs.now }
    ensures { HasPut (record {
      low = start;
      high = end;
      place = place;
      pairs = take count pairs.now;
    }) result out.old out.new }
{
    let (chunks, places) = out.room();
    if chunks == 0 || places < count {
        return false;
    }
    out.append(start, end, place, &pairs[..count]);
    true
}
