//! What a work set counts, and pages and page 0 as a change uses them.

ghost use Rattle.std.specs.Prelude.{◌≡◌};
ghost use Rattle.ib_heap.specs.Image.{IsTreePage};

use crate::keys::key;
use ib_map::{Key, is_below};
use ib_page::{
    Image, MAPPED_PAGES, MOST_RECORDS, PageFault, Path, SpaceImage, WorkSet, child_in, level_in,
    opening_image, opening_word,
};
use std::process::Abort;
use std::test::Fail;

#[test]
fn counts_the_words_that_differ(rt: HostRuntime) -> Result<(), Fail> {
    let mut work = WorkSet::with_room(rt.alloc())?;
    work.add(3, &Image::leaf(0));
    assert_eq!(rt; work.changed(), 0);
    work.edit(3).insert(key(10), 100)?;
    assert_eq!(rt; work.changed(), 8);
    assert!(rt; work.image(4).is_none());
    Ok(())
}

#[test]
fn counts_the_clock(rt: HostRuntime) -> Result<(), Fail> {
    let mut work = WorkSet::with_room(rt.alloc())?;
    work.add(3, &Image::leaf(0));
    let image = work.edit(3);
    image.insert(key(10), 100)?;
    image.touch();
    assert_eq!(rt; work.changed(), 9);
    Ok(())
}

#[test]
fn writes_the_words_that_differ(rt: HostRuntime) -> Result<(), Fail> {
    let mut work = WorkSet::with_room(rt.alloc())?;
    *work.read_in(3) = Image::leaf(0);
    assert!(rt; work.image(3).is_some());
    work.edit(3).touch();
    assert_eq!(rt; work.changed(), 1);
    let mut out = [0; 4];
    let written = work.write_into(&mut out);
    assert_eq!(rt; written.count, 1);
    assert!(rt; !written.structural);
    assert_eq!(rt; out[0], 485);
    assert_eq!(rt; out[2], 0);
    Ok(())
}

#[test]
fn a_new_space_has_its_pages(rt: HostRuntime) {
    assert_eq!(rt; opening_word(1, 0, 0), 3);
    assert_eq!(rt; opening_word(1, 1, 0), 1);
    assert!(rt; SpaceImage::from_image(&opening_image(0)).is_formed(16));
    assert!(rt; opening_image(1).is_formed());
}

#[test]
fn page_0_ends_with_zeros(rt: HostRuntime) {
    let mut image = opening_image(0);
    image.set_word(64, 7);
    assert!(rt; SpaceImage::from_image(&image).is_formed(16));
    for index in [65, 128, 159] {
        let mut other = image;
        other.set_word(index, 7);
        assert!(rt; !SpaceImage::from_image(&other).is_formed(16));
    }
}

#[test]
fn a_path_has_its_pages(rt: HostRuntime) {
    let mut path = Path::new();
    path.push(1);
    path.push(7);
    assert_eq!(rt; path.last(), Some(7));
    assert_eq!(rt; path.pages().len(), 2);
}

#[test]
fn a_full_page_refuses(rt: HostRuntime) -> Result<(), Fail> {
    let mut leaf = Image::leaf(0);
    for number in 1..36 {
        leaf.insert(key(number), number)?;
    }
    assert_eq!(rt; leaf.insert(key(36), 1), Err(PageFault::PageFull));
    assert_eq!(rt; leaf.insert(key(35), 1), Err(PageFault::Duplicate));
    assert_eq!(rt; leaf.remove(key(99)), Err(PageFault::Missing));
    assert!(rt; leaf.is_formed());
    Ok(())
}

#[test]
fn any_order_gives_the_same_records(rt: HostRuntime) -> Result<(), Fail> {
    let mut rising = Image::leaf(0);
    for number in 1..36 {
        rising.insert(key(number), number)?;
    }
    let mut mixed = Image::leaf(0);
    for number in 1..36 {
        mixed.insert(key(number * 7 % 37), number * 7 % 37)?;
    }
    assert_eq!(rt; rising.len(), 35);
    assert_eq!(rt; mixed.len(), 35);
    let mut all = [(key(0), 0); MOST_RECORDS];
    let mut some = [(key(0), 0); MOST_RECORDS];
    assert_eq!(rt; rising.copy_between(key(7), key(30), &mut all), 24);
    assert_eq!(rt; mixed.copy_between(key(7), key(30), &mut some), 23);
    assert_eq!(rt; all[0], (key(7), 7));
    assert_eq!(rt; rising.get(key(30)), Some(30));
    Ok(())
}

#[test]
fn cuts_and_joins(rt: HostRuntime) -> Result<(), Fail> {
    let mut left = Image::leaf(0);
    for number in 1..36 {
        left.insert(key(number), number)?;
    }
    assert_eq!(rt; left.len(), 35);
    let mut none = Image::leaf(0);
    left.cut(35, &mut none);
    assert!(rt; none.is_empty());
    let mut right = Image::leaf(0);
    assert_eq!(rt; left.len(), 35);
    left.cut(18, &mut right);
    assert_eq!(rt; left.len(), 18);
    assert_eq!(rt; right.len(), 17);
    assert_eq!(rt; right.record_at(0), (key(19), 19));
    let mut all = Image::leaf(0);
    right.cut(0, &mut all);
    assert!(rt; right.is_empty());
    Ok(())
}

#[test]
fn the_last_page_has_a_bit(rt: HostRuntime) {
    let mut space = SpaceImage::opening(MAPPED_PAGES);
    assert_eq!(rt; space.lowest_free(MAPPED_PAGES), Some(2));
    assert!(rt; !space.is_taken(4095));
    space.take(4095);
    assert!(rt; space.is_taken(4095));
    assert_eq!(rt; space.free_count(MAPPED_PAGES), 4093);
    space.give(4095);
    assert_eq!(rt; space.free_count(MAPPED_PAGES), 4094);
}

#[test]
fn the_last_word_counts_in_part(rt: HostRuntime) {
    let mut space = SpaceImage::opening(100);
    assert_eq!(rt; space.free_count(100), 98);
    assert_eq!(rt; space.free_count(64), 62);
    assert!(rt; !space.is_taken(2));
    space.take(2);
    assert_eq!(rt; space.lowest_free(3), None);
    assert_eq!(rt; space.lowest_free(100), Some(3));
}

// The child of a key, where the first record is not above it.
fn child(rt: &impl Abort, image: &mut Image, key: Key) -> u64
    requires { IsTreePage image.old }
    ensures { image.new ≡ image.old }
{
    assert!(rt; image.len() > 0);
    assert!(rt; !is_below(key, image.record_at(0).0));
    child_in(image, key)
}

#[test]
fn a_key_is_led_to_its_child(rt: HostRuntime) -> Result<(), Fail> {
    let mut image = Image::empty(1, 0);
    image.insert(key(0), 7)?;
    image.insert(key(10), 8)?;
    image.insert(key(20), 9)?;
    assert_eq!(rt; level_in(&mut image), 1);
    assert_eq!(rt; child(&rt, &mut image, key(0)), 7);
    assert_eq!(rt; child(&rt, &mut image, key(9)), 7);
    assert_eq!(rt; child(&rt, &mut image, key(10)), 8);
    assert_eq!(rt; child(&rt, &mut image, key(21)), 9);
    Ok(())
}
