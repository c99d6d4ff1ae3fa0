//! Two leaves below a raised root, and their merge; fourteen leaves in a full space; a path that is full to the highest root, and a space with one free page.

ghost use Rattle.std.specs.Prelude.{◌+◌, ◌<◌, ◌≤◌, ◌^◌};
ghost use Rattle.ib_heap.specs.declared.TheConstants.{MOST_LEVEL};
ghost use Rattle.ib_page.specs.Image.{IsTreePage};

use crate::changes::check_path;
use crate::keys::key;
use crate::trial::{Shape, Trial};
use ib_map::{Key, OutOfMemory};
use ib_page::{Image, MOST_LEVEL, MOST_PATH, MOST_RECORDS, Path, WorkSet, opening_image};
use ib_plans::TreeFault;
use ib_split::{choose_pages, pages_needed};
use ib_validate::{Page, reading};
use std::alloc::Global;
use std::process::Abort;
use std::test::Fail;

// The tree of 16 pages behind inserts of 1 to 36.
fn two_leaves(rt: &impl Abort, alloc: Global) -> Result<Trial, OutOfMemory> {
    let mut trial = Trial::new(rt, alloc, 16)?;
    for n in 0..36 {
        trial.insert(rt, key(n + 1), n + 1);
    }
    trial.compare(rt, alloc)?;
    Ok(trial)
}

// Whether the records of a page are so many, of the numbers from this one on, with values equal to them.
fn has_keys(image: &Image, first: u64, count: usize) -> bool
    requires { first + count < 2 ^ 32 }
{
    if reading::count(&Page::test(image)) != count {
        return false;
    }
    for place in 0..count {
        let number = first + place as u64;
        if reading::record_at(&Page::test(image), place) != (key(number), number) {
            return false;
        }
    }
    true
}

// The links of a page, the one to the left first.
fn links(image: &Image) -> Option<(u32, u32)> {
    if !image.is_formed() {
        return None;
    }
    Some((image.prev(), image.next()))
}

#[test]
fn inserts_of_1_to_36(rt: HostRuntime) -> Result<(), Fail> {
    let trial = two_leaves(&rt, rt.alloc())?;
    assert_eq!(rt;
        trial.shape(&rt),
        Shape {
            level: 1,
            root: 2,
            free: 12
        }
    );
    let root = trial.page(&rt, 1);
    assert!(rt; reading::count(&Page::test(root)) == 2);
    assert_eq!(rt; reading::record_at(&Page::test(root), 0), (Key::least(), 2));
    assert_eq!(rt; reading::record_at(&Page::test(root), 1), (key(19), 3));
    assert!(rt; has_keys(trial.page(&rt, 2), 1, 18));
    assert_eq!(rt; links(trial.page(&rt, 2)), Some((0, 3)));
    assert!(rt; has_keys(trial.page(&rt, 3), 19, 18));
    assert_eq!(rt; links(trial.page(&rt, 3)), Some((2, 0)));
    Ok(())
}

#[test]
fn deletes_of_36_and_35(rt: HostRuntime) -> Result<(), Fail> {
    let mut trial = two_leaves(&rt, rt.alloc())?;
    trial.delete(&rt, key(36));
    assert!(rt; has_keys(trial.page(&rt, 3), 19, 17));
    trial.delete(&rt, key(35));
    trial.compare(&rt, rt.alloc())?;
    assert_eq!(rt;
        trial.shape(&rt),
        Shape {
            level: 0,
            root: 34,
            free: 14
        }
    );
    assert!(rt; has_keys(trial.page(&rt, 1), 1, 34));
    Ok(())
}

// The digit of a number below 10.
fn digit(number: u64) -> u8
    requires { number < 10 }
{
    b'0' + number as u8
}

// The key of the letter `k` and the three digits of a number.
fn key_of_digits(number: u64) -> Key
    requires { number < 1000 }
{
    let bytes = [
        b'k',
        digit(number / 100),
        digit(number / 10 % 10),
        digit(number % 10),
    ];
    Key::from_bytes(&bytes).unwrap_or(Key::least())
}

#[test]
fn inserts_of_k001_to_k270(rt: HostRuntime) -> Result<(), Fail> {
    let mut trial = Trial::new(&rt, rt.alloc(), 16)?;
    for number in 1..270 {
        trial.insert(&rt, key_of_digits(number), number);
    }
    let full = Shape {
        level: 1,
        root: 14,
        free: 0,
    };
    assert_eq!(rt; (trial.len(), trial.shape(&rt)), (269, full));
    // A further leaf would be needed.
    trial.insert(&rt, key_of_digits(270), 270);
    assert_eq!(rt; (trial.len(), trial.shape(&rt)), (269, full));
    trial.delete(&rt, key_of_digits(1));
    assert_eq!(rt; trial.len(), 268);
    trial.insert(&rt, key_of_digits(1), 5);
    assert_eq!(rt; (trial.len(), trial.shape(&rt)), (269, full));
    trial.compare(&rt, rt.alloc())?;
    Ok(())
}

// A page at this level with as many records as fit.
fn full_page(level: u32) -> Image
    requires { level ≤ MOST_LEVEL }
    ensures { IsTreePage result }
{
    let mut image = Image::empty(level, 0);
    for place in 0..MOST_RECORDS {
        let _ = image.insert(key(place as u64), 2);
    }
    image
}

// A work set with page 0 of a space in which the first pages are taken, as many as the bits of a number say.
fn work_with(rt: &impl Abort, alloc: Global, bits: u64) -> Result<WorkSet, OutOfMemory> {
    let mut work = WorkSet::with_room(alloc)?;
    let mut space = opening_image(0);
    space.set_word(0, bits);
    assert!(rt; work.is_empty());
    work.add(0, &space);
    Ok(work)
}

#[test]
fn a_full_path_up_to_the_highest_root(rt: HostRuntime) -> Result<(), Fail> {
    let mut work = work_with(&rt, rt.alloc(), 0)?;
    let mut path = Path::new();
    for depth in 0..MOST_LEVEL + 1 {
        let page = depth + 1;
        assert!(rt; work.len() < 9 && work.image(page).is_none());
        assert!(rt; path.len() < MOST_PATH);
        work.add(page, &full_page(MOST_LEVEL - depth));
        path.push(page);
    }
    check_path(&rt, &work, &path);
    assert!(rt; !path.is_empty());
    assert!(rt; pages_needed(&work, &path, 1) == Err(TreeFault::TooHigh));
    Ok(())
}

#[test]
fn one_free_page_where_two_are_needed(rt: HostRuntime) -> Result<(), Fail> {
    let work = work_with(&rt, rt.alloc(), 0x7fff)?;
    check_path(&rt, &work, &Path::new());
    assert!(rt;
        choose_pages(&work, 16, 2).err() == Some(TreeFault::NeedPages { free: 1, need: 2 })
    );
    assert!(rt; choose_pages(&work, 16, 1).is_ok_and(|path| path.pages() == [15].as_slice()));
    Ok(())
}
