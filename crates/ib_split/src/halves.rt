//! A page that has one record too many, as two halves (`btr_page_get_split_rec`, `btr_attach_half_pages`).

ghost use Rattle.std.specs.Prelude.{◌≡◌, ◌≢◌, ◌<◌, ◌^◌, ◌+◌, ◌-◌, ◌==◌, ◌↔◌, if◌then◌else◌, [], ◌∷◌, length, None, IsNone, IsSome, OnOk};
ghost use Rattle.ib_map.specs.Keys.{rank, least};
ghost use Rattle.ib_map.specs.Pairs.{put, index_of, value_at};
ghost use Rattle.ib_heap.specs.declared.TheConstants.{MOST_LEVEL, MOST_RECORDS};
ghost use Rattle.ib_heap.specs.Filled.{filled};
ghost use Rattle.ib_heap.specs.Heap.{read_heap};
ghost use Rattle.ib_page.specs.Form.{page_of};
ghost use Rattle.ib_page.specs.Page.PageValue.{Tree};
ghost use Rattle.ib_page.specs.Image.{IsTreePage, level_of, prev_of, next_of, clock_of, records_of, value_with_records, with_links};
ghost use Rattle.ib_walk.specs.Words.{state_of};
ghost use Rattle.ib_plans.specs.declared.TheConstants.{LEFT_RECORDS};
ghost use Rattle.ib_plans.specs.Split.{left_part, right_part, first_key, lower_half, upper_half, raised_left, raised_right, raised_root};
ghost use Rattle.ib_plans.specs.Agreement.{tick};
ghost use Rattle.ib_split.specs.Inserts.{with_record};

use ib_map::Key;
use ib_page::{Image, PageFault};
use ib_plans::LEFT_RECORDS;

// A full page to which a record belongs is split: the lower half stays, and the upper half goes to the page at its right,
// an empty one of its level. Both clocks tick. It answers the right page's first key.
pub(crate) fn split_images(
    left: &mut Image,
    right: &mut Image,
    page: u32,
    fresh: u32,
    key: Key,
    value: u64,
) -> Key
    requires tree { IsTreePage left.old }
    requires full { length (records_of left.old) ≡ MOST_RECORDS }
    requires absent { value_at key (records_of left.old) ≡ None }
    requires empty { page_of right.old ≡ Tree (record { level = level_of left.old; prev = 0; next = 0; clock = clock_of right.old; records = [] }) }
    requires clock { clock_of left.old < 2 ^ 63 }
    requires right_clock { clock_of right.old < 2 ^ 63 }
    ensures left { state_of (page_of left.new) ≡ tick (lower_half (with_record key value (state_of (page_of left.old))) fresh) }
    ensures right { state_of (page_of right.new) ≡ tick (upper_half (with_record key value (state_of (page_of left.old))) page (clock_of right.old)) }
    ensures tree { IsTreePage left.new }
    ensures right_tree { IsTreePage right.new }
    ensures left_heap { read_heap left.new ≡ filled LEFT_RECORDS }
    ensures right_heap { read_heap right.new ≡ filled (MOST_RECORDS + 1 - LEFT_RECORDS) }
    ensures key { result ≡ first_key (right_part (put key value (records_of left.old))) }
{
    halve(left, right, key, value);
    link(left, right, page, fresh);
    left.touch();
    right.touch();
    first_key(right)
}

// A full root to which a record belongs is raised: its records and this one go to two empty pages of its level, and it has a
// record for each. All clocks tick.
pub(crate) fn raise_images(
    root: &mut Image,
    low: &mut Image,
    high: &mut Image,
    left: u32,
    right: u32,
    key: Key,
    value: u64,
)
    requires tree { IsTreePage root.old }
    requires full { length (records_of root.old) ≡ MOST_RECORDS }
    requires absent { value_at key (records_of root.old) ≡ None }
    requires lowest { level_of root.old < MOST_LEVEL }
    requires no_prev { prev_of root.old ≡ 0 }
    requires no_next { next_of root.old ≡ 0 }
    requires low_empty { page_of low.old ≡ Tree (record { level = level_of root.old; prev = 0; next = 0; clock = clock_of low.old; records = [] }) }
    requires high_empty { page_of high.old ≡ Tree (record { level = level_of root.old; prev = 0; next = 0; clock = clock_of high.old; records = [] }) }
    requires clock { clock_of root.old < 2 ^ 63 }
    requires low_clock { clock_of low.old < 2 ^ 63 }
    requires high_clock { clock_of high.old < 2 ^ 63 }
    ensures root { state_of (page_of root.new) ≡ tick (raised_root (with_record key value (state_of (page_of root.old))) left right) }
    ensures low { state_of (page_of low.new) ≡ tick (raised_left (with_record key value (state_of (page_of root.old))) right (clock_of low.old)) }
    ensures high { state_of (page_of high.new) ≡ tick (raised_right (with_record key value (state_of (page_of root.old))) left (clock_of high.old)) }
    ensures root_tree { IsTreePage root.new }
    ensures low_tree { IsTreePage low.new }
    ensures high_tree { IsTreePage high.new }
    ensures root_heap { read_heap root.new ≡ filled 2 }
    ensures low_heap { read_heap low.new ≡ filled LEFT_RECORDS }
    ensures high_heap { read_heap high.new ≡ filled (MOST_RECORDS + 1 - LEFT_RECORDS) }
{
    root.cut(0, low);
    halve(low, high, key, value);
    link_two(low, high, left, right);
    give_children(root, left, first_key(high), right);
    low.touch();
    high.touch();
}

// A page that has no records and no links goes up a level, with a record for each of two pages below it. Its clock ticks.
fn give_children(root: &mut Image, left: u32, first: Key, right: u32)
    requires tree { IsTreePage root.old }
    requires empty { records_of root.old ≡ [] }
    requires empty_heap { read_heap root.old ≡ filled 0 }
    requires above { rank least < rank first }
    requires lowest { level_of root.old < MOST_LEVEL }
    requires no_prev { prev_of root.old ≡ 0 }
    requires no_next { next_of root.old ≡ 0 }
    requires clock { clock_of root.old < 2 ^ 63 }
    ensures page { page_of root.new ≡ Tree (record {
      level = level_of root.old + 1;
      prev = 0;
      next = 0;
      clock = clock_of root.old + 1;
      records = (least, left) ∷ (first, right) ∷ [];
    }) }
    ensures heap { read_heap root.new ≡ filled 2 }
{
    root.set_level(root.level() + 1);
    // The root has no record and the keys differ, so neither call fails.
    let _ = root.insert(Key::least(), left as u64);
    let _ = root.insert(first, right as u64);
    root.touch();
}

// The key of the first record.
fn first_key(image: &Image) -> Key
    requires tree { IsTreePage image.now }
    requires some { 0 < length (records_of image.now) }
    ensures { result ≡ first_key (records_of image.now) }
{
    image.record_at(0).0
}

// Of the records of a full page and one more, the first ones stay, and the others go to the page at its right, which has none.
pub(crate) fn halve(left: &mut Image, right: &mut Image, key: Key, value: u64)
    requires tree { IsTreePage left.old }
    requires right_tree { IsTreePage right.old }
    requires full { length (records_of left.old) ≡ MOST_RECORDS }
    requires empty { records_of right.old ≡ [] }
    requires absent { value_at key (records_of left.old) ≡ None }
    ensures left { page_of left.new ≡ value_with_records (left_part (put key value (records_of left.old))) (page_of left.old) }
    ensures right { page_of right.new ≡ value_with_records (right_part (put key value (records_of left.old))) (page_of right.old) }
    ensures left_heap { read_heap left.new ≡ filled LEFT_RECORDS }
    ensures right_heap { read_heap right.new ≡ filled (MOST_RECORDS + 1 - LEFT_RECORDS) }
{
    // Behind the cut each half has room for the record, so neither call fails.
    if place_in(left, key) < LEFT_RECORDS {
        left.cut(LEFT_RECORDS - 1, right);
        let _ = insert_anew(left, key, value);
    } else {
        left.cut(LEFT_RECORDS, right);
        let _ = insert_anew(right, key, value);
    }
}

// Puts a record in, and all records anew: those of a page that was split stand one behind the other.
fn insert_anew(image: &mut Image, key: Key, value: u64) -> Result<(), PageFault>
    requires { IsTreePage image.old }
    ensures inserted { OnOk result (page_of image.new ≡ value_with_records (put key value (records_of image.old)) (page_of image.old)) }
    ensures duplicate { (result ≡ Err PageFault.Duplicate) ↔ IsSome (value_at key (records_of image.old)) }
    ensures full { (result ≡ Err PageFault.PageFull) ↔ (IsNone (value_at key (records_of image.old)) × (length (records_of image.old) ≡ MOST_RECORDS)) }
    ensures never_missing { result ≢ Err PageFault.Missing }
    ensures heap { OnOk result (read_heap image.new ≡ filled (length (records_of image.old) + 1)) }
{
    let result = image.insert(key, value);
    image.reorganize();
    result
}

// How many records of a page stand before a key.
fn place_in(image: &Image, key: Key) -> usize
    requires { IsTreePage image.now }
    ensures { result ≡ index_of key (records_of image.now) }
{
    match image.find(key) {
        Ok(place) => place,
        Err(place) => place,
    }
}

// A leaf is linked to the fresh leaf behind it, and that one between it and the leaf that was behind it. Nodes have no links.
fn link(left: &mut Image, right: &mut Image, page: u32, fresh: u32)
    requires tree { IsTreePage left.old }
    requires right_tree { IsTreePage right.old }
    requires level { level_of right.old ≡ level_of left.old }
    requires alone { next_of right.old ≡ 0 }
    ensures left { page_of left.new ≡ with_links (prev_of left.old) (if level_of left.old == 0 then fresh else next_of left.old) (page_of left.old) }
    ensures right { page_of right.new ≡ with_links (if level_of left.old == 0 then page else prev_of right.old) (if level_of left.old == 0 then next_of left.old else 0) (page_of right.old) }
    ensures left_heap { read_heap left.new ≡ read_heap left.old }
    ensures right_heap { read_heap right.new ≡ read_heap right.old }
{
    if left.level() == 0 {
        let next = left.next();
        left.set_links(left.prev(), fresh);
        right.set_links(page, next);
    }
}

// Two leaves that stand alone are linked. Nodes have no links.
fn link_two(low: &mut Image, high: &mut Image, left: u32, right: u32)
    requires tree { IsTreePage low.old }
    requires high_tree { IsTreePage high.old }
    requires level { level_of high.old ≡ level_of low.old }
    requires low_alone { (prev_of low.old ≡ 0) × (next_of low.old ≡ 0) }
    requires high_alone { (prev_of high.old ≡ 0) × (next_of high.old ≡ 0) }
    ensures low { page_of low.new ≡ with_links 0 (if level_of low.old == 0 then right else 0) (page_of low.old) }
    ensures high { page_of high.new ≡ with_links (if level_of low.old == 0 then left else 0) 0 (page_of high.old) }
    ensures low_heap { read_heap low.new ≡ read_heap low.old }
    ensures high_heap { read_heap high.new ≡ read_heap high.old }
{
    if low.level() == 0 {
        low.set_links(0, right);
        high.set_links(left, 0);
    }
}
