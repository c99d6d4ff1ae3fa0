//! The change of a page that takes one pair, or loses one.

ghost use Rattle.std.specs.Prelude.{◌≡◌, ◌<◌, ◌^◌, None, length, IsSome};
ghost use Rattle.ib_map.specs.Pairs.{value_at};
ghost use Rattle.ib_heap.specs.declared.TheConstants.{MOST_RECORDS};
ghost use Rattle.ib_heap.specs.Heap.{read_heap};
ghost use Rattle.ib_page.specs.Form.{page_of};
ghost use Rattle.ib_page.specs.Image.{IsTreePage, clock_of, records_of};
ghost use Rattle.ib_walk.specs.Words.{state_of};
ghost use Rattle.ib_plans.specs.Moves.{IsMovedHeap, Puts, Takes};
ghost use Rattle.ib_planned_log.specs.LeafChange.{with_pair, without_pair};

use ib_map::Key;
use ib_page::Image;

/// Puts a pair into a leaf that has room for it.
pub fn put_pair(image: &mut Image, key: Key, value: u64)
    requires tree { IsTreePage image.old }
    requires missing { value_at key (records_of image.old) ≡ None }
    requires room { length (records_of image.old) < MOST_RECORDS }
    requires clock { clock_of image.old < 2 ^ 63 }
    ensures page { state_of (page_of image.new) ≡ with_pair key value (state_of (page_of image.old)) }
    ensures heap { IsMovedHeap (Puts key) (records_of image.old) (read_heap image.old) (read_heap image.new) }
{
    let _ = image.insert(key, value);
    image.touch();
}

/// Takes the pair of a key out of its leaf.
pub fn take_pair(image: &mut Image, key: Key)
    requires tree { IsTreePage image.old }
    requires there { IsSome (value_at key (records_of image.old)) }
    requires clock { clock_of image.old < 2 ^ 63 }
    ensures page { state_of (page_of image.new) ≡ without_pair key (state_of (page_of image.old)) }
    ensures heap { IsMovedHeap (Takes key) (records_of image.old) (read_heap image.old) (read_heap image.new) }
{
    let _ = image.remove(key);
    image.touch();
}
