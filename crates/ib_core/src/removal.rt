//! An item goes from a list in which mostly one other stands behind it at most.

ghost use Rattle.std.specs.Prelude.{◌≡◌, ◌+◌, ◌<◌, Some, length, remove, slice_get, slice_index_or, slice_set, vec_len, vec_capacity};

// The next item is written over the one at the place.
#[inline(always)]
fn write_next<T: Copy>(items: &mut [T], at: usize)
    requires { at + 1 < length items.old }
    ensures { (d : T) → items.new
        ≡ slice_set items.old at (slice_index_or items.old (at + 1) d) }
{
    items[at] = items[at + 1];
}

// The same in a list.
#[inline(always)]
fn copy_next<T: Copy>(items: &mut Vec<T>, at: usize)
    requires { at + 1 < length items.old.items }
    ensures items { (d : T) → items.new.items
        ≡ slice_set items.old.items at (slice_index_or items.old.items (at + 1) d) }
    ensures len { vec_len items.new ≡ vec_len items.old }
    ensures capacity { vec_capacity items.new ≡ vec_capacity items.old }
{
    write_next(items.as_mut_slice(), at);
}

/// Takes out the item at the place, and those behind it move down: with at most one of these, it is
/// cheaper than `Vec::remove`.
#[inline(always)]
pub fn take_out<T: Copy>(items: &mut Vec<T>, at: usize) -> T
    requires { at < length items.old.items }
    ensures item { slice_get items.old.items at ≡ Some result }
    ensures rest { items.new.items ≡ remove items.old.items at }
    ensures capacity { vec_capacity items.new ≡ vec_capacity items.old }
{
    let item = items[at];
    let behind = items.len() - at;
    if behind == 1 {
        items.pop();
    } else if behind == 2 {
        copy_next(items, at);
        items.pop();
    } else {
        items.remove(at);
    }
    item
}
