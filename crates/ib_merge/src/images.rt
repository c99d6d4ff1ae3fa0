//! Two pages of the tree as one (`btr_compress`, `btr_lift_page_up`).

ghost use Rattle.std.specs.Prelude.{◌≡◌, ◌≤◌, ◌+◌, ◌++◌, length};
ghost use Rattle.ib_map.specs.Keys.{end_rank};
ghost use Rattle.ib_map.specs.Pairs.{Rises};
ghost use Rattle.ib_heap.specs.declared.TheConstants.{MOST_RECORDS};
ghost use Rattle.ib_heap.specs.Filled.{filled};
ghost use Rattle.ib_heap.specs.Heap.{read_heap};
ghost use Rattle.ib_page.specs.Form.{page_of};
ghost use Rattle.ib_page.specs.Image.{IsTreePage, IsFormed, level_of, records_of};
ghost use Rattle.ib_walk.specs.Words.{state_of};
ghost use Rattle.ib_plans.specs.Merge.{joined, lowered};

use ib_page::Image;

// The left one of two pages of a level takes the records of the right one, and its link.
pub(crate) fn join_images(left: &mut Image, right: &Image)
    requires tree { IsTreePage left.old }
    requires right_tree { IsTreePage right.now }
    requires level { level_of left.old ≡ level_of right.now }
    requires few { length (records_of left.old) + length (records_of right.now) ≤ MOST_RECORDS }
    requires ascends { Rises 0 (records_of left.old ++ records_of right.now) end_rank }
    ensures state { state_of (page_of left.new) ≡ joined (state_of (page_of left.old)) (state_of (page_of right.now)) }
    ensures tree { IsTreePage left.new }
    ensures heap { read_heap left.new ≡ filled (length (records_of left.old) + length (records_of right.now)) }
{
    let prev = left.prev();
    left.join(right);
    left.set_links(prev, right.next());
}

// A root takes the level and the records of its child.
pub(crate) fn lower_image(root: &mut Image, child: &Image)
    requires formed { IsFormed root.old }
    requires child_tree { IsTreePage child.now }
    ensures state { state_of (page_of root.new) ≡ lowered (state_of (page_of root.old)) (state_of (page_of child.now)) }
    ensures tree { IsTreePage root.new }
    ensures heap { read_heap root.new ≡ filled (length (records_of child.now)) }
{
    *root = Image::empty(child.level(), root.clock());
    root.join(child);
}
