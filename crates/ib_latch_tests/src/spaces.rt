//! Sessions of a space, from its opening to its end.

ghost use Rattle.std.specs.Prelude.{◌≡◌, []};

use ib_layout::Geometry;
use ib_levels::{Latch, Mode};
use ib_logrec::AnyLaw;
use ib_page::Image;
use ib_rule::Space;
use std::alloc::Global;
use std::process::Abort;

// A space of 16 pages, with the shortest log.
fn smallest(rt: &impl Abort, alloc: Global) -> Space<AnyLaw>
    ensures drawn { result.drawn ≡ 0 }
    ensures ended { result.ended ≡ [] }
{
    let sizes = Geometry::new(16, 8196).expect(rt, "there are such sizes");
    Space::open(alloc, sizes).expect(rt, "there is memory")
}

#[test]
fn a_space_opens_and_closes_with_an_empty_log(rt: HostRuntime) {
    let mut space = smallest(&rt, rt.alloc());
    let mut one = space.connect(rt.alloc()).expect(&rt, "a session");
    let mut two = space.connect(rt.alloc()).expect(&rt, "a session");
    assert_eq!(rt; (one.number(), two.number(), space.connected()), (1, 2, 2));
    assert_eq!(rt; (one.place(), one.made(), one.grants_held()), (0, 0, 0));
    space.meet(&mut one, &mut two);
    space.disconnect(one);
    space.disconnect(two);
    let closed = match space.close(rt.alloc()) {
        Ok(closed) => closed,
        Err(refused) => {
            refused.space.discard();
            panic!(rt; "there is memory")
        }
    };
    assert_eq!(rt; (closed.sessions(), closed.log().len()), (2, 0));
    assert_eq!(rt; closed.page(1).word(0), 0);
}

#[test]
fn the_scratch_comes_back_emptied(rt: HostRuntime) {
    let mut space = smallest(&rt, rt.alloc());
    let mut one = space.connect(rt.alloc()).expect(&rt, "a session");
    let mut scratch = one.take_scratch();
    assert!(rt; scratch.work.is_empty());
    assert!(rt; scratch.memo.is_empty());
    scratch.work.add(3, &Image::leaf(0));
    // There is room, so the call does not fail.
    let _ = scratch.memo.push((Latch::INDEX, Mode::S));
    one.put_scratch(scratch);
    let scratch = one.take_scratch();
    assert!(rt; scratch.work.is_empty());
    assert!(rt; scratch.memo.is_empty());
    one.put_scratch(scratch);
    space.disconnect(one);
    space.discard();
}
