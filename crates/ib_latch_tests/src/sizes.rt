//! Sizes at their limits, and the words of the smallest and of the largest space.

use ib_layout::{Geometry, LayoutFault};
use std::test::Fail;

#[test]
fn sizes_are_tried_at_their_limits(rt: HostRuntime) {
    assert_eq!(rt;
        Geometry::new(15, 8196).err(),
        Some(LayoutFault::BadPages { given: 15 })
    );
    assert_eq!(rt;
        Geometry::new(16, 8195).err(),
        Some(LayoutFault::BadLog { given: 8195 })
    );
    assert_eq!(rt;
        Geometry::new(4096, 16_777_216).ok(),
        Some(Geometry::largest())
    );
}

#[test]
fn the_smallest_space_has_its_words(rt: HostRuntime) -> Result<(), Fail> {
    let smallest = Geometry::new(16, 8196)?;
    assert_eq!(rt; smallest.words(), 10_848);
    assert_eq!(rt; smallest.page_place(1, 2), 254);
    assert_eq!(rt; smallest.log_place(0), 2652);
    Ok(())
}

#[test]
fn the_largest_space_has_its_words(rt: HostRuntime) {
    let largest = Geometry::largest();
    assert_eq!(rt; largest.words(), 17_453_068);
    assert_eq!(rt; largest.log_place(0), 675_852);
}
