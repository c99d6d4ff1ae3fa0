//! The worked row of cells, and a sleeper that was woken before it sleeps.

use ib_levels::Latch;
use ib_wait::{Cell, Cells, NoCell, Sleepers, WaitArray, Wish};
use std::alloc::Global;

fn cell(session: u32) -> Cell {
    Cell {
        latch: Latch::INDEX,
        wish: Wish::S,
        session,
        generation: 7,
    }
}

#[test]
fn the_cell_returned_last_comes_first(rt: HostRuntime) {
    let mut cells = Cells::with_room(rt.alloc(), 2).expect(&rt, "there is memory");
    assert_eq!(rt; cells.reserve(cell(1)), Ok(0));
    assert_eq!(rt; cells.reserve(cell(2)), Ok(1));
    assert_eq!(rt; cells.reserve(cell(3)), Err(NoCell { reserved: 2 }));
    assert_eq!(rt; cells.report(1), Some(cell(2)));
    assert_eq!(rt; cells.free(0), cell(1));
    assert_eq!(rt; cells.report(0), None);
    assert_eq!(rt; cells.free(1), cell(2));
    assert_eq!(rt; cells.reserve(cell(4)), Ok(1));
    assert_eq!(rt; cells.report(2), None);
    assert_eq!(rt; cells.reserved(), 1);
    assert_eq!(rt; cells.ever(), 3);
}

#[test]
fn who_was_woken_does_not_sleep(rt: HostRuntime) {
    let mut sleepers = Sleepers::new(rt.alloc());
    assert!(rt; sleepers.is_empty());
    sleepers.add().expect(&rt, "there is memory");
    sleepers.add().expect(&rt, "there is memory");
    sleepers.wake_all();
    // Each sleeps on a parker of its own: on one alone the second sleep would not end.
    assert_eq!(rt; sleepers.len(), 2);
    sleepers.sleep(&rt, 1);
    sleepers.sleep(&rt, 2);
}

#[test]
fn the_array_counts_its_reservations(rt: HostRuntime) {
    let array = WaitArray::new(rt.alloc(), 4).expect(&rt, "there is memory");
    let place = array.lend(&rt).reserve(cell(1));
    assert!(rt; place.is_ok());
    assert_eq!(rt; array.ever(&rt), 1);
    assert_eq!(rt; array.reserved(&rt), 1);
}
