//! The law of the form of a page, as a contract.

ghost use Rattle.ib_heap.specs.Laws.{FormLaw};

/// The law of the form, as a contract: what an image holds as a page of the tree is within the limits and its
/// records ascend, an image of a page is whole, and an empty leaf and a free page are what they are named.
pub fn heap_law()
    ensures { FormLaw }
{}
