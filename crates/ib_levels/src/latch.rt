//! The latches of a space, by number.

ghost use Rattle.std.specs.Prelude.{◌≡◌, ◌+◌, ◌<◌};

/// The most pages that a space has.
pub const MOST_PAGES: u32 = 4096;

// Clauses cite it by name: with another number the check fails here.
const _: () = prove!(MOST_PAGES == 4096);

/// A latch: the log's is 0, the index's is 1, and that of page p is p + 2.
#[derive(Clone, Copy, PartialEq, Eq, Debug)]
pub struct Latch(pub u32);

impl Latch {
    /// The latch of the log.
    pub const LOG: Latch = Latch(0);

    /// The latch of the index (dict_index_t::lock).
    pub const INDEX: Latch = Latch(1);

    /// The latch of a page (buf_block_t::lock). Pages are numbered from 0.
    pub fn page(p: u32) -> Latch
        requires { p < MOST_PAGES }
        ensures { result ≡ record { 0 = p + 2 } }
    {
        Latch(p + 2)
    }
}

/// The numbers of the latches that are no page's, as a contract. Both are below that of page 0.
pub fn latch_number_law()
    ensures log { Latch.LOG ≡ record { 0 = 0 } }
    ensures index { Latch.INDEX ≡ record { 0 = 1 } }
{}
