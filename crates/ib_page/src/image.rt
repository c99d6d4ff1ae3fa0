//! A page: how its records are found, put in and taken out, and how it is cut and joined (page0page,
//! page0cur).

ghost use Rattle.std.specs.Prelude.{List, ℕ, ◌≡◌, ◌+◌, ◌-◌, ◌*◌, ◌<◌, ◌≤◌, ◌^◌, ◌++◌, [], ◌∷◌, length, take, drop, slice_get, slice_index, slice_set, IsTrue, IsSomeAnd, ◌↔◌, Some};
ghost use Rattle.ib_map.specs.Keys.{rank, end_rank};
ghost use Rattle.ib_map.specs.Pairs.{Rises, cut, value_at, index_after};
ghost use Rattle.ib_map.specs.Writes.{write_words};
ghost use Rattle.ib_heap.specs.Page.PageValue.{Tree, Free};
ghost use Rattle.ib_heap.specs.Words.{free_page_words};
ghost use Rattle.ib_heap.specs.Heap.{read_heap};
ghost use Rattle.ib_heap.specs.Changes.{HasPut, HasRemoved};
ghost use Rattle.ib_heap.specs.Found.{IsFound, IsRouted};
ghost use Rattle.ib_heap.specs.Filled.{filled, empty_heap};
ghost use Rattle.ib_heap.specs.Form.{page_of, empty_leaf_words};
ghost use Rattle.ib_heap.specs.Image.{IsTreePage, IsFormed, level_of, prev_of, next_of, clock_of, records_of, value_with_records, with_links, with_level, value_with_clock};
ghost use Rattle.ib_page.specs.Kind.{kind_of};
ghost use Rattle.ib_page.specs.Writes.{AreSame, HasWritten, writes_below};

use ib_heap::{MOST_LEVEL, MOST_RECORDS, PageFault};
use ib_map::{Key, PAGE_WORDS};
use std::marker::Model;

// Images are compared by blocks of words: how many words a block has, and how many blocks a page.
const BLOCK_WORDS: usize = 8;

const BLOCKS: usize = PAGE_WORDS / BLOCK_WORDS;

const _: () = prove!(BLOCKS * BLOCK_WORDS == PAGE_WORDS);

/// What a page is used for.
#[derive(Clone, Copy, Debug, PartialEq, Eq)]
pub enum Kind {
    /// In no tree: it may be taken.
    Free,
    /// A page of the tree at level 0, with keys and their values.
    Leaf,
    /// A page of the tree at a level above 0, with keys and the children that they lead to.
    Node,
}

/// An image of a page: `PAGE_WORDS` words. It holds a free page, a page of the tree with its records in
/// ascending order of keys (page0page, page0cur), or nothing that can be read.
#[derive(Clone, Copy, Drop)]
pub struct Image {
    words: [u64; PAGE_WORDS],
}

impl Model for Image {
    ghost use Rattle.std.specs.Prelude.{List, ℕ};

    ghost Value = { List ℕ };

    ghost view = { λ i. i.words };

    ghost inverse = { λ ws. record { words = ws } };
}

impl Image {
    /// A page of the tree with no record and no link, at a level of 0 to `MOST_LEVEL` (`page_create`).
    pub fn empty(level: u32, clock: u64) -> Image
        requires { level ≤ MOST_LEVEL }
        ensures page { page_of result ≡ Tree (record { level = level; prev = 0; next = 0; clock = clock; records = [] }) }
        ensures words { level ≡ 0 → result ≡ empty_leaf_words clock }
        ensures heap { read_heap result ≡ empty_heap }
    {
        Image {
            words: ib_heap::empty_page(level, clock),
        }
    }

    /// An empty leaf.
    pub fn leaf(clock: u64) -> Image
        ensures page { page_of result ≡ Tree (record { level = 0; prev = 0; next = 0; clock = clock; records = [] }) }
        ensures words { result ≡ empty_leaf_words clock }
        ensures heap { read_heap result ≡ empty_heap }
    {
        Image::empty(0, clock)
    }

    /// A free page.
    pub fn free(clock: u64) -> Image
        ensures page { page_of result ≡ Free clock }
        ensures words { result ≡ free_page_words clock }
    {
        Image {
            words: ib_heap::free_page(clock),
        }
    }

    /// Whether the image holds a page, free or of the tree (`page_simple_validate_new`).
    pub fn is_formed(&self) -> bool
        ensures { IsTrue result ↔ IsFormed self.now }
    {
        ib_heap::is_formed(&self.words)
    }

    /// Whether the page is free, a leaf or a node.
    pub fn kind(&self) -> Kind
        requires { IsFormed self.now }
        ensures { result ≡ kind_of (page_of self.now) }
    {
        if !ib_heap::is_tree(&self.words) {
            Kind::Free
        } else if ib_heap::level(&self.words) == 0 {
            Kind::Leaf
        } else {
            Kind::Node
        }
    }

    /// The level, 0 to `MOST_LEVEL`: 0 for a leaf, and for a free page (`btr_page_get_level`).
    pub fn level(&self) -> u32
        requires { IsFormed self.now }
        ensures level { result ≡ level_of self.now }
        ensures low { result ≤ MOST_LEVEL }
    {
        ib_heap::level(&self.words)
    }

    /// How many records the page has, at most `MOST_RECORDS` (`page_get_n_recs`).
    pub fn len(&self) -> usize
        requires { IsFormed self.now }
        ensures count { result ≡ length (records_of self.now) }
        ensures few { result ≤ MOST_RECORDS }
    {
        ib_heap::count(&self.words)
    }

    /// Whether the page has no record.
    pub fn is_empty(&self) -> bool
        requires { IsFormed self.now }
        ensures { IsTrue result ↔ (length (records_of self.now) ≡ 0) }
    {
        self.len() == 0
    }

    /// The leaf before this one, 0 for none (`btr_page_get_prev`).
    pub fn prev(&self) -> u32
        requires { IsFormed self.now }
        ensures { result ≡ prev_of self.now }
    {
        ib_heap::prev(&self.words)
    }

    /// The leaf behind this one, 0 for none (`btr_page_get_next`).
    pub fn next(&self) -> u32
        requires { IsFormed self.now }
        ensures { result ≡ next_of self.now }
    {
        ib_heap::next(&self.words)
    }

    /// The modify clock (`buf_block_get_modify_clock`).
    pub fn clock(&self) -> u64
        requires { IsFormed self.now }
        ensures { result ≡ clock_of self.now }
    {
        ib_heap::clock(&self.words)
    }

    /// A word of the image.
    pub fn word(&self, i: usize) -> u64
        requires { i < PAGE_WORDS }
        ensures word { result ≡ slice_index self.now i }
        ensures size { length self.now ≡ PAGE_WORDS }
    {
        self.words[i]
    }

    /// Sets a word of the image; all others stay.
    pub fn set_word(&mut self, i: usize, value: u64)
        requires { i < PAGE_WORDS }
        ensures word { self.new ≡ slice_set self.old i value }
        ensures size { length self.old ≡ PAGE_WORDS }
    {
        self.words[i] = value;
    }

    // The words of another module's image, and back.
    pub(crate) fn from_words(words: [u64; PAGE_WORDS]) -> Image
        ensures { result ≡ words }
    {
        Image { words }
    }

    pub(crate) fn to_words(&self) -> [u64; PAGE_WORDS]
        ensures { result ≡ self.now }
    {
        self.words
    }

    // In how many words two images differ.
    pub(crate) fn differences(&self, other: &Image) -> usize
        ensures count { (page : ℕ) → result ≡ length (writes_below page self.now other.now PAGE_WORDS) }
        ensures few { result ≤ PAGE_WORDS }
    {
        let mut count = 0;
        for i in 0..PAGE_WORDS {
            if self.words[i] != other.words[i] {
                count += 1;
            }
        }
        count
    }

    // Whether two images are the same in the block of words from this one on.
    #[inline(always)]
    fn is_same_block(&self, other: &Image, first: usize) -> bool
        requires { first + BLOCK_WORDS ≤ PAGE_WORDS }
        ensures { IsTrue result → AreSame first (first + BLOCK_WORDS) self.now other.now }
    {
        let mut same = true;
        for i in first..first + BLOCK_WORDS {
            same &= self.words[i] == other.words[i];
        }
        same
    }

    // Writes the words of a block in which the other image of this page differs behind `count` writes, and says
    // how many there are then.
    fn write_block(
        &self,
        page: u32,
        other: &Image,
        first: usize,
        out: &mut [u64],
        count: usize,
    ) -> usize
        requires block { first + BLOCK_WORDS ≤ PAGE_WORDS }
        requires room { 2 * (count + length (writes_below page self.now other.now (first + BLOCK_WORDS)))
            ≤ length out.old + 2 * length (writes_below page self.now other.now first) }
        ensures { (had : ℕ) (were : List ℕ) → 2 * had ≤ length were
            → HasWritten page self.now other.now first had were count out.old
            → HasWritten page self.now other.now (first + BLOCK_WORDS) had were result out.new }
    {
        let mut end = count;
        for i in first..first + BLOCK_WORDS {
            if self.words[i] != other.words[i] {
                put_write(
                    out,
                    end,
                    page as u64 * PAGE_WORDS as u64 + i as u64,
                    other.words[i],
                );
                end += 1;
            }
        }
        end
    }

    // Writes the words in which the other image of this page differs behind `count` writes, and says how many
    // there are then. A block that is the same in both is passed at once.
    pub(crate) fn write_differences(
        &self,
        page: u32,
        other: &Image,
        out: &mut [u64],
        count: usize,
    ) -> usize
        requires { 2 * (count + length (writes_below page self.now other.now PAGE_WORDS)) ≤ length out.old }
        ensures words { let writes = writes_below page self.now other.now PAGE_WORDS in
            out.new ≡ take (2 * count) out.old ++ write_words writes ++ drop (2 * (count + length writes)) out.old }
        ensures count { result ≡ count + length (writes_below page self.now other.now PAGE_WORDS) }
    {
        let mut end = count;
        for block in 0..BLOCKS {
            let first = block * BLOCK_WORDS;
            if !self.is_same_block(other, first) {
                end = self.write_block(page, other, first, out, end);
            }
        }
        end
    }

    /// A record, by its place in the order of keys, from 0 on (`page_rec_get_nth`).
    pub fn record_at(&self, i: usize) -> (Key, u64)
        requires tree { IsTreePage self.now }
        requires in_range { i < length (records_of self.now) }
        ensures { slice_get (records_of self.now) i ≡ Some result }
    {
        ib_heap::record_at(&self.words, i)
    }

    /// The place of a key, or the place at which it would stand. The directory says in which run of records to look
    /// (`page_cur_search_with_match`).
    pub fn find(&self, key: Key) -> Result<usize, usize>
        requires { IsTreePage self.now }
        ensures { IsFound (records_of self.now) key result }
    {
        ib_heap::find(&self.words, key)
    }

    /// The value of a key. None exactly where the key is not there.
    pub fn get(&self, key: Key) -> Option<u64>
        requires { IsTreePage self.now }
        ensures { result ≡ value_at key (records_of self.now) }
    {
        ib_heap::get(&self.words, key)
    }

    /// Where the last record stands whose key is not above this one: in a node, the one of the child to which
    /// the key belongs (`page_cur_search_with_match`, `PAGE_CUR_LE`). The first record must have such a key.
    pub fn route(&self, key: Key) -> usize
        requires tree { IsTreePage self.now }
        requires first { IsSomeAnd (slice_get (records_of self.now) 0) (λ r. rank r.0 ≤ rank key) }
        ensures { IsRouted (records_of self.now) key result }
    {
        ib_heap::route(&self.words, key)
    }

    /// The last record whose key is not above this one: in a node, that of the child to which the key belongs.
    /// The first record must have such a key.
    pub fn route_to(&self, key: Key) -> (Key, u64)
        requires tree { IsTreePage self.now }
        requires first { IsSomeAnd (slice_get (records_of self.now) 0) (λ r. rank r.0 ≤ rank key) }
        ensures record { slice_get (records_of self.now) (index_after key (records_of self.now) - 1) ≡ Some result }
        ensures not_above { rank result.0 ≤ rank key }
    {
        ib_heap::route_to(&self.words, key)
    }

    /// Copies the records whose keys are neither below `low` nor above `high` to the front of `out`, in order of
    /// keys, and says how many they are. All else of `out` stays. There must be room for the page's records.
    pub fn copy_between(&self, low: Key, high: Key, out: &mut [(Key, u64)]) -> usize
        requires tree { IsTreePage self.now }
        requires room { length (records_of self.now) ≤ length out.old }
        ensures records { let records = cut (records_of self.now) low high in out.new ≡ records ++ drop (length records) out.old }
        ensures count { result ≡ length (cut (records_of self.now) low high) }
    {
        ib_heap::copy_between(&self.words, low, high, out)
    }

    /// Puts a record in. Refused as `Duplicate` exactly where the key is there, and then as `PageFull`
    /// exactly where there are `MOST_RECORDS` records (`page_cur_insert_rec_low`).
    pub fn insert(&mut self, key: Key, value: u64) -> Result<(), PageFault>
        requires { IsTreePage self.old }
        ensures { HasPut self.old self.new key value result }
    {
        ib_heap::put(&mut self.words, key, value)
    }

    /// Takes a record out, and gives its value. Refused as `Missing` exactly where the key is not there,
    /// and for no other reason (`page_cur_delete_rec`).
    pub fn remove(&mut self, key: Key) -> Result<u64, PageFault>
        requires { IsTreePage self.old }
        ensures { HasRemoved self.old self.new key result }
    {
        ib_heap::take(&mut self.words, key)
    }

    /// Moves the records from `at` on to `right`, which has none; both pages keep all else (`page_move_rec_list_end`).
    pub fn cut(&mut self, at: usize, right: &mut Image)
        requires tree { IsTreePage self.old }
        requires right_tree { IsTreePage right.old }
        requires empty { records_of right.old ≡ [] }
        requires in_range { at ≤ length (records_of self.old) }
        ensures left { page_of self.new ≡ value_with_records (take at (records_of self.old)) (page_of self.old) }
        ensures right { page_of right.new ≡ value_with_records (drop at (records_of self.old)) (page_of right.old) }
        ensures left_heap { read_heap self.new ≡ filled at }
        ensures right_heap { read_heap right.new ≡ filled (length (records_of self.old) - at) }
    {
        ib_heap::move_tail(&mut self.words, at, &mut right.words);
    }

    /// Appends the records of `right`, whose keys stand above all of this page; both pages keep all else
    /// (`page_copy_rec_list_end`).
    pub fn join(&mut self, right: &Image)
        requires tree { IsTreePage self.old }
        requires right_tree { IsTreePage right.now }
        requires few { length (records_of self.old) + length (records_of right.now) ≤ MOST_RECORDS }
        requires ascends { Rises 0 (records_of self.old ++ records_of right.now) end_rank }
        ensures page { page_of self.new ≡ value_with_records (records_of self.old ++ records_of right.now) (page_of self.old) }
        ensures heap { read_heap self.new ≡ filled (length (records_of self.old) + length (records_of right.now)) }
    {
        ib_heap::append(&mut self.words, &right.words);
    }

    /// Puts the records in anew, one behind the other, as they stand in a page that was just filled
    /// (`btr_page_reorganize`). What the page holds stays.
    pub fn reorganize(&mut self)
        requires { IsTreePage self.old }
        ensures page { page_of self.new ≡ page_of self.old }
        ensures heap { read_heap self.new ≡ filled (length (records_of self.old)) }
    {
        ib_heap::reorganize(&mut self.words);
    }

    /// Sets both links (`btr_page_set_prev`, `btr_page_set_next`). A node's are 0.
    pub fn set_links(&mut self, prev: u32, next: u32)
        requires tree { IsTreePage self.old }
        requires prev { 0 < level_of self.old → prev ≡ 0 }
        requires next { 0 < level_of self.old → next ≡ 0 }
        ensures page { page_of self.new ≡ with_links prev next (page_of self.old) }
        ensures heap { read_heap self.new ≡ read_heap self.old }
    {
        ib_heap::set_links(&mut self.words, prev, next);
    }

    /// Sets the level, 0 to `MOST_LEVEL` (`btr_page_set_level`). Only a page with no links becomes a node.
    pub fn set_level(&mut self, level: u32)
        requires tree { IsTreePage self.old }
        requires low { level ≤ MOST_LEVEL }
        requires prev { 0 < level → prev_of self.old ≡ 0 }
        requires next { 0 < level → next_of self.old ≡ 0 }
        ensures page { page_of self.new ≡ with_level level (page_of self.old) }
        ensures heap { read_heap self.new ≡ read_heap self.old }
    {
        ib_heap::set_level(&mut self.words, level);
    }

    /// Adds 1 to the modify clock, which is below 2^63 (`buf_block_modify_clock_inc`).
    pub fn touch(&mut self)
        requires formed { IsFormed self.old }
        requires room { clock_of self.old < 2 ^ 63 }
        ensures page { page_of self.new ≡ value_with_clock (clock_of self.old + 1) (page_of self.old) }
        ensures heap { read_heap self.new ≡ read_heap self.old }
    {
        let clock = ib_heap::clock(&self.words);
        ib_heap::set_clock(&mut self.words, clock + 1);
    }
}

// Writes a place and a value behind `count` writes.
fn put_write(out: &mut [u64], count: usize, place: u64, value: u64)
    requires { 2 * (count + 1) ≤ length out.old }
    ensures { out.new ≡ take (2 * count) out.old ++ place ∷ value ∷ drop (2 * (count + 1)) out.old }
{
    out[2 * count] = place;
    out[2 * count + 1] = value;
}
