//! The laws of fuzzy copies and of their files, as contracts.

ghost use Rattle.std.specs.Prelude.{◌≡◌, ◌*◌, ◌^◌, ◌<◌, ◌++◌, ℕ, List, true, drop, take};
ghost use Rattle.ib_map.specs.Space.{has_pages};
ghost use Rattle.ib_map.specs.declared.TheConstants.{PAGE_WORDS};
ghost use Rattle.ib_logrec.specs.declared.entry.Entry.{Entry};
ghost use Rattle.ib_logrec.specs.Law.{AreInGrammar};
ghost use Rattle.ib_logrec.specs.Log.{log_words, memory_after, used};
ghost use Rattle.ib_replay.specs.Files.{AreWords};
ghost use Rattle.ib_image.specs.declared.copy.CopiedPage.{CopiedPage};
ghost use Rattle.ib_image.specs.Copies.{IsCopy, first_place, restored, tail_of};
ghost use Rattle.ib_image.specs.ImageFiles.{image_bytes, image_numbers};
ghost use Rattle.ib_image.specs.Restored.{IsImageFile};

/// The law of fuzzy copies: a copy of a log and its tail restore the memory after all of the log. A copy of what was seen
/// is one of each longer log, and the words of its tail are those of the log from its `tail_word` on.
pub fn copy_law()
    ensures restores { (opening : ℕ → ℕ) (pages : ℕ) (log : List Entry) (copy : List CopiedPage)
        → IsCopy opening pages log copy → (place : ℕ) → place < pages * PAGE_WORDS
        → restored copy (tail_of copy log) place ≡ memory_after opening log place }
    ensures longer { (opening : ℕ → ℕ) (pages : ℕ) (log more : List Entry) (copy : List CopiedPage)
        → IsCopy opening pages log copy → IsCopy opening pages (log ++ more) copy }
    ensures tail { (copy : List CopiedPage) (log : List Entry)
        → drop (used (take (first_place copy) log)) (log_words log) ≡ log_words (tail_of copy log) }
{}

/// The law of image files: what `write_image` writes of a copy of a log in the grammar, with the words of its tail, is the
/// image file of that copy and that tail, as `restore` reads it.
pub fn file_law()
    ensures { (opening : ℕ → ℕ) (pages : ℕ) (log : List Entry) (copy : List CopiedPage)
        → IsCopy opening pages log copy → has_pages pages ≡ true → AreInGrammar pages log
        → first_place copy < 2 ^ 32
        → AreWords (image_numbers (first_place copy) copy (log_words (tail_of copy log)))
        → IsImageFile (image_bytes (first_place copy) copy (log_words (tail_of copy log))) copy (tail_of copy log) }
{}
