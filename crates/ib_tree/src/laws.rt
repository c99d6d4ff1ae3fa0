//! The laws of the tests, as contracts: each passes exactly where the trees are lawful, and says where each
//! page is met afterwards.

ghost use Rattle.std.specs.Prelude.{◌≡◌, ◌≢◌, ℕ, ◌+◌, ◌*◌, ◌<◌, ◌≤◌, Bool, true, false, List, [], ◌∷◌, ◌++◌, Some, length, take};
ghost use Rattle.ib_map.specs.Keys.{MapKey, rank, end_rank};
ghost use Rattle.ib_map.specs.History.{map_after};
ghost use Rattle.ib_map.specs.Map.{answer_of, is_made};
ghost use Rattle.ib_map.specs.Replies.{Span, FullRecord, change_of, pair_count, AreChunks};
ghost use Rattle.ib_map.specs.Runs.{reach_after, AreAnswers};
ghost use Rattle.ib_map.specs.declared.call.Call.TheVariants.{Insert, Scan};
ghost use Rattle.ib_map.specs.declared.call.Change.{Change};
ghost use Rattle.ib_map.specs.declared.call.Reply.TheVariants.{LogFull, Scanned};
ghost use Rattle.ib_map.specs.Space.{has_pages};
ghost use Rattle.ib_map.specs.Writes.{PlacesRise};
ghost use Rattle.ib_map.specs.declared.TheConstants.{PAGE_WORDS};
ghost use Rattle.ib_logrec.specs.declared.entry.Entry.{Entry};
ghost use Rattle.ib_logrec.specs.Log.{by_place, history_of, used};
ghost use Rattle.ib_walk.specs.Full.{is_too_high, need_of};
ghost use Rattle.ib_walk.specs.Pages.{PageMemory};
ghost use Rattle.ib_walk.specs.Walk.{Visit};
ghost use Rattle.ib_walk.specs.Trees.{content_of, IsLawful, free_page};
ghost use Rattle.ib_walk.specs.Words.{pages_of, IsLawfulMemory};
ghost use Rattle.ib_validate.specs.PatchTest.{Positions, IsListed, IsKeptBeside, PassesTest};
ghost use Rattle.ib_tree.specs.Logs.{pages_after, IsTreeEntry};
ghost use Rattle.ib_tree.specs.TreeLog.{opening, IsTreeLog};
ghost use Rattle.ib_tree.specs.PageLists.{touched_pages};
ghost use Rattle.ib_tree.specs.Scans.{AreWhole};
ghost use Rattle.ib_tree.specs.Fits.{TreeSpace, tree_at, free_at, is_refused, FitsLog};
ghost use Rattle.ib_tree.specs.Tests.{KeepRanges, TellsGood, IsPatchGiven, writes_page, IsEntryGiven, PassesEntry, root_positions, PassesWhole};

/// The law of the test of a patch, as a contract. Of lawful trees whose positions are known, it passes
/// exactly where the new trees are lawful and every page that is not written keeps root, level and range;
/// the positions that are left are those of the new trees. The test of a whole memory is that of a patch of
/// all pages of a new space (`btr_validate_index`).
pub fn patch_law()
    ensures sound { (written : ℕ → Bool) (m new : PageMemory) (good : ℕ → Visit → Bool) (bits after : ℕ → ℕ)
        (roots pages : ℕ) (ps : List ℕ) (old table : Positions)
        → IsPatchGiven written m new good bits roots pages ps old
        → PassesTest written m new good bits after roots end_rank ps old table
        → IsLawful new after roots × KeepRanges written m new roots × IsKeptBeside new roots pages table }
    ensures complete { (written : ℕ → Bool) (m new : PageMemory) (good : ℕ → Visit → Bool) (bits after : ℕ → ℕ)
        (roots pages : ℕ) (ps : List ℕ) (old : Positions)
        → IsPatchGiven written m new good bits roots pages ps old
        → IsLawful new after roots → KeepRanges written m new roots
        → (table : Positions) × PassesTest written m new good bits after roots end_rank ps old table }
    // No test passes with two tables.
    ensures once { (written : ℕ → Bool) (m new : PageMemory) (good : ℕ → Visit → Bool) (bits after : ℕ → ℕ)
        (roots end : ℕ) (ps : List ℕ) (old table other : Positions)
        → PassesTest written m new good bits after roots end ps old table
        → PassesTest written m new good bits after roots end ps old other → table ≡ other }
    // The words of a whole memory, where the pages that the space doesn't have are free.
    ensures whole_sound { (pages roots : ℕ) (words : ℕ → ℕ) (good : ℕ → Visit → Bool) (table : Positions)
        → has_pages pages ≡ true → roots < pages → ((page : ℕ) → pages ≤ page → pages_of words page ≡ free_page)
        → TellsGood good (pages_of words) → PassesWhole pages roots words good table
        → IsLawfulMemory pages roots words × IsKeptBeside (pages_of words) roots pages table }
    ensures whole_complete { (pages roots : ℕ) (words : ℕ → ℕ) (good : ℕ → Visit → Bool)
        → has_pages pages ≡ true → roots < pages → ((page : ℕ) → pages ≤ page → pages_of words page ≡ free_page)
        → TellsGood good (pages_of words) → IsLawfulMemory pages roots words
        → (table : Positions) × PassesWhole pages roots words good table }
{}

/// The law of the test of an entry, as a contract. Behind a lawful log of one tree, an entry passes exactly
/// where it is a tree's entry; then the log with it is lawful, and the positions that are left are those of
/// the pages after it.
pub fn entry_law()
    // The pages of a new space have their positions.
    ensures opening { (pages : ℕ) → has_pages pages ≡ true
        → IsKeptBeside (pages_of (by_place opening pages)) 1 pages (root_positions 1) }
    ensures sound { (pages : ℕ) (front : List Entry) (e : Entry) (good : ℕ → Visit → Bool) (ps : List ℕ) (old table : Positions)
        → has_pages pages ≡ true → IsEntryGiven pages 1 (by_place opening pages) front e good ps old
        → PassesEntry pages 1 (by_place opening pages) front e good ps old table
        → IsTreeEntry pages 1 (by_place opening pages) front e × IsTreeLog pages (front ++ e ∷ [])
        × IsKeptBeside (pages_after (by_place opening pages) (front ++ e ∷ [])) 1 pages table }
    ensures complete { (pages : ℕ) (front : List Entry) (e : Entry) (good : ℕ → Visit → Bool) (ps : List ℕ) (old : Positions)
        → has_pages pages ≡ true → IsEntryGiven pages 1 (by_place opening pages) front e good ps old
        → IsTreeEntry pages 1 (by_place opening pages) front e
        → (table : Positions) × PassesEntry pages 1 (by_place opening pages) front e good ps old table }
    // The pages that an entry in the space writes, as a list.
    ensures listed { (pages : ℕ) (e : Entry) → PlacesRise 0 e.writes (pages * PAGE_WORDS)
        → IsListed (writes_page e) (touched_pages e.writes) pages }
{}

/// The law of records beside a log of trees, as a contract: one that fits a log fits each longer one, and
/// the chunks of a whole scan, each read off the leaves at its own place, are what the map of the log has.
pub fn fits_law()
    ensures longer { (space : TreeSpace) (log more : List Entry) (session reach : ℕ) (r : FullRecord)
        → FitsLog space log session reach r → FitsLog space (log ++ more) session reach r }
    ensures within { (space : TreeSpace) (log : List Entry) (session reach : ℕ) (r : FullRecord)
        → FitsLog space log session reach r → reach_after r ≤ length log }
    ensures answers { (space : TreeSpace) (log more : List Entry) (session reach : ℕ) (rs : List FullRecord)
        → AreAnswers (FitsLog space log session) reach rs → AreAnswers (FitsLog space (log ++ more) session) reach rs }
    // Where the first tree has at each place what the map has there.
    ensures chunks { (space : TreeSpace) (log : List Entry) (low high : MapKey) (floor : ℕ) (spans : List Span) (end : ℕ)
        → ((n : ℕ) → n ≤ length log → content_of (tree_at space log n) 1 ≡ map_after (history_of log) n)
        → rank low ≤ rank high → AreWhole space.opening log 1 low high floor spans end
        → AreChunks (history_of log) low high floor spans end }
    ensures scan { (space : TreeSpace) (log : List Entry) (session reach : ℕ) (low high : MapKey) (floor : ℕ) (spans : List Span) (end : ℕ)
        → ((n : ℕ) → n ≤ length log → content_of (tree_at space log n) 1 ≡ map_after (history_of log) n)
        → rank low ≤ rank high → AreWhole space.opening log 1 low high floor spans end
        → FitsLog space log session reach (record {
          call = Scan low high;
          reply = Scanned (length spans) (pair_count spans);
          place = end;
          spans = spans;
        }) }
{}

/// The law of changes that are refused, as a contract: the map would have made them, and at one place of one log there is
/// one refusal of a call.
pub fn refusal_law()
    ensures one { (space : TreeSpace) (log : List Entry) (session reach other seen : ℕ) (r s : FullRecord)
        → FitsLog space log session reach r → FitsLog space log other seen s → r.call ≡ s.call → r.place ≡ s.place
        → is_refused r.reply ≡ true → is_refused s.reply ≡ true → r.reply ≡ s.reply }
    ensures made { (space : TreeSpace) (log : List Entry) (session reach : ℕ) (r : FullRecord)
        → FitsLog space log session reach r → is_refused r.reply ≡ true
        → (change : Change) × (change_of r.call ≡ Some change)
        × (is_made (answer_of (map_after (history_of log) r.place) change) ≡ true) × (r.spans ≡ []) }
    // A full log tells how many words stand before the place, and of how many: fewer than 8,196 are left.
    ensures full { (space : TreeSpace) (log : List Entry) (session reach words cap : ℕ) (r : FullRecord)
        → FitsLog space log session reach r → r.reply ≡ LogFull words cap
        → (words ≡ used (take r.place log)) × (cap ≡ space.log_words) × (cap < words + 8196) }
    // So where there is room, none is told that the log is full.
    ensures room { (space : TreeSpace) (log : List Entry) (session reach words cap : ℕ) (r : FullRecord)
        → FitsLog space log session reach r → used (take r.place log) + 8196 ≤ space.log_words
        → r.reply ≢ LogFull words cap }
    // An insert is refused so where nothing else refuses it.
    ensures grows { (space : TreeSpace) (log : List Entry) (session reach words cap : ℕ) (key : MapKey) (value : ℕ) (r : FullRecord)
        → FitsLog space log session reach r → r.call ≡ Insert key value → r.reply ≡ LogFull words cap
        → (is_too_high 1 (tree_at space log r.place) key 1 ≡ false)
        × (need_of (tree_at space log r.place) key 1 ≤ free_at space log r.place) }
{}
