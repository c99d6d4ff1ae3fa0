//! What a script's sessions came to, read off the closed space.

ghost use Rattle.std.specs.Prelude.{◌≡◌, ◌<◌, ◌≤◌, ◌^◌, ◌++◌, ℕ, List, IfOk, true, drop, length};
ghost use Rattle.ib_map.specs.Space.{has_pages};
ghost use Rattle.ib_logrec.specs.declared.entry.Entry.{Entry};
ghost use Rattle.ib_logrec.specs.Grammar.{IsInGrammar};
ghost use Rattle.ib_logrec.specs.Heads.{head_of};
ghost use Rattle.ib_logrec.specs.Law.{AreInGrammar};
ghost use Rattle.ib_logrec.specs.Log.{history_of, log_words};
ghost use Rattle.ib_logrec.specs.Words.{words_of_entry};
ghost use Rattle.ib_rule.specs.Closed.{log_in};
ghost use Rattle.ib_walk.specs.Trees.{content_of};
ghost use Rattle.ib_tree.specs.Logs.{pages_after};
ghost use Rattle.ib_runs.specs.Outcomes.{HasLogUnder, IsReadOff};
ghost use Rattle.ib_runs.specs.Shared.{calls_under};

use crate::session_out::SessionOut;
use crate::shared::Shared;
use ib_layout::Geometry;
use ib_logrec::{HEAD_WORDS, Head};
use ib_map::{LoggedChange, OutOfMemory, PlainMap};
use ib_page::Image;
use ib_rule::SpaceWords;
use ib_tree::{Images, content_in};
use std::alloc::Global;

/// What a script's sessions came to: what each was answered, that of session n at place n - 1, and what is read off the
/// closed space, the changes of its log and the pairs of its first tree. Its words are there too, and its sizes, which say how
/// long a log the sessions ran on.
#[derive(Drop)]
pub struct Ran {
    pub sessions: Vec<SessionOut>,
    pub history: Vec<LoggedChange>,
    pub map: PlainMap,
    pub closed: SpaceWords,
}

// The changes of the log of a closed space, of which the heads of the entries tell all.
fn history_in(alloc: Global, closed: &SpaceWords) -> Result<Vec<LoggedChange>, OutOfMemory>
    requires few_words { length (log_in closed.now.sizes closed.now.words) < 2 ^ 32 }
    requires spelled { (log : List Entry) × AreInGrammar closed.now.sizes.pages log
        × (log_in closed.now.sizes closed.now.words ≡ log_words log) }
    ensures { (log : List Entry) → AreInGrammar closed.now.sizes.pages log
        → log_in closed.now.sizes closed.now.words ≡ log_words log
        → IfOk result (λ history. history.items ≡ history_of log) }
{
    let mut history = Vec::new(alloc);
    let used = closed.used();
    let mut place = 0;
    while place < used {
        let head = head_at(closed, place);
        history.push(head.logged())?;
        place += (HEAD_WORDS + 2 * head.writes) as u32;
    }
    Ok(history)
}

// The head of the entry that begins at a place of the log.
fn head_at(closed: &SpaceWords, place: u32) -> Head
    requires few_words { length (log_in closed.now.sizes closed.now.words) < 2 ^ 32 }
    requires entry { (e : Entry) × (rest : List ℕ) × IsInGrammar closed.now.sizes.pages e
        × (drop place (log_in closed.now.sizes closed.now.words) ≡ words_of_entry e ++ rest) }
    ensures { (e : Entry) (rest : List ℕ) → IsInGrammar closed.now.sizes.pages e
        → drop place (log_in closed.now.sizes closed.now.words) ≡ words_of_entry e ++ rest
        → result ≡ head_of e }
{
    let mut words = [0; HEAD_WORDS];
    for i in 0..HEAD_WORDS {
        words[i] = closed.log_word(place + i as u32);
    }
    let Some(head) = Head::read(&words) else {
        unreachable!()
    };
    head
}

// The pages of a closed space, whose images are had where its words lie.
#[derive(Drop)]
struct ClosedPages<'a> {
    closed: &'a SpaceWords,
}

impl<'a> Images for ClosedPages<'a> {
    ghost use Rattle.ib_runs.specs.Outcomes.{images_in};

    ghost images = { λ p. images_in p.closed.now.sizes p.closed.now.words };

    fn len(&self) -> usize {
        self.closed.geometry().pages() as usize
    }

    fn image(&self, page: u32) -> Image {
        let image = self.closed.page(page);
        // For the proof: an image has all words of a page.
        let _first = image.word(0);
        image
    }
}

/// The pairs of one of the trees of a closed space of so many pages: that of this root.
///
/// ```
/// let second = pairs_of::<SharedPair>(alloc, &ran.closed, script.geometry().pages(), 2)?;
/// ```
pub fn pairs_of<S: Shared>(
    alloc: Global,
    closed: &SpaceWords,
    pages: u32,
    root: u32,
) -> Result<PlainMap, OutOfMemory>
    requires root { (1 ≤ root) × (root ≤ S.root) }
    requires pages { pages ≡ closed.now.sizes.pages }
    requires in_range { has_pages pages ≡ true }
    requires log { (log : List Entry) × HasLogUnder (calls_under S.law closed.now.sizes) closed.now.sizes closed.now.words log }
    ensures { (log : List Entry) → HasLogUnder (calls_under S.law closed.now.sizes) closed.now.sizes closed.now.words log
        → IfOk result (λ pairs. pairs ≡ content_of (pages_after (calls_under S.law closed.now.sizes).start log) root) }
{
    // For the proof: what lawful logs say of the trees.
    S::laws();
    content_in(alloc, &ClosedPages { closed }, root)
}

// The changes of the log of a closed space, and the pairs of its first tree, of which page 1 is the root.
pub(crate) fn read_off<S: Shared>(
    alloc: Global,
    closed: &SpaceWords,
    sizes: Geometry,
) -> Result<(Vec<LoggedChange>, PlainMap), OutOfMemory>
    requires sizes { closed.now.sizes ≡ sizes }
    requires log { (log : List Entry) × HasLogUnder (calls_under S.law sizes) sizes closed.now.words log }
    ensures { (log : List Entry) → HasLogUnder (calls_under S.law sizes) sizes closed.now.words log
        → IfOk result (λ found. IsReadOff (calls_under S.law sizes) log found.0.items found.1) }
{
    // For the proof: the laws of what was shared, at the sizes of the space.
    S::laws();
    let pages = sizes.pages();
    let _ = sizes.log_words();
    let history = history_in(alloc, closed)?;
    let map = pairs_of::<S>(alloc, closed, pages, 1)?;
    Ok((history, map))
}
