//! A log as a file: 64-bit numbers, the highest byte first.

ghost use Rattle.std.specs.Prelude.{◌≡◌, ◌+◌, ◌*◌, ◌%◌, ℕ, List, None, Err, true, length, IfOk, IfErr, OnOk, MatchResult};
ghost use Rattle.ib_map.specs.Space.{has_pages};
ghost use Rattle.ib_logrec.specs.Grammar.{IsFault};
ghost use Rattle.ib_replay.specs.Files.{LogFile, AreWords, word_bytes, file_with, file_of, file_fault, file_fault_with};
ghost use Rattle.ib_replay.specs.OldLogs.{old_file_of, old_file_fault};

use byteorder::{BigEndian, ByteOrder};
use ib_logrec::LogFault;
use ib_map::{LEAST_PAGES, MOST_PAGES};
use std::alloc::{AllocError, Global};
use std::marker::Model;

/// What a log file begins with: the text `IBLOG57` and the digit of its version, 2. In files of version 1 a key was a
/// number in one word, in those of version 0 pages were sorted records, and no heaps.
pub const FILE_FORM: u64 = 0x4942_4c4f_4735_3732;

const _: () = prove!(FILE_FORM == 0x4942_4c4f_4735_3732);

/// What a log file of version 1 begins with: the same text, and the digit 1.
pub const OLD_FILE_FORM: u64 = 0x4942_4c4f_4735_3731;

const _: () = prove!(OLD_FILE_FORM == 0x4942_4c4f_4735_3731);

/// A log as a file has it: the number of pages of its space, and its words.
#[derive(Debug, Drop)]
pub struct RawLog {
    pages: u32,
    words: Vec<u64>,
}

impl Model for RawLog {
    ghost use Rattle.ib_replay.specs.Files.{LogFile};

    ghost Value = { LogFile };

    ghost view = { λ log. record { pages = log.pages; words = log.words.items } };
}

impl RawLog {
    /// A log of so many pages and these words. It takes no memory.
    pub fn new(pages: u32, words: Vec<u64>) -> RawLog
        ensures log { result ≡ record { pages = pages; words = words.items } }
        ensures fits { AreWords words.items }
    {
        RawLog { pages, words }
    }

    /// How many pages the space has.
    pub fn pages(&self) -> u32
        ensures { result ≡ self.now.pages }
    {
        self.pages
    }

    /// The words of the entries.
    pub fn words(&self) -> &[u64]
        ensures { result.now ≡ self.now.words }
    {
        &self.words
    }
}

/// The log of a file. A fault is the first one of the file: a length that is no whole number of words,
/// fewer than two words, another form than `FILE_FORM`, a number of pages that no space has.
pub fn read_log(alloc: Global, bytes: &[u8]) -> Result<RawLog, LogFault>
    // The bytes are the file of the log that is read, and its pages are those of a space.
    ensures found { IfOk result (λ log. bytes.now ≡ file_of log.pages log.words) }
    ensures pages { IfOk result (λ log. has_pages log.pages ≡ true) }
    ensures fits { IfOk result (λ log. AreWords log.words) }

    // A file is read as the log that it is the file of.
    ensures only { (pages : ℕ) (words : List ℕ) → has_pages pages ≡ true → AreWords words
        → bytes.now ≡ file_of pages words
        → MatchResult result (λ log. log ≡ record { pages = pages; words = words }) (λ fault. fault ≡ LogFault.OutOfMemory) }

    // Which fault it is: memory may be wanting only where the file has none.
    ensures no_fault { OnOk result (file_fault bytes.now ≡ None) }
    ensures fault { IfErr result (IsFault (file_fault bytes.now)) }
    ensures memory { result ≡ Err LogFault.OutOfMemory → file_fault bytes.now ≡ None }
{
    log_of(alloc, FILE_FORM, bytes)
}

// The log of a file of version 1, or its first fault.
pub(crate) fn read_old_log(alloc: Global, bytes: &[u8]) -> Result<RawLog, LogFault>
    ensures found { IfOk result (λ log. bytes.now ≡ old_file_of log.pages log.words) }
    ensures pages { IfOk result (λ log. has_pages log.pages ≡ true) }
    ensures fits { IfOk result (λ log. AreWords log.words) }
    ensures fault { IfErr result (IsFault (old_file_fault bytes.now)) }
    ensures memory { result ≡ Err LogFault.OutOfMemory → old_file_fault bytes.now ≡ None }
    ensures no_fault { OnOk result (old_file_fault bytes.now ≡ None) }
{
    log_of(alloc, OLD_FILE_FORM, bytes)
}

// The log of a file that begins with this form, or its first fault.
#[tactic(auto, unfolding(crate::specs::Files::file_fault_with))]
fn log_of(alloc: Global, form: u64, bytes: &[u8]) -> Result<RawLog, LogFault>
    ensures found { IfOk result (λ log. bytes.now ≡ file_with form log.pages log.words) }
    ensures pages { IfOk result (λ log. has_pages log.pages ≡ true) }
    ensures fits { IfOk result (λ log. AreWords log.words) }
    ensures no_fault { OnOk result (file_fault_with form bytes.now ≡ None) }
    ensures fault { IfErr result (IsFault (file_fault_with form bytes.now)) }
    ensures memory { result ≡ Err LogFault.OutOfMemory → file_fault_with form bytes.now ≡ None }
{
    if bytes.len() % 8 != 0 {
        return Err(LogFault::OddLength { bytes: bytes.len() });
    }
    if bytes.len() < 16 {
        return Err(LogFault::Short { place: 0 });
    }
    let first = BigEndian::read_u64(bytes);
    if first != form {
        return Err(LogFault::BadFile { at: 0, word: first });
    }
    let pages = BigEndian::read_u64(&bytes[8..]);
    if !is_space(pages) {
        return Err(LogFault::BadFile { at: 1, word: pages });
    }
    let words = words_of(alloc, &bytes[16..])?;
    Ok(RawLog {
        pages: pages as u32,
        words,
    })
}

// Whether a space has so many pages.
fn is_space(pages: u64) -> bool
    ensures { result ≡ has_pages pages }
{
    u64::from(LEAST_PAGES) <= pages && pages <= u64::from(MOST_PAGES)
}

// The words that the bytes are.
fn words_of(alloc: Global, bytes: &[u8]) -> Result<Vec<u64>, AllocError>
    requires { length bytes.now % 8 ≡ 0 }
    ensures words { IfOk result (λ words. word_bytes words.items ≡ bytes.now) }
    ensures fits { IfOk result (λ words. AreWords words.items) }
{
    let mut words = vec![in alloc; 0; bytes.len() / 8]?;
    BigEndian::read_u64_into(bytes, &mut words);
    Ok(words)
}

/// Writes the file of a log of so many pages and these words.
#[tactic(auto, unfolding(crate::specs::Files::file_with))]
pub fn write_log(pages: u32, words: &[u64], out: &mut [u8])
    requires { length out.old ≡ 16 + 8 * length words.now }
    ensures { out.new ≡ file_of pages words.now }
{
    BigEndian::write_u64(out, FILE_FORM);
    BigEndian::write_u64(&mut out[8..], u64::from(pages));
    BigEndian::write_u64_into(words, &mut out[16..]);
}
