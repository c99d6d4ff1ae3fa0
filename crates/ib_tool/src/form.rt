//! The forms of the command line.

ghost use Rattle.std.specs.Prelude.{◌≡◌, IfSome, map, string_bytes};
ghost use Rattle.ib_io.specs.Numbers.{number_of};
ghost use Rattle.ib_tool.specs.Words.{IsLawfulForm, form_named, form_of, gen_by, reads};

use ib_io::number_in;
use ib_script::Load;

/// What the program is asked for.
#[derive(Clone, Copy, Debug, PartialEq, Eq)]
pub enum Form {
    /// A script's sessions beside each other on one index: what each was answered, the log and the map.
    Run,
    /// The same, and each call goes by a guess of its key's leaf first.
    Fast,
    /// The sessions of a script of two trees beside each other: what each was answered, the log, the map and the keys of the second tree.
    Pair,
    /// The sessions of `run`, and the file of the log alone.
    Raw,
    /// The sessions of `run`, and one more that copies all pages beside them: the image file of the copy alone.
    Image,
    /// Events on the latch machine of one thread.
    Latch,
    /// A raw log's changes, one after another.
    Replay,
    /// A log of version 1, brought over to the version of today.
    Upgrade,
    /// An image file, and the map that it restores.
    Restore,
    /// A script that is generated, and how often each reply came.
    Gen { load: Load },
}

impl Form {
    /// Whether it reads its source.
    pub fn reads(self) -> bool
        ensures { result ≡ reads self }
    {
        !matches!(self, Form::Gen { .. })
    }
}

fn form_named(word: &[u8]) -> Option<Form>
    ensures { result ≡ form_named word.now }
{
    if word == b"run".as_slice() {
        Some(Form::Run)
    } else if word == b"fast".as_slice() {
        Some(Form::Fast)
    } else if word == b"pair".as_slice() {
        Some(Form::Pair)
    } else if word == b"raw".as_slice() {
        Some(Form::Raw)
    } else if word == b"image".as_slice() {
        Some(Form::Image)
    } else if word == b"latch".as_slice() {
        Some(Form::Latch)
    } else if word == b"replay".as_slice() {
        Some(Form::Replay)
    } else if word == b"upgrade".as_slice() {
        Some(Form::Upgrade)
    } else if word == b"restore".as_slice() {
        Some(Form::Restore)
    } else {
        None
    }
}

// `gen` with these words, where they are numbers from which a script may be generated.
fn gen_by(commands: &[u8], seed: &[u8], sessions: &[u8]) -> Option<Form>
    ensures form { result ≡ gen_by (number_of commands.now) (number_of seed.now) (number_of sessions.now) }
    ensures lawful { IfSome result IsLawfulForm }
{
    let commands = number_in(commands).ok()?;
    let seed = number_in(seed).ok()?;
    let sessions = number_in(sessions).ok()?;
    let load = Load::new(commands, seed, sessions)?;
    Some(Form::Gen { load })
}

/// The form that these words name, where they are one.
pub fn form_of(words: &[String]) -> Option<Form>
    ensures form { result ≡ form_of (map (λ w. string_bytes w) words.now) }
    ensures lawful { IfSome result IsLawfulForm }
{
    match words {
        [word] => form_named(word.as_bytes()),
        [word, commands, seed, sessions] => {
            if word.as_bytes() == b"gen".as_slice() {
                gen_by(commands.as_bytes(), seed.as_bytes(), sessions.as_bytes())
            } else {
                None
            }
        }
        _ => None,
    }
}
