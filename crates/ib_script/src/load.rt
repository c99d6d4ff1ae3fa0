//! What a script is generated from.

ghost use Rattle.std.specs.Prelude.{◌≡◌, SomeIff, true};
ghost use Rattle.ib_script.specs.Loads.{is_load};

use ib_io::MOST_SCRIPT_SESSIONS;

/// The most commands of a generated script.
pub const MOST_GENERATED: u32 = 30_000;

const _: () = prove!(MOST_GENERATED == 30_000);

/// What a script is generated from: how many commands in all, 1 to `MOST_GENERATED`, a seed, and for how many sessions, 1 to
/// `MOST_SCRIPT_SESSIONS`.
#[derive(Clone, Copy, Debug, PartialEq, Eq)]
pub struct Load {
    pub commands: u32,
    pub seed: u32,
    pub sessions: u32,
}

impl Load {
    /// None exactly where there are no commands or no sessions, or too many of them, or the seed does not fit its type.
    pub fn new(commands: u64, seed: u64, sessions: u64) -> Option<Load>
        ensures { SomeIff result (is_load commands seed sessions ≡ true) (record { commands = commands; seed = seed; sessions = sessions }) }
    {
        let commands = u32::try_from(commands).ok()?;
        let seed = u32::try_from(seed).ok()?;
        let sessions = u32::try_from(sessions).ok()?;
        if !(1..=MOST_GENERATED).contains(&commands)
            || !(1..=MOST_SCRIPT_SESSIONS).contains(&sessions)
        {
            return None;
        }
        Some(Load {
            commands,
            seed,
            sessions,
        })
    }
}
