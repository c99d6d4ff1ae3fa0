//! What a session was answered, as it is kept until it is printed.

ghost use Rattle.std.specs.Prelude.{◌≡◌};
ghost use Rattle.ib_runs.specs.Answers.{no_answers};

use ib_map::{Chunks, Record};
use std::alloc::Global;
use std::marker::Model;

/// What a session was answered: its records in order, and the chunks of its scans. A scan that runs appends its chunks
/// here, so contracts see both as they are kept, and the records with their chunks are read off that.
#[derive(Drop)]
pub struct SessionOut {
    pub(crate) records: Vec<Record>,
    pub(crate) chunks: Chunks,
}

impl Model for SessionOut {
    ghost use Rattle.ib_runs.specs.Answers.{KeptAnswers};

    ghost Value = { KeptAnswers };

    ghost view = { λ out. record { records = out.records.items; chunks = out.chunks } };
}

impl SessionOut {
    /// No records. It takes no memory.
    pub fn new(alloc: Global) -> SessionOut
        ensures { result ≡ no_answers }
    {
        SessionOut {
            records: Vec::new(alloc),
            chunks: Chunks::with_room(alloc, 0, 0).unwrap(),
        }
    }

    /// These records, and the chunks of their scans, one scan's behind another's.
    pub fn of(records: Vec<Record>, chunks: Chunks) -> SessionOut
        ensures { result ≡ record { records = records.items; chunks = chunks } }
    {
        SessionOut { records, chunks }
    }

    /// The records, in the order of their calls.
    pub fn records(&self) -> &[Record]
        ensures { result.now ≡ self.now.records }
    {
        &self.records
    }

    /// The chunks of all scans, one scan's behind another's.
    pub fn chunks(&self) -> &Chunks
        ensures { result.now ≡ self.now.chunks }
    {
        &self.chunks
    }

    /// Both.
    pub fn parts(&self) -> (&[Record], &Chunks)
        ensures records { result.0.now ≡ self.now.records }
        ensures chunks { result.1.now ≡ self.now.chunks }
    {
        (&self.records, &self.chunks)
    }
}
