//! What holds of image files by their definitions alone.

ghost use Rattle.std.specs.Prelude.{◌≡◌, ℕ, List, length};
ghost use Rattle.ib_io.specs.Told.{Ending, ends};
ghost use Rattle.ib_io.specs.declared.status.Status.TheVariants.{Done};
ghost use Rattle.ib_logrec.specs.declared.entry.Entry.{Entry};
ghost use Rattle.ib_logrec.specs.Log.{map_of};
ghost use Rattle.ib_text.specs.Output.{map_text};
ghost use Rattle.ib_walk.specs.Words.{IsLawfulMemory};
ghost use Rattle.ib_image.specs.Copies.{restored};
ghost use Rattle.ib_image.specs.Restored.{IsFileOfCopy, IsImageFile};
ghost use Rattle.ib_image.specs.declared.copy.CopiedPage.{CopiedPage};
ghost use Rattle.ib_image_form.specs.Answers.{AnswersImage};
ghost use Rattle.ib_image_form.specs.Restoring.{restored_map};

/// The law of what is owed for an image file, as a contract: where it restores a lawful memory, the map of that memory and
/// nothing else; and where it is the file of a copy of a lawful log and its tail, the map of the whole log.
pub fn image_law()
    ensures restored { (input : List ℕ) (copy : List CopiedPage) (tail : List Entry) (e : Ending) → IsImageFile input copy tail
        → IsLawfulMemory (length copy) 1 (restored copy tail)
        → AnswersImage input e → e ≡ ends Done (map_text (restored_map copy tail)) }
    ensures copied { (input : List ℕ) (pages : ℕ) (log : List Entry) (copy : List CopiedPage) (e : Ending) → IsFileOfCopy input pages log copy
        → AnswersImage input e → e ≡ ends Done (map_text (map_of log)) }
{}
