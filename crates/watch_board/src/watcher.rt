//! Who is told what happens to mirrors.

ghost use Rattle.std.specs.Prelude.{◌≡◌, ◌++◌, List, [], ◌∷◌, OnOk, OnErr};
ghost use Rattle.game_trait.specs.declared.event.Note.{Note};
ghost use Rattle.watch_board.specs.Behaviour.{Behaviour};

use game_trait::Note;
use tss_base::NoMemory;

/// Whether a watcher goes on.
#[derive(Clone, Copy, Debug, PartialEq, Eq)]
pub enum Stay {
    /// It wants the next note.
    Stay,
    /// It has seen enough.
    Leave,
}

/// Who is told what happens to mirrors, note by note, and has one line to say of it.
pub trait Watcher: Drop {
    // What the watcher answers and says, as a function of the notes that it takes.
    ghost behaviour: { Self → Behaviour };

    /// Takes the note, and says whether the watcher goes on.
    fn take(&mut self, note: &Note) -> Stay
        ensures answered { result ≡ (behaviour self.old).answer [] note.now }
        ensures answers { (earlier : List Note) (later : Note)
            → (behaviour self.new).answer earlier later
            ≡ (behaviour self.old).answer (note.now ∷ earlier) later }
        ensures lines { (earlier : List Note)
            → (behaviour self.new).line earlier ≡ (behaviour self.old).line (note.now ∷ earlier) };

    /// Appends the watcher's line, without a newline. On `NoMemory` `out` is unchanged.
    fn line(&self, out: &mut Vec<u8>) -> Result<(), NoMemory>
        ensures ok { OnOk result (out.new.items ≡ out.old.items ++ (behaviour self.now).line []) }
        ensures err { OnErr result (out.new.items ≡ out.old.items) };
}
