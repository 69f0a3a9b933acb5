//! The board.

ghost use Rattle.std.specs.Prelude.{◌≡◌, ◌++◌, ◌+◌, ◌-◌, ◌<◌, ◌^◌, List, [], ◌∷◌, map, length, min, OnOk, OnErr};
ghost use Rattle.game_trait.specs.declared.event.Note.{Note};
ghost use Rattle.tss_io.specs.Lines.{as_line};
ghost use Rattle.watch_board.specs.Behaviour.{Behaviour, leaves};
ghost use Rattle.watch_board.specs.Board.{still_there, leaving_lines, last_lines, TellsAt, IsWithout, HasLineOf, IsCutShort, IsClosedShort};
ghost use Rattle.watch_board.specs.Told.{AreTold};

use crate::watcher::{Stay, Watcher};
use game_trait::Note;
use tss_base::NoMemory;

/// The watchers that are still there.
#[derive(Drop)]
pub struct Board {
    watchers: Vec<Box<dyn Watcher>>,
}

// Tells the watcher, and answers whether it leaves.
fn leaves(watcher: &mut Box<dyn Watcher>, note: &Note) -> bool
    ensures left { result ≡ leaves note.now (behaviour watcher.old) }
    ensures answers { (earlier : List Note) (later : Note)
        → (behaviour watcher.new).answer earlier later
        ≡ (behaviour watcher.old).answer (note.now ∷ earlier) later }
    ensures lines { (earlier : List Note)
        → (behaviour watcher.new).line earlier ≡ (behaviour watcher.old).line (note.now ∷ earlier) }
{
    match watcher.take(note) {
        Stay::Stay => false,
        Stay::Leave => true,
    }
}

// Appends the watcher's line, without a newline. On `NoMemory` `out` is unchanged.
fn push_words_of(watcher: &Box<dyn Watcher>, out: &mut Vec<u8>) -> Result<(), NoMemory>
    ensures ok { OnOk result (out.new.items ≡ out.old.items ++ (behaviour watcher.now).line []) }
    ensures err { OnErr result (out.new.items ≡ out.old.items) }
{
    watcher.line(out)
}

// Appends the watcher's line and a newline. On `NoMemory` `out` is unchanged.
fn push_line_of(watcher: &Box<dyn Watcher>, out: &mut Vec<u8>) -> Result<(), NoMemory>
    ensures ok { OnOk result
        (out.new.items ≡ out.old.items ++ as_line ((behaviour watcher.now).line [])) }
    ensures err { OnErr result (out.new.items ≡ out.old.items) }
{
    let length = out.len();
    push_words_of(watcher, out)?;
    match out.push(b'\n') {
        Ok(()) => Ok(()),
        Err(fault) => {
            out.truncate(length);
            Err(NoMemory::from(fault))
        }
    }
}

impl Board {
    /// A board over these watchers. It takes no memory.
    pub fn over(watchers: Vec<Box<dyn Watcher>>) -> Board
        ensures { result.watchers ≡ watchers }
    {
        Board { watchers }
    }

    /// How many watchers are still there, or the greatest `u32` where there are more. It takes no
    /// memory.
    pub fn len(&self) -> u32
        ensures { result ≡ min (length self.now.watchers.items) (2 ^ 32 - 1) }
    {
        u32::try_from(self.watchers.len()).unwrap_or(u32::MAX)
    }

    // Whether the watcher in this place leaves, once it has taken the note.
    fn leaves_from(&mut self, place: usize, note: &Note) -> bool
        requires { place < length self.old.watchers.items }
        ensures told { TellsAt note.now place (map (λ w. behaviour w) self.old.watchers.items)
            (map (λ w. behaviour w) self.new.watchers.items) result }
        ensures length { length self.new.watchers.items ≡ length self.old.watchers.items }
    {
        leaves(&mut self.watchers[place], note)
    }

    // Appends the line of the watcher in this place, which is let go.
    fn let_go(&mut self, place: usize, out: &mut Vec<u8>) -> Result<(), NoMemory>
        requires { place < length self.old.watchers.items }
        ensures without { IsWithout place (map (λ w. behaviour w) self.old.watchers.items)
            (map (λ w. behaviour w) self.new.watchers.items) }
        ensures length { length self.new.watchers.items + 1 ≡ length self.old.watchers.items }
        ensures ok { OnOk result (HasLineOf place (map (λ w. behaviour w) self.old.watchers.items)
            out.old.items out.new.items) }
        ensures err { OnErr result (out.new.items ≡ out.old.items) }
    {
        let gone = self.watchers.remove(place);
        push_line_of(&gone, out)
    }

    /// Hands the note to each watcher that is still there, in their order. One that leaves has its
    /// line appended, with a newline, and is let go at once. On `NoMemory` the watchers in front of
    /// the one that left have taken the note, this one is let go, those behind it haven't taken the
    /// note, and the lines of those in front that left were appended.
    pub fn take(&mut self, note: &Note, out: &mut Vec<u8>) -> Result<(), NoMemory>
        ensures still_there { OnOk result (map (λ w. behaviour w) self.new.watchers.items
            ≡ still_there note.now (map (λ w. behaviour w) self.old.watchers.items)) }
        ensures lines { OnOk result (out.new.items
            ≡ out.old.items
            ++ leaving_lines note.now (map (λ w. behaviour w) self.old.watchers.items)) }
        ensures told { OnOk result
            (AreTold (note.now ∷ []) (map (λ w. behaviour w) self.old.watchers.items)
            (map (λ w. behaviour w) self.new.watchers.items) out.old.items out.new.items) }
        ensures err { OnErr result
            (IsCutShort note.now (map (λ w. behaviour w) self.old.watchers.items)
            (map (λ w. behaviour w) self.new.watchers.items) out.old.items out.new.items) }
    {
        let mut place = 0;
        while place < self.watchers.len() {
            if self.leaves_from(place, note) {
                self.let_go(place, out)?;
            } else {
                place += 1;
            }
        }
        Ok(())
    }

    /// Appends the lines of the watchers that are still there, in their order, and lets them go. On
    /// `NoMemory` those in front of the one whose line couldn't be appended have theirs appended.
    pub fn close(self, out: &mut Vec<u8>) -> Result<(), NoMemory>
        ensures ok { OnOk result (out.new.items
            ≡ out.old.items ++ last_lines (map (λ w. behaviour w) self.watchers.items)) }
        ensures err { OnErr result (IsClosedShort (map (λ w. behaviour w) self.watchers.items)
            out.old.items out.new.items) }
    {
        for watcher in &self.watchers {
            push_line_of(watcher, out)?;
        }
        Ok(())
    }
}
