//! The lines of a script, as each mirror sees them.

ghost use Rattle.std.specs.Prelude.{◌≡◌, ◌≤◌, ◌<◌, ◌+◌, ◌==◌, ℕ, if◌then◌else◌, length, slice_index_or};
ghost use Rattle.game_trait.specs.Count.{times};
ghost use Rattle.match_hall.specs.Script.{mirror_of, arrives_at, restaggers_at, AreRooms};

use game_trait::MirrorId;
use match_data::ScriptLine;

/// The mirror that a script line names.
pub fn mirror_of(line: &ScriptLine) -> MirrorId
    ensures { result ≡ mirror_of line.now }
{
    match *line {
        ScriptLine::Tick { mirror }
        | ScriptLine::Turn { mirror }
        | ScriptLine::Arrive { mirror, .. }
        | ScriptLine::Step { mirror, .. }
        | ScriptLine::World { mirror, .. }
        | ScriptLine::Run { mirror, .. }
        | ScriptLine::Restagger { mirror, .. } => mirror,
    }
}

// Whether a script line is an arrival at this mirror.
fn arrives_at(number: MirrorId, line: &ScriptLine) -> bool
    ensures { result ≡ arrives_at number line.now }
{
    match *line {
        ScriptLine::Arrive { mirror, .. } => mirror == number,
        _ => false,
    }
}

// Whether a script line changes the plan of this mirror.
fn restaggers_at(number: MirrorId, line: &ScriptLine) -> bool
    ensures { result ≡ restaggers_at number line.now }
{
    match *line {
        ScriptLine::Restagger { mirror, .. } => mirror == number,
        _ => false,
    }
}

/// How many lines of a script are arrivals at this mirror.
#[tactic(auto, unfolding(game_trait::specs::Count::times))]
pub fn arrivals_at(number: MirrorId, script: &[ScriptLine]) -> u32
    requires { length script.now ≤ 262144 }
    ensures value { result ≡ times (arrives_at number) script.now }
    ensures few { result ≤ 262144 }
{
    let mut arrivals = 0;
    for line in script {
        arrivals += u32::from(arrives_at(number, line));
    }
    arrivals
}

/// How many lines of a script change the plan of this mirror.
#[tactic(auto, unfolding(game_trait::specs::Count::times))]
pub fn changes_at(number: MirrorId, script: &[ScriptLine]) -> u32
    requires { length script.now ≤ 262144 }
    ensures value { result ≡ times (restaggers_at number) script.now }
    ensures few { result ≤ 262144 }
{
    let mut changes = 0;
    for line in script {
        changes += u32::from(restaggers_at(number, line));
    }
    changes
}

/// How many lines of a script are arrivals at each mirror, and how many change its plan. All are
/// counted in one walk.
#[derive(Clone, Copy)]
pub struct Rooms {
    /// The arrivals, mirror by mirror.
    pub arrivals: [u32; 8],
    /// The changes, mirror by mirror.
    pub changes: [u32; 8],
}

// Counts one more.
fn count(counts: &mut [u32; 8], at: MirrorId)
    requires room { (k : ℕ) → k < 8 → slice_index_or counts.old k 0 ≤ 262144 }
    ensures { (k : ℕ) → k < 8 → slice_index_or counts.new k 0
        ≡ slice_index_or counts.old k 0 + (if at == k then 1 else 0) }
{
    let at = usize::from(at);
    if at < 8 {
        counts[at] += 1;
    }
}

impl Rooms {
    /// Those of a script.
    pub fn of(script: &[ScriptLine]) -> Rooms
        requires { length script.now ≤ 262144 }
        ensures { AreRooms result.arrivals result.changes script.now }
    {
        let mut rooms = Rooms {
            arrivals: [0; 8],
            changes: [0; 8],
        };
        for line in script {
            rooms.add(line);
        }
        rooms
    }

    // Counts a line.
    fn add(&mut self, line: &ScriptLine)
        requires arrivals { (k : ℕ) → k < 8 → slice_index_or self.old.arrivals k 0 ≤ 262144 }
        requires changes { (k : ℕ) → k < 8 → slice_index_or self.old.changes k 0 ≤ 262144 }
        ensures arrivals { (k : ℕ) → k < 8 → slice_index_or self.new.arrivals k 0
            ≡ slice_index_or self.old.arrivals k 0 + (if arrives_at k line.now then 1 else 0) }
        ensures changes { (k : ℕ) → k < 8 → slice_index_or self.new.changes k 0
            ≡ slice_index_or self.old.changes k 0 + (if restaggers_at k line.now then 1 else 0) }
    {
        match *line {
            ScriptLine::Arrive { mirror, .. } => count(&mut self.arrivals, mirror),
            ScriptLine::Restagger { mirror, .. } => count(&mut self.changes, mirror),
            _ => {}
        }
    }
}
