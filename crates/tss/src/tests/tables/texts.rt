//! Matches that several rows are about, each up to where the rows differ.

// The front of a record: a match of one mirror with two copies, a tick apart.
pub const RECORD_FRONT: &str = "tss record 1\n\
    tss match 1\n\
    length 1\n\
    grid 3 1\n\
    mirrors 1\n\
    delays 0 1\n\
    pace 1\n\
    player ann 0 0 e\n\
    end\n";

// One mirror with one copy, a match of one tick, and one player.
pub const OPENING: &str = "tss match 1\n\
    length 1\n\
    grid 3 1\n\
    mirrors 1\n\
    delays 0\n\
    pace 0\n\
    player ann 0 0 e\n\
    end\n";

// One copy without delay, a match of four ticks, and a command of tick 2.
pub const ONE_COPY: &str = "tss match 1\n\
    length 4\n\
    grid 5 1\n\
    mirrors 1\n\
    delays 0\n\
    pace 0\n\
    player ann 0 0 e\n\
    cmd 2 0 0 0 go\n";

// Three copies two ticks apart, a match of eight ticks, and a command of tick 1.
pub const THREE_COPIES: &str = "tss match 1\n\
    length 8\n\
    grid 9 1\n\
    mirrors 1\n\
    delays 0 2 4\n\
    pace 0\n\
    player ann 0 0 e\n\
    cmd 1 0 0 0 go\n";

// Two mirrors of two copies, whose players both want the cell between them at tick 0.
pub const TIES: &str = "tss match 1\n\
    length 4\n\
    grid 3 1\n\
    mirrors 2\n\
    delays 0 2\n\
    pace 0\n\
    player ann 0 0 e\n\
    player bob 2 0 w\n\
    cmd 0 0 0 0 go\n\
    cmd 0 1 0 1 go\n";

// Two mirrors, three shots of tick 0, and a move into their way.
pub const SHOTS: &str = "tss match 1\n\
    length 4\n\
    grid 3 2\n\
    mirrors 2\n\
    delays 0 2\n\
    pace 0\n\
    player ann 0 0 e\n\
    player bob 2 1 n\n\
    cmd 0 0 0 0 shoot\n\
    cmd 0 0 1 0 shoot\n\
    cmd 0 0 2 0 shoot\n\
    cmd 0 1 0 1 go\n";

// One mirror with two copies, a tick apart.
pub const TWO_COPIES: &str = "tss match 1\n\
    length 1\n\
    grid 3 1\n\
    mirrors 1\n\
    delays 0 1\n\
    pace 1\n\
    player ann 0 0 e\n";

// One copy five ticks behind.
pub const FIVE_BEHIND: &str = "tss match 1\n\
    length 2\n\
    grid 3 1\n\
    mirrors 1\n\
    delays 5\n";
