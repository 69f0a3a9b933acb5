//! What a peer answers to calls.

use crate::told::Told;
use game_trait::Ticked;

/// What a peer answers where a packet is to be made.
#[derive(Clone, Copy, Debug, PartialEq, Eq)]
pub enum PacketAnswer {
    /// There is no such other peer.
    NotThere,
    /// The buffer has no room for the packet's head.
    Short {
        /// How many bytes the head has.
        head: usize,
    },
    /// The packet was put.
    Made {
        /// More is due than is in it: the next packet goes on behind this one.
        is_more: bool,
        /// How many bytes it has.
        size: usize,
    },
}

/// What a peer answers to a packet of its session. A refused packet changes nothing.
#[derive(Clone, Copy, Debug, PartialEq, Eq)]
pub enum HearAnswer {
    /// It is for another peer.
    NotForMe,
    /// It tells of more commands of this peer, or of a later clock of it, than there are.
    Ahead,
    /// It has commands of a slot that don't follow those that are here: two lives on one slot.
    Conflict {
        /// The slot.
        origin: u8,
    },
    /// It was heard.
    Heard {
        /// Whose it is.
        from: u8,
        /// What came of it.
        told: Told,
    },
}

/// What a peer answers to a turn.
#[derive(Clone, Copy, Debug, PartialEq, Eq)]
pub struct TurnAnswer {
    /// Whether the clock moved.
    pub ticked: Ticked,
    /// The most copies that one of the steps repaired, counted from copy 0.
    pub repaired: u8,
}

/// What a peer answers where what it hands to a joiner is to be put.
#[derive(Clone, Copy, Debug, PartialEq, Eq)]
pub enum SnapshotAnswer {
    /// The buffer is shorter.
    TooShort {
        /// How many bytes it has.
        size: usize,
    },
    /// It was put.
    Put {
        /// How many bytes it has.
        size: usize,
    },
}

/// Why a peer doesn't join by a snapshot of the session.
#[derive(Clone, Copy, Debug, PartialEq, Eq)]
pub enum JoinRefusal {
    /// The slot is the snapshot's maker's, or has issued commands.
    Used,
    /// A command is due where the joiner's window doesn't reach.
    TooFar,
    /// There are more commands of a slot than the joiner has room for.
    TooMany,
}
