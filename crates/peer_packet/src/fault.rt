//! Why bytes are refused.

ghost use Rattle.std.specs.Prelude.{◌≡◌};
ghost use Rattle.peer_packet.specs.Fields.{field_of};

/// Why bytes are no packet of the session: the first fault from left to right, by the field where it
/// was found.
#[derive(Clone, Copy, Debug, PartialEq, Eq)]
pub enum Fault {
    /// The first byte is another.
    Kind,
    /// Cut in the session's number.
    Session,
    /// Another session's number.
    OtherSession,
    /// Cut in the slots of who says it to whom, or these aren't two slots of the session.
    Ends,
    /// Cut in the flags or the clocks, or other flags.
    Head,
    /// Cut in the counts, a bit of no slot, or a count of 0.
    Vector,
    /// Cut in the mark.
    Mark,
    /// Cut in a part's head, or a part that can't stand there.
    Part,
    /// Cut in a command, or one that can't stand there.
    Command,
    /// Bytes behind a snapshot's end.
    Rest,
}

impl Fault {
    /// The number of the field where it was found, 1 to 9 in the order of the bytes, as the library for C
    /// tells it; 0 where the bytes are of another session.
    pub fn number(self) -> u8
        ensures { result ≡ field_of self }
    {
        match self {
            Fault::OtherSession => 0,
            Fault::Kind => 1,
            Fault::Session => 2,
            Fault::Ends => 3,
            Fault::Head => 4,
            Fault::Vector => 5,
            Fault::Mark => 6,
            Fault::Part => 7,
            Fault::Command => 8,
            Fault::Rest => 9,
        }
    }
}
