//! A command with its bytes.

ghost use Rattle.std.specs.Prelude.{◌≡◌, ◌≤◌, length};
ghost use Rattle.peer_queue.specs.Room.{sent_of};

use game_trait::Tick;

/// A command of a slot: when it is due, and its bytes, the first `size` of 64.
#[derive(Clone, Copy, Debug)]
pub struct SentBytes {
    /// The tick at which it is due.
    pub time: Tick,
    /// How many bytes it has.
    pub size: u8,
    /// Its bytes, and then zeroes.
    pub bytes: [u8; 64],
}

impl SentBytes {
    /// A command that is due at a tick, of at most 64 bytes.
    pub fn new(time: Tick, payload: &[u8]) -> SentBytes
        requires { length payload.now ≤ 64 }
        ensures sent { sent_of result ≡ record { time = time; bytes = payload.now } }
        ensures size { result.size ≡ length payload.now }
    {
        let mut bytes = [0; 64];
        let (front, _) = bytes.split_at_mut(payload.len());
        front.copy_from_slice(payload);
        SentBytes {
            time,
            size: payload.len() as u8,
            bytes,
        }
    }

    /// Its bytes, at most 64.
    pub fn payload(&self) -> &[u8]
        ensures bytes { result.now ≡ (sent_of self.now).bytes }
        ensures short { length result.now ≤ 64 }
    {
        let size = usize::from(self.size);
        if 64 <= size {
            return &self.bytes;
        }
        let (front, _) = self.bytes.split_at(size);
        front
    }
}
