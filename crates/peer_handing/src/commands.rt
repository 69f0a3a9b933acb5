//! A slot's last commands, as a snapshot has them.

ghost use Rattle.std.specs.Prelude.{◌≡◌, ◌+◌, ◌*◌, ◌^◌, ◌≤◌, ◌<◌, length, take, drop};
ghost use Rattle.std.specs.List.{flat_map};
ghost use Rattle.peer_packet.specs.Packet.{sent_bytes};
ghost use Rattle.peer_packet.specs.Putting.{Puts};

use peer_packet::{Commands, put_sent};

/// How many bytes so many commands from a place on have.
pub fn commands_size<C: Commands>(commands: &C, from: usize, count: usize) -> usize
    requires there { from + count ≤ length (C.commands commands.now) }
    requires few { from + count < 2 ^ 32 }
    ensures size { result ≡ length (flat_map sent_bytes (take count (drop from (C.commands commands.now)))) }
    ensures most { result ≤ 260 * count }
{
    let mut size = 0;
    for place in 0..count {
        size += 5 + commands.payload(from + place).len();
    }
    size
}

/// Puts them behind a place, and answers the place behind them.
pub fn put_commands<C: Commands>(
    out: &mut [u8],
    at: usize,
    commands: &C,
    from: usize,
    count: usize,
) -> usize
    requires there { from + count ≤ length (C.commands commands.now) }
    requires few { from + count < 2 ^ 32 }
    requires room { at + length (flat_map sent_bytes (take count (drop from (C.commands commands.now)))) ≤ length out.old }
    ensures { Puts out.old out.new at result (flat_map sent_bytes (take count (drop from (C.commands commands.now)))) }
{
    let mut behind = at;
    for place in 0..count {
        let time = commands.time(from + place);
        behind = put_sent(out, behind, time, commands.payload(from + place));
    }
    behind
}
