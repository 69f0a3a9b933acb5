//! The ends of a link are sent to threads.

ghost use Rattle.std.specs.Prelude.{◌≡◌};

use crate::receive::LinkReceive;
use crate::send::LinkSend;
use std::thread::{Threads, join};

/// Sends the two ends to a thread each and back. Nothing goes over the link. That this is proved
/// shows that each end may be sent to another thread.
pub fn cross<R: Threads + Sync>(
    rt: &R,
    send: LinkSend,
    receive: LinkReceive,
) -> (LinkSend, LinkReceive)
    ensures send { result.0 ≡ send }
    ensures receive { result.1 ≡ receive }
{
    join(
        rt,
        move || -> LinkSend
            ensures { result ≡ send }
        { send },
        move || -> LinkReceive
            ensures { result ≡ receive }
        { receive },
    )
}
