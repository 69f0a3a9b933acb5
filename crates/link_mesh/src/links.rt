//! The links of a mesh: made, and looked at once nobody sends any more.

ghost use Rattle.std.specs.Prelude.{◌≡◌, ℕ, ◌+◌, ◌-◌, ◌<◌, ◌≤◌, cond, [], length, slice_index_or, OnOk, IfOk, ◌++◌, nat_lt, List};
ghost use Rattle.std.specs.List.{AllByRecursion, AllZip};
ghost use Rattle.link_mesh.specs.NewMesh.{IsJoined, long_at, AreMade, IsRowMade, AreLinksTo, AreEmpty};
ghost use Rattle.link_ring.specs.declared.message.Message.{Message};
ghost use Rattle.link_ring.specs.Ends.{sent_of, received_of, waiting_of};
ghost use Rattle.link_mesh.specs.Mesh.{sender_at, place_at, SameSent, SameReceived, SameSends, IsLinkedAt, IsRowLinked, AllSent, IsWholeTo};

use link_ring::{LinkReceive, LinkSend, link, rest};
use std::alloc::Global;
use tss_base::NoMemory;

// Makes one more link, and puts its ends behind the others.
fn join_mirrors(
    alloc: Global,
    room: u32,
    sends: &mut Vec<LinkSend>,
    row: &mut Vec<LinkReceive>,
) -> Result<(), NoMemory>
    requires { 1 ≤ room }
    ensures { OnOk result (IsJoined room sends.old sends.new row.old row.new) }
{
    let (send, receive) = link(alloc, room)?;
    sends.push(send)?;
    row.push(receive)?;
    Ok(())
}

// Makes the links to one mirror, where those to the mirrors below it are made.
fn make_row(
    alloc: Global,
    mirror: usize,
    rooms: &[u32],
    sends: &mut [Vec<LinkSend>],
) -> Result<Vec<LinkReceive>, NoMemory>
    requires there { mirror < length rooms.now }
    requires few { length rooms.now < 256 }
    requires rooms { AllByRecursion (λ room. 1 ≤ room) rooms.now }
    requires count { length sends.old ≡ length rooms.now }
    requires made { AreMade rooms.now (long_at mirror) sends.old }
    ensures { IfOk result (λ row.
        IsRowMade mirror (length rooms.now - 1) rooms.now sends.old sends.new row.items) }
{
    let mut row = Vec::new(alloc);
    for link in 0..rooms.len() - 1 {
        let sender = sender_of(mirror, link);
        join_mirrors(alloc, rooms[sender], &mut sends[sender], &mut row)?;
    }
    Ok(row)
}

// So many empty lists.
fn empty_sends(alloc: Global, mirrors: usize) -> Result<Vec<Vec<LinkSend>>, NoMemory>
    ensures { IfOk result (λ sends. AreEmpty mirrors sends.items) }
{
    let mut sends = Vec::new(alloc);
    for _ in 0..mirrors {
        sends.push(Vec::new(alloc))?;
    }
    Ok(sends)
}

/// Makes the links of a mesh, from each mirror to each other: `rooms` has, mirror by mirror, how
/// many messages a link of this sender has room for. The first list holds the ends that each mirror
/// sends on, the second those that it receives on, both by rising other mirror. `NoMemory` where
/// there isn't memory for them; then all that was made is let go.
pub fn make_links(
    alloc: Global,
    rooms: &[u32],
) -> Result<(Vec<Vec<LinkSend>>, Vec<Vec<LinkReceive>>), NoMemory>
    requires few { length rooms.now < 256 }
    requires rooms { AllByRecursion (λ room. 1 ≤ room) rooms.now }
    ensures { IfOk result (λ r. AreLinksTo (length rooms.now) rooms.now r.0.items r.1.items) }
{
    let mut sends = empty_sends(alloc, rooms.len())?;
    let mut rows = Vec::new(alloc);
    for mirror in 0..rooms.len() {
        let row = make_row(alloc, mirror, rooms, &mut sends)?;
        rows.push(row)?;
    }
    Ok((sends, rows))
}

// Looks at one link, whose other end stands at a place among its sender's.
fn look_one(sends: &mut [LinkSend], place: usize, link: &mut LinkReceive)
    requires { IsLinkedAt place sends.old link.old }
    ensures sends { AllZip SameSent sends.old sends.new }
    ensures received { SameReceived link.old link.new }
    ensures whole { (sent : List Message) → AllByRecursion (λ s. sent_of s ≡ sent) sends.old
        → received_of link.new ++ waiting_of link.new ≡ sent }
{
    let _left = rest(&mut sends[place], link);
}

/// The sender of a mirror's link of this number: the links to a mirror stand by rising sender, and
/// none comes from itself.
pub fn sender_of(mirror: usize, link: usize) -> usize
    requires { link < 256 }
    ensures { result ≡ sender_at mirror link }
{
    if link < mirror { link } else { link + 1 }
}

// The place of that link among its sender's.
fn place_of(mirror: usize, link: usize) -> usize
    ensures { result ≡ place_at mirror link }
{
    if link < mirror { mirror - 1 } else { mirror }
}

/// Looks at each link to a mirror, so that afterwards all messages that were sent and not received
/// are known to wait there. Nothing is sent or received by it. `sends` has each mirror's sending
/// ends.
pub fn look_row(mirror: usize, sends: &mut [Vec<LinkSend>], row: &mut [LinkReceive])
    requires mirrors { length row.old + 1 ≡ length sends.old }
    requires few { length row.old < 256 }
    requires linked { IsRowLinked mirror sends.old row.old }
    ensures sends { AllZip SameSends sends.old sends.new }
    ensures row { AllZip SameReceived row.old row.new }
    ensures whole { (sent : ℕ → List Message) → AllSent sent sends.old
        → IsWholeTo sent mirror (length row.old) row.new }
{
    for link in 0..row.len() {
        let sender = sender_of(mirror, link);
        look_one(&mut sends[sender], place_of(mirror, link), &mut row[link]);
    }
}
