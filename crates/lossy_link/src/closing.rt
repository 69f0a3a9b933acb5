//! What is left in the links of a net, as net lines.

ghost use Rattle.std.specs.Prelude.{◌≡◌, ◌<◌, ◌≤◌, ◌++◌, ℕ, length, IfOk, OnOk, slice_index_or};
ghost use Rattle.lossy_link.specs.Links.{row_at};
ghost use Rattle.lossy_link.specs.Finish.{link_lines, row_lines, rows_lines};

use crate::link::Link;
use crate::links::Links;
use game_trait::MirrorId;
use lossy_text::NetLine;
use tss_base::NoMemory;

// Appends the lines of what is left in a link.
#[tactic(auto, unfolding(crate::specs::Finish::packet_lines))]
fn push_link(
    lines: &mut Vec<NetLine>,
    from: MirrorId,
    to: MirrorId,
    link: &Link,
) -> Result<(), NoMemory>
    ensures { OnOk result (lines.new.items ≡ lines.old.items ++ link_lines from to link.now) }
{
    let first = link.in_end().ack();
    for packet in first..link.out_end().len() {
        lines.push(NetLine::Send { from, to, packet })?;
        lines.push(NetLine::Carry { from, to, packet })?;
    }
    Ok(())
}

// Appends the lines of what is left in the links from a mirror, to this number of mirrors.
#[tactic(auto, unfolding(crate::specs::Finish::row_lines))]
fn push_row(
    lines: &mut Vec<NetLine>,
    links: &Links,
    from: MirrorId,
    mirrors: u8,
) -> Result<(), NoMemory>
    requires from { from < length links.now.rows }
    requires mirrors { mirrors ≡ length (row_at links.now.rows from) }
    ensures { OnOk result
        (lines.new.items ≡ lines.old.items ++ row_lines from 0 (row_at links.now.rows from)) }
{
    for to in 0..mirrors {
        push_link(lines, from, to, links.link(from, to))?;
    }
    Ok(())
}

/// Appends what is left in the links of this number of mirrors, each packet sent and carried. On
/// `NoMemory` some of it may have been appended.
#[tactic(auto, unfolding(crate::specs::Finish::rows_lines))]
pub fn push_left(lines: &mut Vec<NetLine>, links: &Links, mirrors: u8) -> Result<(), NoMemory>
    requires mirrors { mirrors ≡ length links.now.rows }
    requires rows { (from : ℕ) → from < mirrors → mirrors ≡ length (row_at links.now.rows from) }
    ensures { OnOk result (lines.new.items ≡ lines.old.items ++ rows_lines 0 links.now.rows) }
{
    for from in 0..mirrors {
        push_row(lines, links, from, mirrors)?;
    }
    Ok(())
}
