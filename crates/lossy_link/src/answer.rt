//! A match over a lossy net, and its text.

ghost use Rattle.std.specs.Prelude.{◌≡◌, IfOk};
ghost use Rattle.match_hall.specs.Report.{Showing};
ghost use Rattle.match_hall.specs.Script.{logs_from};
ghost use Rattle.lossy_link.specs.Net.{made_net};
ghost use Rattle.lossy_link.specs.Finish.{ended_net, lossy_text};

use crate::net::Net;
use game_trait::Game;
use lossy_text::LossyText;
use match_hall::Played;
use match_setup::Shown;
use std::alloc::Global;
use tss_base::{NoMemory, Seq};

/// Plays a match that opens with this world over a lossy net: all its lines, then what is left in
/// the links is sent and carried, and the mirrors are drained. The text is what the lines print,
/// and then the mirrors at their end, as a match that is played ends. On `NoMemory` nothing is
/// returned.
pub fn lossy<G: Game + Shown>(alloc: Global, x: &LossyText, opening: &G) -> Result<Played, NoMemory>
    ensures text { let show : Showing G =
        record { rules = G.rules; lines = G.lines; names = x.now.game.names } in
        IfOk result (λ a. a.text ≡ lossy_text show opening.now x.now) }
    ensures kept { IfOk result (λ a. a.kept
        ≡ logs_from 0 (ended_net x.now.game.commands (made_net opening.now x.now)).mirrors) }
{
    let mut text = Vec::new(alloc);
    let mut net = Net::over(alloc, x, opening, &mut text)?;
    net.finish(x, &mut text)?;
    let kept = net.into_logs(alloc)?;
    Ok(Played {
        text: Seq::of(text),
        kept,
    })
}
