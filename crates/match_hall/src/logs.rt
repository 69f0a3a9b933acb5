//! What is kept of mirrors: the events that changed them.

ghost use Rattle.std.specs.Prelude.{◌≡◌, ◌++◌, ◌≤◌, [], ◌∷◌, length, OnOk, OnErr, IfOk};
ghost use Rattle.match_hall.specs.Script.{log_of, logs_from};

use game_trait::{Game, MirrorId};
use match_data::MirrorLog;
use mirror_core::{MirrorWith, Mirrored, RefreshPolicy};
use std::alloc::Global;
use tss_base::{NoMemory, Seq};

/// Appends the log of the mirror of this number: the events that changed it, in order. On `NoMemory`
/// the logs are unchanged.
pub fn push_log<G: Game, M: Mirrored<G>>(
    alloc: Global,
    number: MirrorId,
    mirror: &M,
    logs: &mut Seq<MirrorLog>,
) -> Result<(), NoMemory>
    ensures ok { OnOk result (logs.new
        ≡ logs.old ++ log_of number (M.state mirror.now) ∷ []) }
    ensures err { OnErr result (logs.new ≡ logs.old) }
{
    let events = Vec::from_slice(alloc, mirror.events())?;
    logs.push(MirrorLog::new(number, events))
}

/// The logs of mirrors of either kind, mirror 0 first. On `NoMemory` nothing is created.
#[tactic(auto, unfolding(crate::specs::Script::logs_from))]
pub fn logs_of<G: Game, P: RefreshPolicy>(
    alloc: Global,
    mirrors: &[MirrorWith<G, P>],
) -> Result<Seq<MirrorLog>, NoMemory>
    requires { length mirrors.now ≤ 8 }
    ensures { IfOk result (λ kept. kept ≡ logs_from 0 mirrors.now) }
{
    let mut kept = Seq::new(alloc);
    let mut number: MirrorId = 0;
    for mirror in mirrors {
        push_log::<G, _>(alloc, number, mirror, &mut kept)?;
        number += 1;
    }
    Ok(kept)
}

/// The logs of mirrors of either kind, mirror 0 first, which take the mirrors' events over. On
/// `NoMemory` nothing is created.
#[tactic(auto, unfolding(crate::specs::Script::logs_from))]
pub fn into_logs<G: Game, P: RefreshPolicy>(
    alloc: Global,
    mirrors: Vec<MirrorWith<G, P>>,
) -> Result<Seq<MirrorLog>, NoMemory>
    requires { length mirrors.items ≤ 8 }
    ensures { IfOk result (λ kept. kept ≡ logs_from 0 mirrors.items) }
{
    let mut kept = Seq::new(alloc);
    let mut number: MirrorId = 0;
    for mirror in mirrors {
        kept.push(MirrorLog::new(number, mirror.into_events()))?;
        number += 1;
    }
    Ok(kept)
}
