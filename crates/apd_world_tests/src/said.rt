//! What is told of a step, in short.
use apd_mlme::{Out, Recipient};
use apd_slot::SlotFault;
use apd_world::Told;
use std::alloc::Global;

/// What is told of a step, in short: of an out that was applied only what came of it.
#[derive(Clone, Copy, Debug, PartialEq, Eq)]
pub(crate) enum Said {
    Queued(usize),
    Handed(usize),
    /// A station was installed under this identifier.
    Installed(u16),
    Sent,
    Refused(SlotFault),
    Nothing,
    Other,
}

/// An answer, with its recipient.
pub(crate) type Answer = (Recipient, Said);

pub(crate) fn in_short(told: &Told) -> Said {
    match told {
        Told::Queued(count) => Said::Queued(*count),
        Told::Handed(outs) => Said::Handed(outs.len()),
        Told::Applied(Out::Install(_, aid), Ok(())) => Said::Installed(aid.number),
        Told::Applied(Out::Frame(_), Ok(())) => Said::Sent,
        Told::Applied(_, Err(fault)) => Said::Refused(*fault),
        Told::Nothing => Said::Nothing,
        _ => Said::Other,
    }
}

pub(crate) fn all_said(alloc: Global, answers: &[(Recipient, Told)]) -> Option<Vec<Answer>> {
    let mut all = Vec::new(alloc);
    for (to, told) in answers {
        all.push((*to, in_short(told))).ok()?;
    }
    Some(all)
}
