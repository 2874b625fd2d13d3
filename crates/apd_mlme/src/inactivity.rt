//! The end of a station that was silent for too long (own).
ghost use Rattle.std.specs.Prelude.{◌≡◌, false, IfOk, OnErr};
ghost use Rattle.apd_mlme.specs.rules.Inactivity.{inactivity_verdict};
ghost use Rattle.apd_mlme.specs.Verdict.{is_nothing};

use crate::draft::Draft;
use crate::leaving::{push_outs_of_drop, push_outs_of_end, put_back, row_drop};
use apd_base::{Addr, Bssid, Sequence, Station};
use apd_frame::Reason;
use apd_table::Table;
use std::alloc::{AllocError, Global};

/// What the silence of a station brings about. Without a row it is nothing, and takes no memory.
pub fn expire(alloc: Global, table: &Table, bssid: Bssid, addr: Addr) -> Result<Draft, AllocError>
    ensures changes { IfOk result (λ d. d.changes ≡ (inactivity_verdict table.now bssid addr).changes) }
    ensures outs { IfOk result (λ d. d.outs ≡ (inactivity_verdict table.now bssid addr).outs) }
    ensures lacks { OnErr result (is_nothing (inactivity_verdict table.now bssid addr) ≡ false) }
{
    let mut outs = Sequence::new(alloc);
    match table.get(bssid, addr) {
        Some(Station::Associated(_)) => {
            push_outs_of_end(alloc, bssid, addr, Reason::INACTIVITY, &mut outs)?;
            put_back(alloc, bssid, addr, outs)
        }
        Some(Station::Authenticated) => {
            let reason = Reason::INVALID_AUTHENTICATION;
            push_outs_of_drop(alloc, table, bssid, addr, reason, &mut outs)?;
            row_drop(alloc, bssid, addr, outs)
        }
        None => Ok(Draft::nothing(alloc)),
    }
}
