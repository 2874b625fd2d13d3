//! Control commands that edit a list (own).
ghost use Rattle.std.specs.Prelude.{◌≡◌, nat_le, IfOk, IsSome};
ghost use Rattle.apd_base.specs.Sets.{contains};
ghost use Rattle.apd_base.specs.State.{list_count, policy_at};
ghost use Rattle.apd_base.specs.declared.limits.TheConstants.{MAX_LISTED};
ghost use Rattle.apd_mlme.specs.rules.Commands.{change_of, list_edit_verdict, unanswered_edit};

use crate::command_answer::{Answer, with_answer};
use crate::draft::Draft;
use crate::leaving::drop_denied;
use apd_base::limits::MAX_LISTED;
use apd_base::{Addr, Bssid, Which};
use apd_event::Edit;
use apd_record::Change;
use apd_table::Table;
use std::alloc::{AllocError, Global};

/// The change that an edit is.
fn change_of(bssid: Bssid, which: Which, edit: Edit) -> Change
    ensures { result ≡ change_of bssid which edit }
{
    match edit {
        Edit::Add(addr) => Change::ListAdd { bssid, which, addr },
        Edit::Remove(addr) => Change::ListDel { bssid, which, addr },
        Edit::Clear => Change::ListClear { bssid, which },
    }
}

/// The edit is made: before it, each station ends that the policy denies by the lists after it.
fn unanswered_edit(
    alloc: Global,
    table: &Table,
    bssid: Bssid,
    which: Which,
    edit: Edit,
) -> Result<Draft, AllocError>
    requires { IsSome (policy_at table.now bssid) }
    ensures changes { IfOk result (λ d. d.changes ≡ (unanswered_edit table.now bssid which edit).changes) }
    ensures outs { IfOk result (λ d. d.outs ≡ (unanswered_edit table.now bssid which edit).outs) }
{
    let change = change_of(bssid, which, edit);
    let denied = table.denials_after(alloc, bssid, &change)?;
    let mut decision = drop_denied(alloc, table, bssid, denied.as_slice())?;
    decision.changes.push(change)?;
    Ok(decision)
}

fn is_listed(table: &Table, bssid: Bssid, which: Which, addr: Addr) -> bool
    requires { IsSome (policy_at table.now bssid) }
    ensures { result ≡ contains table.now.lists (bssid, which, addr) }
{
    match table.lists(bssid) {
        Some(lists) => lists.has(which, addr),
        None => false,
    }
}

fn is_full(table: &Table, bssid: Bssid, which: Which) -> bool
    requires { IsSome (policy_at table.now bssid) }
    ensures { result ≡ nat_le MAX_LISTED (list_count table.now bssid which) }
{
    match table.lists(bssid) {
        Some(lists) => MAX_LISTED <= lists.len(which),
        None => false,
    }
}

/// What a command brings about that edits a list. It is refused where a new address comes to a full list.
pub fn list_edit(
    alloc: Global,
    table: &Table,
    bssid: Bssid,
    which: Which,
    edit: Edit,
    tag: u64,
) -> Result<Draft, AllocError>
    requires { IsSome (policy_at table.now bssid) }
    ensures changes { IfOk result (λ d. d.changes ≡ (list_edit_verdict table.now bssid which edit tag).changes) }
    ensures outs { IfOk result (λ d. d.outs ≡ (list_edit_verdict table.now bssid which edit tag).outs) }
{
    let nothing = Draft::nothing(alloc);
    let (answer, decision) = match edit {
        Edit::Add(addr) if is_listed(table, bssid, which, addr) => (Answer::Done, nothing),
        Edit::Add(_) if is_full(table, bssid, which) => (Answer::Refused, nothing),
        Edit::Remove(addr) if !is_listed(table, bssid, which, addr) => (Answer::Done, nothing),
        edit => (
            Answer::Done,
            unanswered_edit(alloc, table, bssid, which, edit)?,
        ),
    };
    with_answer(alloc, tag, answer, decision)
}
