//! The start of a BSSID with its configuration and its lists (own).
ghost use Rattle.std.specs.Prelude.{◌≡◌, ◌++◌, [], IfOk, OnOk};
ghost use Rattle.apd_conf.specs.Conf.{policy_of};
ghost use Rattle.apd_record.specs.declared.change.Change.TheVariants.{Policy};
ghost use Rattle.apd_mlme.specs.rules.Configuration.{configure_verdict, later_start, first_changes, additions};

use crate::draft::Draft;
use crate::leaving::drop_denied;
use apd_base::{Addr, Bssid, Sequence, Which};
use apd_conf::Conf;
use apd_record::{Change, Changes};
use apd_table::Table;
use std::alloc::{AllocError, Global};

/// The policy row of a configuration.
fn policy_row(conf: &Conf, bssid: Bssid) -> Change
    ensures { result ≡ Policy bssid (policy_of conf.now) }
{
    Change::Policy {
        bssid,
        policy: conf.policy(),
    }
}

/// What the start of a BSSID with a policy row brings about: its policy row, and before it the end of
/// each station that the policy denies by the stored lists.
fn later_start(alloc: Global, table: &Table, conf: &Conf, bssid: Bssid) -> Result<Draft, AllocError>
    ensures changes { IfOk result (λ d. d.changes ≡ (later_start table.now conf.now bssid).changes) }
    ensures outs { IfOk result (λ d. d.outs ≡ (later_start table.now conf.now bssid).outs) }
{
    let denied = table.denials_by(alloc, bssid, conf.macaddr_acl)?;
    let mut decision = drop_denied(alloc, table, bssid, denied.as_slice())?;
    decision.changes.push(policy_row(conf, bssid))?;
    Ok(decision)
}

/// Adds the changes that put addresses into a list, one for each, in their order.
fn push_additions(
    bssid: Bssid,
    which: Which,
    addresses: &[Addr],
    changes: &mut Changes,
) -> Result<(), AllocError>
    ensures { OnOk result (changes.new ≡ changes.old ++ additions bssid which addresses.now) }
{
    for addr in addresses {
        changes.push(Change::ListAdd {
            bssid,
            which,
            addr: *addr,
        })?;
    }
    Ok(())
}

/// What the start of a BSSID without a policy row brings about: the row, and then its two lists.
fn first_start(
    alloc: Global,
    conf: &Conf,
    bssid: Bssid,
    accept: &[Addr],
    deny: &[Addr],
) -> Result<Draft, AllocError>
    ensures changes { IfOk result (λ d. d.changes ≡ first_changes conf.now bssid accept.now deny.now) }
    ensures outs { IfOk result (λ d. d.outs ≡ []) }
{
    let policy = policy_row(conf, bssid);
    let mut changes = Changes::new(alloc);
    changes.push(policy)?;
    push_additions(bssid, Which::Accept, accept, &mut changes)?;
    push_additions(bssid, Which::Deny, deny, &mut changes)?;
    Ok(Draft {
        changes,
        outs: Sequence::new(alloc),
    })
}

/// What the start of a BSSID brings about. Its lists count where it has no policy row yet; where it has
/// one, the stored lists stay.
pub fn configure(
    alloc: Global,
    table: &Table,
    conf: &Conf,
    bssid: Bssid,
    accept: &[Addr],
    deny: &[Addr],
) -> Result<Draft, AllocError>
    ensures changes { IfOk result
        (λ d. d.changes ≡ (configure_verdict table.now conf.now bssid accept.now deny.now).changes) }
    ensures outs { IfOk result (λ d. d.outs ≡ (configure_verdict table.now conf.now bssid accept.now deny.now).outs) }
{
    match table.policy(bssid) {
        Some(_) => later_start(alloc, table, conf, bssid),
        None => first_start(alloc, conf, bssid, accept, deny),
    }
}
