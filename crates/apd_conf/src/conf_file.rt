//! Configuration files: a line gives a value to a name.
ghost use Rattle.std.specs.Prelude.{◌≡◌, ◌≢◌, ◌↔◌, ◌≤◌, Err, Some, IsTrue, IfSome, IfOk, IfErr, OnOk, MatchOption, unwrap_or, option_and_then, codes};
ghost use Rattle.std.specs.Option.{option_copied, option_map};
ghost use Rattle.apd_conf.specs.Lines.{lines};
ghost use Rattle.apd_conf.specs.Faults.{IsFirstFault, IsFaultless};
ghost use Rattle.apd_conf.specs.Table as table;
ghost use Rattle.apd_conf.specs.Table.{rule_of};
ghost use Rattle.apd_conf.specs.Values.{accepts, number_or_default};
ghost use Rattle.apd_conf.specs.ConfFile.{setting_of, refusal, line_fault, fault_at, value_in, value_of, IsConfOf, IsFaultOf};
ghost use Rattle.apd_conf.specs.declared.rule.Rule.{Rule as AnyRule};
ghost use Rattle.apd_conf.specs.declared.conf_fault.ConfFault.{ConfFault as Fault};
ghost use Rattle.apd_conf.specs.declared.conf_fault.ConfFault.TheVariants.{NoMemory};

use crate::fields::{conf_from, values_given};
use crate::lines::{is_skipped, lines_of};
use crate::rule::{Rule, rule_of};
use crate::values::accepts;
use crate::{Conf, ConfFault};
use bstr::ByteSlice;
use std::alloc::Global;

fn setting_of(line: &[u8]) -> Option<(&[u8], &[u8])>
    ensures { option_map (λ setting. (setting.0.now, setting.1.now)) result ≡ setting_of line.now }
{
    let place = line.find_byte(b'=')?;
    Some((&line[..place], &line[place + 1..]))
}

fn refusal(number: usize, rule: Rule) -> ConfFault
    ensures { result ≡ refusal number rule }
{
    match rule {
        Rule::Security => ConfFault::Security(number),
        _ => ConfFault::BadValue(number),
    }
}

fn line_fault(number: usize, line: &[u8]) -> Option<ConfFault>
    ensures { result ≡ line_fault number line.now }
{
    if is_skipped(line) {
        return None;
    }
    let Some((name, value)) = setting_of(line) else {
        return Some(ConfFault::NoEquals(number));
    };
    let Some(rule) = rule_of(name) else {
        return Some(ConfFault::Unknown(number));
    };
    if accepts(rule, value) {
        None
    } else {
        Some(refusal(number, rule))
    }
}

fn check(file: &[u8]) -> Result<(), ConfFault>
    ensures ok { OnOk result (IsFaultless (fault_at (lines file.now))) }
    ensures err { IfErr result (IsFaultOf (lines file.now)) }
{
    let mut number = 0;
    for line in lines_of(file) {
        number += 1;
        if let Some(fault) = line_fault(number, line) {
            return Err(fault);
        }
    }
    Ok(())
}

fn value_in<'a>(name: &[u8], line: &'a [u8]) -> Option<&'a [u8]>
    ensures { option_copied result ≡ value_in name.now line.now }
{
    if is_skipped(line) {
        return None;
    }
    let (found, value) = setting_of(line)?;
    if name == found { Some(value) } else { None }
}

#[tactic(auto, unfolding(crate::specs::ConfFile::value_of))]
pub(crate) fn value_of<'a>(name: &[u8], file: &'a [u8]) -> Option<&'a [u8]>
    ensures { option_copied result ≡ value_of name.now (lines file.now) }
{
    let mut last = None;
    for line in lines_of(file) {
        if let Some(value) = value_in(name, line) {
            last = Some(value);
        }
    }
    last
}

/// The configuration that a file gives. Its lists of addresses are empty.
///
/// # Errors
///
/// The fault of the first faulty line; where no line is faulty, the first of `interface`, `bssid` and `ssid`
/// that no line gives. Where the file has neither, memory may run out: the looking takes none.
pub fn read_conf(alloc: Global, file: &[u8]) -> Result<Conf, ConfFault>
    ensures ok { IfOk result (IsConfOf (lines file.now)) }
    ensures err { (fault : Fault) → fault ≢ NoMemory → ((result ≡ Err fault) ↔ IsFaultOf (lines file.now) fault) }
{
    check(file)?;
    let given = values_given(file)?;
    Ok(conf_from(alloc, file, given)?)
}
