//! The configurations of the daemon's radios.
ghost use Rattle.std.specs.Prelude.{◌≡◌, ◌≢◌, None, ◌↔◌, ℕ, List, slice_get, Err, IsOk, IfOk, OnOk, IfErr, IfSome, IfNone};
ghost use Rattle.std.specs.Option.{option_copied};
ghost use Rattle.apd_conf.specs.Confs.{interfaces, bssids, IsLeastRepeated, AreDistinct, AreConfs, IsRefused, conf_at, conf_meant, conf_named};
ghost use Rattle.apd_conf.specs.declared.confs_fault.ConfsFault.{ConfsFault as Fault};
ghost use Rattle.apd_conf.specs.declared.conf.Conf.{Conf as Configuration};
ghost use Rattle.apd_base.specs.declared.address.Bssid.{Bssid as Address};

use crate::{Conf, ConfsFault};
use apd_base::Bssid;
use apd_base::limits::MAX_BSS;
use std::alloc::{AllocError, Global};
use std::marker::Model;

/// The configurations of a daemon's radios, in the order in which they were given: 1 to 8 of them, no
/// two with one interface, and no two with one BSSID. Contracts see the list.
#[derive(Debug, Drop)]
pub struct Confs {
    list: Vec<Conf>,
}

impl Model for Confs {
    ghost use Rattle.std.specs.Prelude.{List};
    ghost use Rattle.apd_conf.specs.declared.conf.Conf.{Conf};
    ghost use Rattle.apd_conf.specs.for_proofs.Codes.{coded_confs};

    ghost Value = { List Conf };

    ghost coded = { coded_confs };

    ghost use Rattle.apd_conf.specs.Confs.{AreConfs};

    ghost view = { λ a. a.list.items };

    ghost invariant = { λ a. AreConfs a.list.items };
}

fn at_bssid(list: &[Conf], bssid: Bssid) -> Option<&Conf>
    ensures { option_copied result ≡ conf_at list.now bssid }
{
    list.iter().find(|conf| bssid.cmp(&conf.bssid).is_eq())
}

fn at_interface<'a>(list: &'a [Conf], name: &[u8]) -> Option<&'a Conf>
    ensures { option_copied result ≡ conf_named list.now name.now }
{
    list.iter()
        .find(|conf| name.cmp(&conf.interface.as_bytes()).is_eq())
}

fn repeated_interface(list: &[Conf]) -> Option<usize>
    ensures some { IfSome result (IsLeastRepeated (interfaces list.now)) }
    ensures none { IfNone result (AreDistinct (interfaces list.now)) }
{
    for (place, conf) in list.iter().enumerate() {
        if at_interface(&list[..place], conf.interface.as_bytes()).is_some() {
            return Some(place);
        }
    }
    None
}

fn repeated_bssid(list: &[Conf]) -> Option<usize>
    ensures some { IfSome result (IsLeastRepeated (bssids list.now)) }
    ensures none { IfNone result (AreDistinct (bssids list.now)) }
{
    for (place, conf) in list.iter().enumerate() {
        if at_bssid(&list[..place], conf.bssid).is_some() {
            return Some(place);
        }
    }
    None
}

fn copies(list: &[Conf], alloc: Global) -> Result<Vec<Conf>, AllocError>
    ensures { IfOk result (λ copies. copies.items ≡ list.now) }
{
    let mut copies = Vec::with_capacity(alloc, list.len())?;
    for conf in list {
        copies.push(conf.copy(alloc)?)?;
    }
    Ok(copies)
}

fn check(list: &[Conf]) -> Result<(), ConfsFault>
    ensures ok { OnOk result (AreConfs list.now) }
    ensures err { IfErr result (IsRefused list.now) }
{
    if list.is_empty() {
        return Err(ConfsFault::Empty);
    }
    if list.len() > MAX_BSS {
        return Err(ConfsFault::TooMany);
    }
    if let Some(place) = repeated_interface(list) {
        return Err(ConfsFault::SameInterface(place));
    }
    if let Some(place) = repeated_bssid(list) {
        return Err(ConfsFault::SameBssid(place));
    }
    Ok(())
}

impl Confs {
    /// The configurations of a list, if there are 1 to 8 and no interface and no BSSID is given twice;
    /// else the first of the faults that holds. It takes no memory.
    pub fn new(list: Vec<Conf>) -> Result<Confs, ConfsFault>
        ensures ok { IsOk result ↔ AreConfs list.items }
        ensures confs { IfOk result (λ confs. confs ≡ list.items) }
        ensures err { (fault : Fault) → ((result ≡ Err fault) ↔ IsRefused list.items fault) }
    {
        check(&list)?;
        Ok(Confs { list })
    }

    /// The configurations in their order. It takes no memory.
    pub fn list(&self) -> &[Conf]
        ensures list { result.now ≡ self.now }
        ensures confs { AreConfs result.now }
    {
        self.list.as_slice()
    }

    /// The configuration of a BSSID, if there is one. It takes no memory.
    pub fn with_bssid(&self, bssid: Bssid) -> Option<&Conf>
        ensures { option_copied result ≡ conf_at self.now bssid }
    {
        at_bssid(&self.list, bssid)
    }

    /// The configuration of an interface, by the bytes of its name, if there is one. It takes no memory.
    pub fn with_interface(&self, name: &[u8]) -> Option<&Conf>
        ensures { option_copied result ≡ conf_named self.now name.now }
    {
        at_interface(&self.list, name)
    }

    /// The configuration of the interface that a command names, and the first one where it names none. It takes no
    /// memory.
    pub fn for_command(&self, interface: Option<&[u8]>) -> Option<&Conf>
        ensures { option_copied result ≡ conf_meant self.now (option_copied interface.entry) }
    {
        match interface {
            Some(name) => self.with_interface(name),
            None => self.list().first(),
        }
    }

    /// A second list of them.
    pub fn copy(&self, alloc: Global) -> Result<Confs, AllocError>
        ensures { IfOk result (λ confs. confs ≡ self.now) }
    {
        Ok(Confs {
            list: copies(&self.list, alloc)?,
        })
    }
}

/// What is found for a BSSID or an interface has it and stands in the list; where none is found, none in
/// the list has it; and each configuration of a daemon is found by its own.
pub fn look_up_laws()
    ensures bssid { (confs : List Configuration) (bssid : Address) (conf : Configuration)
        → conf_at confs bssid ≡ Some conf → conf.bssid ≡ bssid }
    ensures own_bssid { (confs : List Configuration) → AreConfs confs → (place : ℕ) (conf : Configuration)
        → slice_get confs place ≡ Some conf → conf_at confs conf.bssid ≡ Some conf }
    ensures interface { (confs : List Configuration) (name : List ℕ) (conf : Configuration)
        → conf_named confs name ≡ Some conf → conf.interface ≡ name }
    ensures own_interface { (confs : List Configuration) → AreConfs confs → (place : ℕ) (conf : Configuration)
        → slice_get confs place ≡ Some conf → conf_named confs conf.interface ≡ Some conf }
    ensures bssid_listed { (confs : List Configuration) (bssid : Address) (conf : Configuration)
        → conf_at confs bssid ≡ Some conf → (place : ℕ) × (slice_get confs place ≡ Some conf) }
    ensures interface_listed { (confs : List Configuration) (name : List ℕ) (conf : Configuration)
        → conf_named confs name ≡ Some conf → (place : ℕ) × (slice_get confs place ≡ Some conf) }
    ensures no_bssid { (confs : List Configuration) (bssid : Address) → conf_at confs bssid ≡ None
        → (place : ℕ) (conf : Configuration) → slice_get confs place ≡ Some conf → conf.bssid ≢ bssid }
    ensures no_interface { (confs : List Configuration) (name : List ℕ) → conf_named confs name ≡ None
        → (place : ℕ) (conf : Configuration) → slice_get confs place ≡ Some conf → conf.interface ≢ name }
{}
