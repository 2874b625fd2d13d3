//! The configurations that a daemon is given by files: each by what was read for it.
ghost use Rattle.std.specs.Prelude.{◌≡◌, ◌≢◌, [], ◌∷◌, List, IfOk, IfErr};
ghost use Rattle.std.specs.List.{AllZip};
ghost use Rattle.std.specs.Option.{option_copied};
ghost use Rattle.apd_conf.specs.BuiltIn.{built_in};
ghost use Rattle.apd_conf.specs.Files.{AreConfigured, AreOfFiles, IsConfFault, IsConfOfFile, IsConfigured, IsFault, IsFaultOfFiles, IsFirstFault, IsListFault, IsListOfFile, IsUnread, readable};
ghost use Rattle.apd_conf.specs.declared.configuration.ConfigurationFault.TheVariants.{NoMemory};

use crate::conf_file::read_conf;
use crate::list_file::read_list;
use crate::{AddressList, Conf, ConfFault, Confs, ConfsFault, FileName, ListFault};
use apd_base::Sequence;
use std::alloc::{AllocError, Global};
use thiserror::Error;

/// Bytes of a configuration file or of a list file (own). One that has more can't be read.
pub const MAX_FILE: usize = 16_777_216;

/// What was read for one radio: of each file its bytes, or none where it can't be read. Of a file that
/// has more than `MAX_FILE` bytes any that are more.
#[derive(Debug, Drop)]
pub struct FilesRead {
    /// The name of its configuration file.
    pub name: String,
    /// Its configuration file.
    pub file: Option<Sequence<u8>>,
    /// The accept file that this one names; of no account where it names none.
    pub accept: Option<Sequence<u8>>,
    /// The deny file that it names; of no account where it names none.
    pub deny: Option<Sequence<u8>>,
}

/// Why there are no configurations.
#[derive(Debug, Drop, Error)]
pub enum ConfigurationFault {
    /// The file of this name can't be read.
    #[error("cannot read {0}")]
    CannotRead(String),
    /// A configuration file is refused.
    #[error("{0}")]
    Conf(ConfFault),
    /// A list file is refused.
    #[error("{0}")]
    List(ListFault),
    /// The configurations are refused together.
    #[error("{0}")]
    Confs(ConfsFault),
    /// A growth was refused.
    #[error("out of memory")]
    NoMemory,
}

impl From<AllocError> for ConfigurationFault {
    ghost from_gives = { λ _ fault. fault ≡ NoMemory };

    fn from(_: AllocError) -> ConfigurationFault {
        ConfigurationFault::NoMemory
    }
}

/// The greatest size of a file, in numbers: every other contract cites it by name.
pub fn file_limit_law()
    ensures { MAX_FILE ≡ 16777216 }
{}

// The bytes of a file that can be read.
fn readable(file: &Option<Sequence<u8>>) -> Option<&[u8]>
    ensures { option_copied result ≡ readable file.now }
{
    match file {
        Some(bytes) if bytes.len() <= MAX_FILE => Some(bytes.as_slice()),
        _ => None,
    }
}

// That the file of a name can't be read.
fn cannot_read(alloc: Global, name: &str) -> ConfigurationFault
    ensures { result ≢ NoMemory → IsUnread name.now result }
{
    match String::from_str(alloc, name) {
        Ok(name) => ConfigurationFault::CannotRead(name),
        Err(_) => ConfigurationFault::NoMemory,
    }
}

// The configuration of the file of a name.
fn conf_of(
    alloc: Global,
    name: &str,
    file: &Option<Sequence<u8>>,
) -> Result<Conf, ConfigurationFault>
    ensures ok { IfOk result (IsConfOfFile (readable file.now)) }
    ensures err { IfErr result (λ fault. fault ≢ NoMemory → IsConfFault name.now (readable file.now) fault) }
{
    let Some(bytes) = readable(file) else {
        return Err(cannot_read(alloc, name));
    };
    match read_conf(alloc, bytes) {
        Ok(conf) => Ok(conf),
        Err(ConfFault::NoMemory) => Err(ConfigurationFault::NoMemory),
        Err(fault) => Err(ConfigurationFault::Conf(fault)),
    }
}

// The addresses of a list file, and none where no file is named.
fn addresses_of(
    alloc: Global,
    name: &Option<FileName>,
    file: &Option<Sequence<u8>>,
) -> Result<AddressList, ConfigurationFault>
    ensures ok { IfOk result (IsListOfFile name.now (readable file.now)) }
    ensures err { IfErr result (λ fault. fault ≢ NoMemory → IsListFault name.now (readable file.now) fault) }
{
    let Some(name) = name else {
        return Ok(AddressList::new(alloc));
    };
    let Some(bytes) = readable(file) else {
        return Err(cannot_read(alloc, name.as_str()));
    };
    match read_list(alloc, bytes) {
        Ok(list) => Ok(list),
        Err(ListFault::NoMemory) => Err(ConfigurationFault::NoMemory),
        Err(fault) => Err(ConfigurationFault::List(fault)),
    }
}

/// The configuration of one radio, with the lists of the files that its own names.
///
/// # Errors
///
/// The first that comes: its configuration file can't be read, or is refused; the same of its accept file;
/// the same of its deny file; or memory runs out.
fn configuration(alloc: Global, read: &FilesRead) -> Result<Conf, ConfigurationFault>
    ensures ok { IfOk result (IsConfigured read.now) }
    ensures err { IfErr result (λ fault. fault ≢ NoMemory → IsFaultOfFiles read.now fault) }
{
    let mut conf = conf_of(alloc, read.name.as_str(), &read.file)?;
    let accept = addresses_of(alloc, &conf.accept_mac_file, &read.accept)?;
    let deny = addresses_of(alloc, &conf.deny_mac_file, &read.deny)?;
    conf.set_lists(accept, deny);
    Ok(conf)
}

// The built-in configuration, alone.
fn built_in(alloc: Global) -> Result<Vec<Conf>, AllocError>
    ensures { IfOk result (λ list. list.items ≡ built_in ∷ []) }
{
    let mut list = Vec::new(alloc);
    list.push(Conf::built_in(alloc)?)?;
    Ok(list)
}

// The configurations of radios, one for each, in their order.
fn each_of(alloc: Global, files: &[FilesRead]) -> Result<Vec<Conf>, ConfigurationFault>
    ensures ok { IfOk result (λ list. AllZip IsConfigured files.now list.items) }
    ensures err { IfErr result (λ fault. fault ≢ NoMemory → IsFirstFault files.now fault) }
{
    let mut list = Vec::with_capacity(alloc, files.len())?;
    for read in files {
        list.push_reserved(configuration(alloc, read)?);
    }
    Ok(list)
}

/// The configurations of a daemon's radios, in the order of their files, or the built-in one where no file
/// is given.
///
/// # Errors
///
/// The first that comes: radio by radio what `configuration` refuses; the configurations are refused
/// together, as `Confs::new` does; or memory runs out.
pub fn configurations(alloc: Global, files: &[FilesRead]) -> Result<Confs, ConfigurationFault>
    ensures ok { IfOk result (AreConfigured files.now) }
    ensures err { IfErr result (λ fault. fault ≢ NoMemory → IsFault files.now fault) }
{
    let list = if files.is_empty() {
        built_in(alloc)?
    } else {
        each_of(alloc, files)?
    };
    match Confs::new(list) {
        Ok(confs) => Ok(confs),
        Err(fault) => Err(ConfigurationFault::Confs(fault)),
    }
}
