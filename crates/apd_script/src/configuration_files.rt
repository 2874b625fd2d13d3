//! The files of configurations, and the list files that they name: what is read of them.
ghost use Rattle.std.specs.Prelude.{◌≡◌, ◌≢◌, map, IfErr, IfOk};
ghost use Rattle.std.specs.String.{string_bytes};
ghost use Rattle.apd_conf.specs.declared.configuration.ConfigurationFault.TheVariants.{NoMemory};
ghost use Rattle.apd_script.specs.Configured.{AreOfNames, AreReadFrom, IsFaultFrom};

use apd_base::Sequence;
use apd_conf::{
    ConfFault, ConfigurationFault, Confs, FileName, FilesRead, MAX_FILE, configurations, read_conf,
};
use std::alloc::AllocError;
use std::fs;
use std::io::{self, ErrorKind, Read};
use std::rt::Files;

/// The bytes of a file, up to one more than count.
fn bytes_of<R: Files + AllocGlobal>(rt: &R, name: &str) -> io::Result<Vec<u8>> {
    let mut bytes = Vec::new(rt.alloc());
    let mut file = fs::open(rt, name)?.take(MAX_FILE as u64 + 1);
    file.read_to_end(&mut bytes)?;
    Ok(bytes)
}

/// What is read of a file: its bytes, or none where it can't be read.
fn read_file<R: Files + AllocGlobal>(
    rt: &R,
    name: &str,
) -> Result<Option<Sequence<u8>>, AllocError> {
    match bytes_of(rt, name) {
        Ok(bytes) => Ok(Some(Sequence::from_vec(bytes))),
        Err(error) if error.kind() == ErrorKind::OutOfMemory => Err(AllocError),
        Err(_) => Ok(None),
    }
}

/// What is read of a list file; nothing where none is named.
fn read_list_file<R: Files + AllocGlobal>(
    rt: &R,
    name: &Option<FileName>,
) -> Result<Option<Sequence<u8>>, AllocError> {
    match name {
        Some(name) => read_file(rt, name.as_str()),
        None => Ok(None),
    }
}

/// What is read of the accept file and the deny file of these names.
fn read_both_lists<R: Files + AllocGlobal>(
    rt: &R,
    accept: &Option<FileName>,
    deny: &Option<FileName>,
) -> Result<(Option<Sequence<u8>>, Option<Sequence<u8>>), AllocError> {
    let accept = read_list_file(rt, accept)?;
    Ok((accept, read_list_file(rt, deny)?))
}

/// What is read of the accept file and the deny file that a configuration file names.
fn read_list_files<R: Files + AllocGlobal>(
    rt: &R,
    file: &Option<Sequence<u8>>,
) -> Result<(Option<Sequence<u8>>, Option<Sequence<u8>>), AllocError> {
    let Some(bytes) = file else {
        return Ok((None, None));
    };
    match read_conf(rt.alloc(), bytes.as_slice()) {
        Ok(conf) => {
            let lists = read_both_lists(rt, &conf.accept_mac_file, &conf.deny_mac_file);
            drop(conf);
            lists
        }
        Err(ConfFault::NoMemory) => Err(AllocError),
        Err(_) => Ok((None, None)),
    }
}

/// What is read for one radio: the configuration file of this name, and the list files that it names.
fn read_files<R: Files + AllocGlobal>(rt: &R, name: &str) -> Result<FilesRead, AllocError>
    ensures { IfOk result (λ read. string_bytes read.name ≡ name.now) }
{
    let own_name = String::from_str(rt.alloc(), name)?;
    let file = read_file(rt, name)?;
    let (accept, deny) = read_list_files(rt, &file)?;
    Ok(FilesRead {
        name: own_name,
        file,
        accept,
        deny,
    })
}

/// The same for each of these names, in their order.
fn read_each<R: Files + AllocGlobal>(rt: &R, names: &[&str]) -> Result<Vec<FilesRead>, AllocError>
    ensures { IfOk result (λ files. AreOfNames (map (λ name. name.now) names.now) files.items) }
{
    let mut files = Vec::with_capacity(rt.alloc(), names.len())?;
    for name in names {
        files.push_reserved(read_files(rt, name)?);
    }
    Ok(files)
}

/// The configurations of files, in the order of their names, or the built-in one where there is no name.
///
/// # Errors
///
/// The first that comes: of the files in turn, one that can't be read, or is refused; the list as a whole
/// is refused; or memory runs out.
pub fn read_configurations<R: Files + AllocGlobal>(
    rt: &R,
    names: &[&str],
) -> Result<Confs, ConfigurationFault>
    ensures ok { IfOk result (AreReadFrom (map (λ name. name.now) names.now)) }
    ensures err { IfErr result (λ fault. fault ≢ NoMemory → IsFaultFrom (map (λ name. name.now) names.now) fault) }
{
    let files = read_each(rt, names)?;
    configurations(rt.alloc(), files.as_slice())
}
