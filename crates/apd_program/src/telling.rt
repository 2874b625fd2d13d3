//! What is told at the end.
use crate::fault::ProgramFault;
use clap::error::ErrorKind;
use std::io;
use std::process::ExitCode;

/// Prints what a run came to, and gives the exit status: 0 where all went well, 1 for a fault, 2 for a wrong command
/// line or a call for help. The version goes to standard output, and help to standard error.
pub fn tell(
    rt: &(impl Print + Eprint),
    done: Result<Option<clap::Error>, ProgramFault>,
) -> io::Result<ExitCode> {
    let fault = match done {
        Ok(Some(error)) if error.kind() == ErrorKind::OutOfMemory => ProgramFault::NoMemory,
        Ok(Some(error)) if error.kind() == ErrorKind::DisplayVersion => {
            rt.print(error)?;
            return Ok(ExitCode::SUCCESS);
        }
        Ok(Some(error)) => {
            rt.eprint(error)?;
            return Ok(ExitCode::from(2));
        }
        Ok(None) => return Ok(ExitCode::SUCCESS),
        Err(fault) => fault,
    };
    eprintln!(rt; "apd: {fault}")?;
    Ok(ExitCode::FAILURE)
}
