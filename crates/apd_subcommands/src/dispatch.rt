//! The subcommands that serve nobody, by their names.
use crate::checking::run_check_command;
use crate::fault::CommandFault;
use crate::formatting::run_format_command;
use crate::scripting::run_script_command;
use crate::upgrading::upgrade_and_print;
use clap::ArgMatches;
use log::Log;
use std::fs::File;
use std::io;
use std::rt::Files;
use std::time::Clock;

/// Does what a subcommand that serves nobody says.
pub fn work_on_files(
    rt: &(impl Input + Print + Files<File = File> + Clock + AllocGlobal + Log),
    matches: &ArgMatches<'_>,
) -> Result<(), CommandFault> {
    if let Some(check) = matches.subcommand_matches("check") {
        run_check_command(rt, check, &mut io::writer(rt))
    } else if let Some(format) = matches.subcommand_matches("format") {
        run_format_command(rt, format, &mut io::writer(rt))
    } else if let Some(upgrade) = matches.subcommand_matches("upgrade") {
        let old = upgrade.get_str("OLD").unwrap_or("");
        let new = upgrade.get_str("NEW").unwrap_or("");
        upgrade_and_print(rt, old, new, &mut io::writer(rt))
    } else if let Some(script) = matches.subcommand_matches("script") {
        run_script_command(rt, script)
    } else {
        Ok(())
    }
}
