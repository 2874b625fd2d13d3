//! The subcommand that runs a script.
use crate::argument::option;
use clap::{Arg, ArgAction, Command};
use std::alloc::{AllocError, Global};

/// What the help for `script` says beside its arguments.
const SCRIPT_HELP: &str = "Lines of a script:
  rx <interface> <hex>  The radio of the interface received this frame
  tick <ms>             It is this moment from now on; a station silent for too long goes
  cmd <text>            A control command, as STATUS or STA-FIRST
  flush                 Commits all entries, and then does as hand
  hand                  Hands out what was settled: frames, driver calls and replies
  take, call, publish   One step of a commit: a batch is taken, the device's next call is
                        made, the batch is settled
  stop                  Gives up all but the device, as a power cut does, and begins anew
                        from what it reads; eight times in a script
An empty line is skipped; any other line ends the script. End a script with flush: what
was not handed out at its end, as the reply to a last command, is lost.

Lines of a CONF are <name>=<value>, and these three at least:
  interface=wlan0
  bssid=02:00:00:00:00:01
  ssid=net
docs/SCRIPTS.md says more of scripts, docs/FORMATS.md has all names of a CONF, and
docs/CONTROL.md the control commands.

Example, in which a station authenticates and is answered:
  rx wlan0 b000 0000 020000000001 0200000000aa 020000000001 1000 0000 0100 0000
  flush";

const STORE: &str = "The store's file, which 'apd format' made; a new store in memory without it";

const CONFIGURATIONS: &str =
    "Configuration files, one for each interface; the built-in configuration without any";

fn configurations<'a>(alloc: Global) -> Arg<'a> {
    Arg::new(alloc, "CONF")
        .num_args(0..)
        .action(ArgAction::Append)
        .help(CONFIGURATIONS)
}

/// The subcommand.
pub(crate) fn script_command<'a>(alloc: Global) -> Result<Command<'a>, AllocError> {
    Command::new(alloc, "script")
        .about("Runs a script from standard input on a store")
        .after_help(SCRIPT_HELP)
        .arg(option(alloc, "store", "STORE", STORE))?
        .arg(configurations(alloc))
}
