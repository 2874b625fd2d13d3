//! Cases are run, and what each prints is compared.
use crate::case::Case;
use apd_conf::Confs;
use apd_disk::MemDisk;
use apd_script::{ScriptFault, new_store, read_configurations, run_on_store};
use std::alloc::Global;
use std::fs::{self, File};
use std::io::{self, Write};
use std::rt::Files;

/// Runs a script on a store, and tells why it ended where it didn't end well.
fn fault_of(
    alloc: Global,
    disk: MemDisk,
    confs: Confs,
    script: &[u8],
    out: &mut Vec<u8>,
) -> Option<ScriptFault> {
    match run_on_store(alloc, disk, confs, script, out) {
        Ok(world) => {
            drop(world);
            None
        }
        Err(fault) => Some(fault),
    }
}

/// What a script prints on a new store, and why it ended where it didn't end well.
fn run(alloc: Global, confs: Confs, script: &[u8]) -> io::Result<Vec<u8>> {
    let mut out = Vec::new(alloc);
    let fault = match new_store(alloc) {
        Ok(disk) => fault_of(alloc, disk, confs, script, &mut out),
        Err(fault) => Some(fault),
    };
    if let Some(fault) = fault {
        writeln!(out, "! {fault}")?;
    }
    Ok(out)
}

/// What a case prints.
fn output_of<R: Files<File = File> + AllocGlobal>(rt: &R, case: &Case<'_>) -> io::Result<Vec<u8>> {
    match read_configurations(rt, case.files.as_slice()) {
        Ok(confs) => run(rt.alloc(), confs, case.script.as_bytes()),
        Err(fault) => {
            let text = format!(in rt.alloc(); "! {fault}\n")?;
            Ok(text.into_bytes())
        }
    }
}

/// Prints that a case printed something else than it should.
fn print_difference(rt: &impl Print, title: &str, told: &[u8]) -> io::Result<()> {
    println!(rt; "  DIFFERS: {title}")?;
    rt.write_all(told)
}

/// Runs a case, prints its title and whether it printed what it should, and else what it did; and tells whether.
fn print_case<R: Print + Files<File = File> + AllocGlobal>(
    rt: &R,
    case: &Case<'_>,
) -> io::Result<bool> {
    let told = output_of(rt, case)?;
    let holds = told.as_slice() == case.wanted.as_bytes();
    let said = if holds {
        println!(rt; "  {}", case.title)
    } else {
        print_difference(rt, case.title, told.as_slice())
    };
    drop(told);
    said?;
    Ok(holds)
}

/// Runs a case if there is one, and tells whether it printed what it should.
fn run_case<R: Print + Files<File = File> + AllocGlobal>(
    rt: &R,
    case: Option<Case<'_>>,
) -> io::Result<bool> {
    match case {
        Some(case) => {
            let holds = print_case(rt, &case);
            drop(case);
            holds
        }
        None => Ok(true),
    }
}

/// Reads another line of a text: the next case, or a line of this one. Tells whether the case before the next printed
/// what it should.
fn read_line<'t, R: Print + Files<File = File> + AllocGlobal>(
    rt: &R,
    case: &mut Option<Case<'t>>,
    line: &'t str,
) -> io::Result<bool> {
    if let Some(title) = line.strip_prefix("= ") {
        let before = case.replace(Case::new(rt.alloc(), title));
        return run_case(rt, before);
    }
    if let Some(case) = case {
        case.read(line)?;
    }
    Ok(true)
}

/// Runs the cases of a text but for the last, which is left, and tells whether each printed what it should.
fn hold_so_far<'t, R: Print + Files<File = File> + AllocGlobal>(
    rt: &R,
    text: &'t str,
    case: &mut Option<Case<'t>>,
) -> io::Result<bool> {
    let mut all = true;
    for line in text.lines() {
        all &= read_line(rt, case, line)?;
    }
    Ok(all)
}

/// Runs the cases of a text, and tells whether each printed what it should.
fn all_hold<R: Print + Files<File = File> + AllocGlobal>(rt: &R, text: &str) -> io::Result<bool> {
    let mut case = None;
    match hold_so_far(rt, text, &mut case) {
        Ok(all) => Ok(run_case(rt, case)? && all),
        Err(error) => {
            drop(case);
            Err(error)
        }
    }
}

/// Runs the cases of the file of this name, and tells whether each printed what it should.
pub fn run_cases<R: Print + Files<File = File> + AllocGlobal>(
    rt: &R,
    name: &str,
) -> io::Result<bool> {
    let text = fs::read_to_string(rt, name)?;
    println!(rt; "{name}:")?;
    all_hold(rt, text.as_str())
}
