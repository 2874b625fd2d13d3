//! What is printed: a line for each case.
use crate::bare::fill;
use crate::case::{CASES, COUNTED, Case};
use crate::fault::BenchFault;
use crate::measuring::{Task, measure};
use crate::rate::{hundredths, medians};
use crate::round::Round;
use std::alloc::{AllocError, Global};
use std::fs::{self, File};
use std::io::{self, Write};
use std::rt::Files;
use std::time::Clock;

/// The names of the columns.
const HEAD: &str = "case                    stations  window  per second   bare loop   ratio";

/// How many windows a round has where only calls are counted.
const FEW: u16 = 2;

/// How many rounds a case has that is measured.
const ROUNDS: u16 = 5;

fn print(rt: &impl Print, line: &str) -> Result<(), BenchFault> {
    match io::writer(rt).writeln(line) {
        Ok(()) => Ok(()),
        Err(_) => Err(BenchFault::Output),
    }
}

// What is printed of a case at a few requests.
fn count_line(alloc: Global, case: &Case, round: &Round) -> Result<String, AllocError> {
    format!(in alloc;
        "{}, {} stations, window {}: {} requests, {} commits, {} calls, {} bytes",
        case.name(),
        case.stations,
        case.window,
        round.requests,
        round.commits,
        round.device.calls,
        round.device.bytes
    )
}

/// Does each case at a few requests, and prints what is the same on each run.
pub fn print_counts(
    rt: &(impl Print + Files<File = File> + Clock + AllocGlobal),
    name: &str,
) -> Result<(), BenchFault> {
    for row in COUNTED {
        let case = Case::of(row);
        let task = Task {
            case: &case,
            rounds: 1,
            requests: case.requests(FEW),
            bare: None,
        };
        for measured in &measure(rt, name, &task)? {
            print(rt, &count_line(rt.alloc(), &case, &measured.round)?)?;
        }
    }
    Ok(())
}

// What is printed of a rate, or else in its place.
fn rate_text(alloc: Global, rate: Option<u64>, none: &str) -> Result<String, AllocError> {
    match rate {
        Some(rate) => format!(in alloc; "{rate}"),
        None => String::from_str(alloc, none),
    }
}

// What is printed of a ratio in hundredths.
fn ratio_text(alloc: Global, ratio: Option<u64>) -> Result<String, AllocError> {
    match ratio {
        Some(ratio) => format!(in alloc; "{}.{:02}", ratio / 100, ratio % 100),
        None => String::from_str(alloc, "-"),
    }
}

// What is printed of a case that was measured. Beside a store in memory there is no bare loop.
fn table_line(
    alloc: Global,
    case: &Case,
    rate: Option<u64>,
    bare: Option<u64>,
) -> Result<String, AllocError> {
    let none = if case.is_in_memory() {
        "-"
    } else {
        "not timed"
    };
    format!(in alloc;
        "{:<24}{:>8}{:>8}{:>12}{:>12}{:>8}",
        case.name(),
        case.stations,
        case.window,
        rate_text(alloc, rate, "not timed")?,
        rate_text(alloc, bare, none)?,
        ratio_text(alloc, hundredths(rate, bare))?
    )
}

// Measures each case, beside the bare loop's new file, and prints the table.
fn print_table(
    rt: &(impl Print + Files<File = File> + Clock + AllocGlobal),
    name: &str,
    bare: &File,
) -> Result<(), BenchFault> {
    if fill(bare).is_err() {
        return Err(BenchFault::File);
    }
    print(rt, HEAD)?;
    for row in CASES {
        let case = Case::of(row);
        let task = Task {
            case: &case,
            rounds: ROUNDS,
            requests: case.requests(case.windows()),
            bare: if case.is_in_memory() {
                None
            } else {
                Some(bare)
            },
        };
        let rounds = measure(rt, name, &task)?;
        let (rate, bare_rate) = medians(rt.alloc(), &case, &rounds)?;
        print(rt, &table_line(rt.alloc(), &case, rate, bare_rate)?)?;
    }
    Ok(())
}

/// Measures each case over a new file of this name, and prints the table.
pub fn print_rates(
    rt: &(impl Print + Files<File = File> + Clock + AllocGlobal),
    name: &str,
) -> Result<(), BenchFault> {
    let beside = format!(in rt.alloc(); "{name}.bare")?;
    let Ok(bare) = File::create_new(rt, beside.as_str()) else {
        return Err(BenchFault::File);
    };
    let done = print_table(rt, name, &bare);
    let _removed = fs::remove_file(rt, beside.as_str());
    done
}
