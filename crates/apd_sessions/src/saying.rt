//! What is printed.
use crate::sum::sum_of;
use apd_table::Table;
use std::fmt::Display;
use std::io;

/// Prints a line.
pub fn say<D: Display + Drop>(rt: &impl Print, line: D) -> io::Result<()> {
    rt.println(line)
}

/// Says that a call lacked memory, and is made once more.
pub fn say_again(rt: &impl Print, call: &str) -> io::Result<()> {
    println!(rt; "again: {call}")
}

/// Says what a table holds: how many BSSIDs and stations, and a sum of all that is in its rows.
pub fn say_table(rt: &impl Print, table: &Table) -> io::Result<()> {
    let (bss, stations, sum) = (table.bss_count(), table.rows(), sum_of(table));
    println!(rt; "table: {bss} bss, {stations} stations, {sum:016x}")
}
