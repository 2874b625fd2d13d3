//! The words of command lines, as the program reads them.
use apd_command_line::command;
use clap::ArgMatches;
use std::process::Abort;

/// What the words of a command line match, or what is wrong with them.
pub fn parse<'a>(
    rt: &(impl Abort + AllocGlobal),
    words: &'a [&'a str],
) -> Result<ArgMatches<'a>, clap::Error> {
    let command = command(rt.alloc()).expect(rt, "memory");
    command.try_get_matches_from(words)
}

/// What the words of a right command line match.
pub fn matches_of<'a>(rt: &(impl Abort + AllocGlobal), words: &'a [&'a str]) -> ArgMatches<'a> {
    parse(rt, words).ok().expect(rt, "words that are right")
}
