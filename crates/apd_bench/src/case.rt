//! What is measured.
use Kind::{Commits, KnownInMemory, KnownOnFile, NewInMemory, NewOnFile, Switches};

/// What is counted in a second, on what, and who asks.
#[derive(Clone, Copy)]
pub enum Kind {
    /// Requests to a store in memory: `accept`, their share of a commit, and `hand`. Stations that are associated ask,
    /// in turn: each associates again, which puts its row anew.
    KnownInMemory,
    /// The same of stations that have no row: each is authenticated, and so the table grows to the case's number of
    /// stations.
    NewInMemory,
    /// Requests of associated stations to a store on a file.
    KnownOnFile,
    /// Requests of new stations to a store on a file.
    NewOnFile,
    /// Commits alone, on a file, of what associated stations ask.
    Commits,
    /// Those commits alone for which the store makes way into its other half.
    Switches,
}

/// A case: so many stations at one radio, and so many requests a commit.
#[derive(Clone, Copy)]
pub struct Case {
    pub kind: Kind,
    pub stations: u16,
    pub window: u16,
}

/// A row of a table of cases: of which kind, how many stations, and how many requests a commit.
pub type Row = (Kind, u16, u16);

/// All cases, in the order of the table.
pub const CASES: [Row; 20] = [
    (KnownInMemory, 100, 1),
    (NewInMemory, 100, 1),
    (KnownInMemory, 2007, 1),
    (NewInMemory, 2007, 1),
    (KnownOnFile, 100, 1),
    (KnownOnFile, 100, 16),
    (KnownOnFile, 100, 256),
    (NewOnFile, 100, 1),
    (NewOnFile, 100, 16),
    (NewOnFile, 100, 256),
    (KnownOnFile, 2007, 1),
    (KnownOnFile, 2007, 16),
    (KnownOnFile, 2007, 256),
    (NewOnFile, 2007, 1),
    (NewOnFile, 2007, 16),
    (NewOnFile, 2007, 256),
    (Commits, 100, 1),
    (Commits, 100, 100),
    (Switches, 100, 256),
    (Switches, 2007, 256),
];

/// The cases whose counts are printed, at few stations. The cases of more stations have the same counts, and a switch
/// comes only after many requests.
pub const COUNTED: [Row; 10] = [
    (KnownInMemory, 20, 1),
    (NewInMemory, 20, 1),
    (KnownOnFile, 20, 1),
    (KnownOnFile, 20, 16),
    (KnownOnFile, 20, 256),
    (NewOnFile, 20, 1),
    (NewOnFile, 20, 16),
    (NewOnFile, 20, 256),
    (Commits, 20, 1),
    (Commits, 20, 100),
];

/// How many windows a round has in memory.
const IN_MEMORY: u16 = 2000;

/// How many requests a round has on a file, in windows of which it has `AT_LEAST` so many.
const ON_FILE: u16 = 256;

const AT_LEAST: u16 = 8;

impl Case {
    /// The case of a row.
    pub fn of((kind, stations, window): Row) -> Case {
        Case {
            kind,
            stations,
            window,
        }
    }

    /// What the case is called.
    pub fn name(&self) -> &'static str {
        match self.kind {
            KnownInMemory => "requests, memory, known",
            NewInMemory => "requests, memory, new",
            KnownOnFile => "requests, file, known",
            NewOnFile => "requests, file, new",
            Commits => "commits, file",
            Switches => "commits with a switch",
        }
    }

    /// Whether its store is in memory.
    pub fn is_in_memory(&self) -> bool {
        matches!(self.kind, KnownInMemory | NewInMemory)
    }

    /// Whether the stations that ask are new.
    pub fn asks_for_new(&self) -> bool {
        matches!(self.kind, NewInMemory | NewOnFile)
    }

    /// Whether commits alone are counted.
    pub fn counts_commits(&self) -> bool {
        matches!(self.kind, Commits | Switches)
    }

    /// How many windows a round has that is measured.
    pub fn windows(&self) -> u16 {
        if self.is_in_memory() {
            return IN_MEMORY;
        }
        ON_FILE.checked_div(self.window).unwrap_or(0).max(AT_LEAST)
    }

    /// How many requests a round of so many windows has: one commit's where switches are counted, and new stations are
    /// no more than the case has in the end.
    pub fn requests(&self, windows: u16) -> u16 {
        match self.kind {
            Switches => self.window,
            NewInMemory | NewOnFile => windows.saturating_mul(self.window).min(self.stations),
            KnownInMemory | KnownOnFile | Commits => windows.saturating_mul(self.window),
        }
    }

    /// How many stations are associated before a round of so many requests.
    pub fn stations_before(&self, requests: u16) -> u16 {
        if self.asks_for_new() {
            self.stations.saturating_sub(requests)
        } else {
            self.stations
        }
    }
}
