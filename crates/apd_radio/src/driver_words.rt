//! The words between a radio and its driver: what the driver is told, and what it says.
ghost use Rattle.std.specs.Prelude.{◌≡◌, ◌↔◌, ◌++◌, ℕ, IsTrue, IfOk, OnOk, IfSome, IfNone, flat_map};
ghost use Rattle.apd_radio.specs.Drivers.{is_word, install_text, remove_text, map_text, station_line, IsUp, IsFaultAt};

use apd_base::Addr;
use apd_base::text::{behind, decimal_number};
use std::alloc::{AllocError, Global};

/// The most digits of a word's number.
const NUMBER_DIGITS: usize = 20;

/// Whether a datagram is a word: it begins with a lower-case letter, as no frame does that is sent.
pub(crate) fn is_word(datagram: &[u8]) -> bool
    ensures { result ≡ is_word datagram.now }
{
    match datagram.first() {
        Some(first) => b'a' <= *first && *first <= b'z',
        None => false,
    }
}

/// The word that a station comes in, under this number.
pub(crate) fn install_text(
    alloc: Global,
    number: u64,
    addr: Addr,
    aid: u16,
) -> Result<Vec<u8>, AllocError>
    ensures { IfOk result (λ text. text.items ≡ install_text number addr aid) }
{
    let text = format!(in alloc; "install {number} {addr} {aid}")?;
    Ok(text.into_bytes())
}

/// The word that a station goes, under this number.
pub(crate) fn remove_text(alloc: Global, number: u64, addr: Addr) -> Result<Vec<u8>, AllocError>
    ensures { IfOk result (λ text. text.items ≡ remove_text number addr) }
{
    let text = format!(in alloc; "remove {number} {addr}")?;
    Ok(text.into_bytes())
}

// Writes a station's line at the end.
fn write_station(alloc: Global, text: &mut Vec<u8>, row: (Addr, u16)) -> Result<(), AllocError>
    ensures { OnOk result (text.new.items ≡ text.old.items ++ station_line row) }
{
    let (addr, aid) = row;
    let line = format!(in alloc; "\n{addr} {aid}")?;
    text.extend_from_slice(line.as_bytes())
}

/// The word that all stations go, and that these are there, under this number.
#[tactic(auto, using(std::proofs::lemmas::List::flat_map_more))]
pub(crate) fn map_text(
    alloc: Global,
    number: u64,
    stations: &[(Addr, u16)],
) -> Result<Vec<u8>, AllocError>
    ensures { IfOk result (λ text. text.items ≡ map_text number stations.now) }
{
    let head = format!(in alloc; "map {number} down")?;
    let mut text = head.into_bytes();
    for row in stations {
        write_station(alloc, &mut text, *row)?;
    }
    Ok(text)
}

/// Whether a driver wants the whole map.
pub(crate) fn is_up(word: &[u8]) -> bool
    ensures { IsTrue result ↔ IsUp word.now }
{
    word == b"up".as_slice()
}

/// The number of the word that a driver did not follow, if this says so.
pub(crate) fn fault_number(word: &[u8]) -> Option<u64>
    ensures some { IfSome result (λ number. IsFaultAt number word.now) }
    ensures none { IfNone result ((number : ℕ) → IsFaultAt number word.now → ⊥) }
{
    let digits = behind(word, b"fault ")?;
    decimal_number(digits, NUMBER_DIGITS, u64::MAX)
}
