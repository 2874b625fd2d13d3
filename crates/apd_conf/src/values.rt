//! Values of a configuration file.
ghost use Rattle.std.specs.Prelude.{◌≡◌, ◌&&◌};
ghost use Rattle.std.specs.Str.{is_utf8};
ghost use Rattle.apd_conf.specs.Names.{is_file_name};
ghost use Rattle.apd_conf.specs.Values.{number_of, is_within, is_individual, is_band, accepts};

use crate::rule::{Range, Rule};
use crate::{FileName, InterfaceName, Ssid};
use apd_base::Addr;
use apd_base::text::decimal_number;

const GREATEST_OF_TEN_DIGITS: u64 = 9_999_999_999;

/// The number that 1 to 10 decimal digits write.
#[tactic(auto, unfolding(crate::specs::Values::number_of))]
pub(crate) fn number_of(text: &[u8]) -> Option<u64>
    ensures { result ≡ number_of text.now }
{
    decimal_number(text, 10, GREATEST_OF_TEN_DIGITS)
}

fn is_within(range: Range, number: Option<u64>) -> bool
    ensures { result ≡ is_within range number }
{
    match number {
        None => false,
        Some(number) => range.least as u64 <= number && number <= range.greatest as u64,
    }
}

fn is_individual(address: Option<Addr>) -> bool
    ensures { result ≡ is_individual address }
{
    match address {
        None => false,
        Some(address) => !address.is_group(),
    }
}

fn is_band(text: &[u8]) -> bool
    ensures { result ≡ is_band text.now }
{
    text == b"a".as_slice() || text == b"b".as_slice() || text == b"g".as_slice()
}

fn is_file_name(value: &[u8]) -> bool
    ensures { result ≡ (is_utf8 value.now && is_file_name value.now) }
{
    match str::from_utf8(value) {
        Ok(text) => FileName::is_name(text),
        Err(_) => false,
    }
}

/// Whether a rule takes a value.
#[tactic(auto, unfolding(crate::specs::Values::accepts))]
pub(crate) fn accepts(rule: Rule, value: &[u8]) -> bool
    ensures { result ≡ accepts rule value.now }
{
    match rule {
        Rule::Interface => InterfaceName::is_name(value),
        Rule::Bssid => is_individual(Addr::parse(value)),
        Rule::Ssid => Ssid::is_name(value),
        Rule::Band => is_band(value),
        Rule::Number(range) => is_within(range, number_of(value)),
        Rule::File => is_file_name(value),
        Rule::Ignored => true,
        Rule::Security => value == b"0".as_slice(),
    }
}
