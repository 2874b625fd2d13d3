//! What a radio offers, by its configuration.
ghost use Rattle.std.specs.Prelude.{◌≡◌};
ghost use Rattle.apd_mlme.specs.rules.Offer.{channel_in, rates_in};

use apd_conf::{Conf, HwMode};
use apd_frame::Rates;

/// Its rates.
pub(crate) fn rates(conf: &Conf) -> Rates
    ensures { result ≡ rates_in conf.now.hw_mode }
{
    match conf.hw_mode {
        HwMode::A => Rates::Ofdm,
        HwMode::B | HwMode::G => Rates::HrDsss,
    }
}

/// Its channel, where a probe response tells it.
pub(crate) fn channel(conf: &Conf) -> Option<u8>
    ensures { result ≡ channel_in conf.now.hw_mode conf.now.channel }
{
    match conf.hw_mode {
        HwMode::A => None,
        HwMode::B | HwMode::G => Some(conf.channel),
    }
}
