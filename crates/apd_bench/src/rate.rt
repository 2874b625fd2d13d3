//! How often in a second.
use crate::case::Case;
use crate::measuring::Measured;
use crate::round::Round;
use std::alloc::{AllocError, Global};
use std::time::Duration;

/// How many a second, where so many took this time; none where it wasn't timed.
pub fn per_second(count: u64, time: Option<Duration>) -> Option<u64> {
    let nanos = time?.as_nanos();
    let in_all = u128::from(count).checked_mul(1_000_000_000)?;
    u64::try_from(in_all.checked_div(nanos)?).ok()
}

// The rate of a round: of what its case counts.
fn rate(case: &Case, round: &Round) -> Option<u64> {
    if case.counts_commits() {
        per_second(round.commits, round.committing)
    } else {
        per_second(u64::from(round.requests), round.time)
    }
}

// The one in the middle of some rates, which it puts in order; none where one wasn't timed.
fn median(rates: &mut Vec<Option<u64>>) -> Result<Option<u64>, AllocError> {
    rates.sort()?;
    match rates.first() {
        Some(Some(_)) => Ok(rates[rates.len() / 2]),
        _ => Ok(None),
    }
}

/// How often a second in the median of some rounds of a case, and how often the bare loop.
pub fn medians(
    alloc: Global,
    case: &Case,
    rounds: &[Measured],
) -> Result<(Option<u64>, Option<u64>), AllocError> {
    let (mut rates, mut bare_rates) = (Vec::new(alloc), Vec::new(alloc));
    for measured in rounds {
        rates.push(rate(case, &measured.round))?;
        bare_rates.push(measured.bare)?;
    }
    Ok((median(&mut rates)?, median(&mut bare_rates)?))
}

/// The ratio of two rates, in hundredths.
pub fn hundredths(rate: Option<u64>, bare: Option<u64>) -> Option<u64> {
    rate?.checked_mul(100)?.checked_div(bare?)
}
