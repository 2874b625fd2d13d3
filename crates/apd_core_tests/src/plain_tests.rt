//! Puts, drops, hearings and ticks of a fixed list, against a list of rows that is looked through each time.
use crate::common::{ask, take_batch};
use crate::crowd::{Key, crowd, frame, key_of, probe};
use crate::expect::expect;
use apd_core::{Core, Input};
use apd_record::Change;
use std::alloc::Global;

/// The rows in no order, each with the moment at which it was heard, and the rows that were put (true) or dropped.
#[derive(Drop)]
struct Plain {
    rows: Vec<(Key, u64)>,
    made: Vec<(bool, Key)>,
}

impl Plain {
    // Whether there is such a row, which is then heard.
    fn hear(&mut self, key: Key, moment: u64) -> bool {
        for row in self.rows.iter_mut() {
            if row.0 == key {
                row.1 = moment;
                return true;
            }
        }
        false
    }

    fn put(&mut self, key: Key, moment: u64) -> Option<()> {
        if !self.hear(key, moment) {
            self.made.push((true, key)).ok()?;
            self.rows.push((key, moment)).ok()?;
        }
        Some(())
    }

    fn remove(&mut self, key: Key) -> Option<()> {
        if self.hear(key, 0) {
            self.made.push((false, key)).ok()?;
            self.rows.retain(|row| row.0 != key);
        }
        Some(())
    }

    // The least row that was silent for 300 seconds.
    fn due_row(&self, now: u64) -> Option<Key> {
        let mut least: Option<Key> = None;
        for row in self.rows.iter() {
            if now.saturating_sub(row.1) >= 300_000 && least.is_none_or(|least| row.0 < least) {
                least = Some(row.0);
            }
        }
        least
    }

    // Whether a tick ends a row.
    fn act(&mut self, kind: u8, key: Key, moment: u64) -> Option<bool> {
        match kind {
            PUT => self.put(key, moment)?,
            REMOVE => self.remove(key)?,
            HEAR => return Some(self.hear(key, moment)),
            _ => {
                let Some(due) = self.due_row(moment) else {
                    return Some(false);
                };
                self.remove(due)?;
            }
        }
        Some(true)
    }
}

const PUT: u8 = 0;

const REMOVE: u8 = 1;

const HEAR: u8 = 2;

const TICK: u8 = 3;

// What a number asks for, of one of eight radios and one of sixteen stations, and when. Moments rise and fall.
fn request_of(number: u32) -> (u8, Key, u64) {
    let [radio, station, kind, _] = number.to_be_bytes();
    let key = key_of(1 + radio % 8, (station % 16) as u16);
    (kind / 32 % 4, key, (number % 600_000) as u64)
}

fn ask_frame(core: &mut Core, key: Key, frame: Option<Vec<u8>>, moment: u64) -> Option<bool> {
    Some(ask(core, Input::Received(key.0, &frame?), moment)?.0 == "entry")
}

// Whether a core answers by an entry.
fn enters(alloc: Global, core: &mut Core, kind: u8, key: Key, moment: u64) -> Option<bool> {
    let frame = match kind {
        PUT => frame(alloc, 0xb0, key, &[0, 0, 1, 0, 0, 0]),
        REMOVE => frame(alloc, 0xc0, key, &[1, 0]),
        HEAR => probe(alloc, key),
        _ => return Some(ask(core, Input::Tick, moment)?.0 == "entry"),
    };
    ask_frame(core, key, frame, moment)
}

// Whether both say the same of each tick.
fn agree(alloc: Global, core: &mut Core, plain: &mut Plain, requests: u64) -> Option<bool> {
    let mut number: u32 = 1;
    for _request in 0..requests {
        let (kind, key, moment) = request_of(number);
        let entered = enters(alloc, core, kind, key, moment)?;
        let ended = plain.act(kind, key, moment)?;
        if kind == TICK && entered != ended {
            return Some(false);
        }
        number = number.wrapping_mul(1_664_525).wrapping_add(1_013_904_223);
    }
    Some(true)
}

// Whether these rows are put and dropped by changes, in this order.
fn are_made(made: &[(bool, Key)], changes: &[Change]) -> bool {
    made.len() == changes.len()
        && made.iter().zip(changes).all(|(row, change)| match change {
            Change::Put { bssid, addr, .. } => *row == (true, (*bssid, *addr)),
            Change::Drop { bssid, addr } => *row == (false, (*bssid, *addr)),
            _ => false,
        })
}

// Whether what a core gives changes the rows as they were.
fn gives(core: &mut Core, made: &[(bool, Key)]) -> Option<bool> {
    Some(are_made(made, take_batch(core)?.changes.as_slice()))
}

// Of as many requests: whether each tick agrees, whether the changes do, and whether these are many.
fn compare(alloc: Global, requests: u64) -> Option<(bool, bool, bool)> {
    let mut plain = Plain {
        rows: Vec::new(alloc),
        made: Vec::new(alloc),
    };
    let mut core = crowd(alloc, 0)?;
    let ticks = agree(alloc, &mut core, &mut plain, requests);
    let changes = gives(&mut core, plain.made.as_slice());
    drop(core);
    Some((ticks?, changes?, plain.made.len() > 1_000))
}

#[test]
fn five_thousand_requests_against_a_plain_list(rt: HostRuntime) {
    expect(&rt, compare(rt.alloc(), 5_000), Some((true, true, true)));
}
