//! The habit of a radio that receives its frames one after another, each once its test has come so far.
use crate::common::{ASSOCIATION, authentication};
use crate::habit::{Given, Habit};
use std::alloc::{AllocError, Global};
use std::sync::atomic::{AtomicUsize, Ordering};

/// How far a test has come, how often its radio was taken down, how many frames it was to send, and how many of those
/// answer a request for association.
#[derive(Drop)]
pub(crate) struct Stage {
    told: AtomicUsize,
    downs: AtomicUsize,
    sent: AtomicUsize,
    associations: AtomicUsize,
}

impl Stage {
    pub(crate) fn new() -> Stage {
        Stage {
            told: AtomicUsize::new(0),
            downs: AtomicUsize::new(0),
            sent: AtomicUsize::new(0),
            associations: AtomicUsize::new(0),
        }
    }

    /// The test tells that it has come further.
    pub(crate) fn tell(&self) {
        self.told.fetch_add(1, Ordering::SeqCst);
    }

    // Counts a frame that is to be sent.
    fn count(&self, frame: &[u8]) {
        self.sent.fetch_add(1, Ordering::SeqCst);
        if frame.first() == Some(&ASSOCIATION_RESPONSE) {
            self.associations.fetch_add(1, Ordering::SeqCst);
        }
    }

    pub(crate) fn downs(&self) -> usize {
        self.downs.load(Ordering::SeqCst)
    }

    pub(crate) fn transmissions(&self) -> usize {
        self.sent.load(Ordering::SeqCst)
    }

    pub(crate) fn associations(&self) -> usize {
        self.associations.load(Ordering::SeqCst)
    }
}

/// What a frame asks for.
pub(crate) enum Asks {
    Authentication,
    Association,
    /// Deauthentication: the station leaves.
    Leave,
}

/// When a frame is received.
pub(crate) enum When {
    AtOnce,
    /// Once the radio was taken down four times: when its slot was made, and at three tries.
    Tried,
    /// Once the test told, and behind a poll that gave nothing: so in a later turn than the frame before it.
    Told,
}

/// What a frame asks for, the last byte of its station's address, and when it is received.
pub(crate) struct Frame(pub(crate) Asks, pub(crate) u8, pub(crate) When);

/// The frame by which the station that ends by 0xaa leaves, with reason 3 (9.4.1.7).
const DEAUTHENTICATION: [u8; 26] = [
    0xc0, 0, 0, 0, 2, 0, 0, 0, 0, 1, 2, 0, 0, 0, 0, 0xaa, 2, 0, 0, 0, 0, 1, 0x30, 0, 3, 0,
];

/// The first byte of an Association Response (9.2.4.1.3).
const ASSOCIATION_RESPONSE: u8 = 0x10;

impl Frame {
    fn has_come(&self, stage: &Stage, rested: bool) -> bool {
        match self.2 {
            When::AtOnce => true,
            When::Tried => stage.downs() >= 4,
            When::Told => rested && stage.told.load(Ordering::SeqCst) >= 1,
        }
    }

    // The frame to the BSSID that ends by this byte.
    fn bytes(&self, alloc: Global, bssid: u8) -> Result<Vec<u8>, AllocError> {
        match self.0 {
            Asks::Authentication => addressed(alloc, &authentication(self.1), self.1, bssid),
            Asks::Association => addressed(alloc, &ASSOCIATION, self.1, bssid),
            Asks::Leave => addressed(alloc, &DEAUTHENTICATION, self.1, bssid),
        }
    }
}

// That frame of a station to a BSSID, by the last bytes of both.
fn addressed(alloc: Global, frame: &[u8], station: u8, bssid: u8) -> Result<Vec<u8>, AllocError> {
    let mut bytes = Vec::from_slice(alloc, frame)?;
    address(&mut bytes, station, bssid);
    Ok(bytes)
}

fn address(bytes: &mut [u8], station: u8, bssid: u8) {
    put(bytes, 9, bssid);
    put(bytes, 15, station);
    put(bytes, 21, bssid);
}

// Puts a byte at a place of a frame.
fn put(bytes: &mut [u8], at: usize, byte: u8) {
    if let Some(place) = bytes.get_mut(at) {
        *place = byte;
    }
}

/// The habit of a radio that receives these frames at the BSSID that ends by this byte.
#[derive(Drop)]
pub(crate) struct Fed<'a> {
    alloc: Global,
    bssid: u8,
    stage: &'a Stage,
    frames: &'static [Frame],
    given: usize,
    // Whether its last poll gave nothing.
    rested: bool,
}

impl<'a> Fed<'a> {
    pub(crate) fn new(
        alloc: Global,
        bssid: u8,
        stage: &'a Stage,
        frames: &'static [Frame],
    ) -> Fed<'a> {
        Fed {
            alloc,
            bssid,
            stage,
            frames,
            given: 0,
            rested: true,
        }
    }

    fn next(&mut self) -> Given {
        let Some(frame) = self.frames.get(self.given) else {
            return Ok(None);
        };
        if !frame.has_come(self.stage, self.rested) {
            self.rested = true;
            return Ok(None);
        }
        let bytes = frame.bytes(self.alloc, self.bssid)?;
        self.given += 1;
        self.rested = false;
        Ok(Some(bytes))
    }
}

impl Habit for Fed<'_> {
    fn give(&mut self) -> Option<Given> {
        Some(self.next())
    }

    // It refuses none, and counts each.
    fn refuses(&mut self, frame: &[u8]) -> bool {
        self.stage.count(frame);
        false
    }

    fn take_down(&mut self) {
        self.stage.downs.fetch_add(1, Ordering::SeqCst);
    }
}
