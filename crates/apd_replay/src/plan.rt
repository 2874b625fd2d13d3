//! What is drawn before a run: what its radios receive, what its operator asks, and what fails.
use crate::frames::{FIRST_BSSID, FIRST_STATION, Frame, Kind, STATIONS, make_frame};
use crate::generator::Generator;
use apd_base::{AclMode, Addr, Bssid};
use apd_conf::{Conf, Confs, InterfaceName};
use apd_ctrl::{Parsed, parse_command};
use apd_disk::Torn;
use apd_radio::RadioFault;
use std::alloc::{AllocError, Global};

/// So many calls of a driver in a row that fail, from the one behind so many on.
#[derive(Clone, Copy)]
pub(crate) struct Failing {
    pub(crate) from: u64,
    pub(crate) count: u64,
    pub(crate) fault: RadioFault,
}

/// Which calls of a driver fail.
#[derive(Clone, Copy)]
pub(crate) struct Faults(pub(crate) [Failing; 2]);

impl Faults {
    /// How the call behind so many fails, if it does.
    pub(crate) fn of_call(&self, before: u64) -> Option<RadioFault> {
        for failing in self.0 {
            if failing.from <= before && before.wrapping_sub(failing.from) < failing.count {
                return Some(failing.fault);
            }
        }
        None
    }
}

/// What one radio receives, in order, and which calls of its driver, and of those that stand by, fail.
#[derive(Drop)]
pub(crate) struct RadioPlan {
    pub(crate) bssid: Bssid,
    pub(crate) frames: Vec<Frame>,
    pub(crate) own: Faults,
    pub(crate) spares: Vec<Faults>,
}

/// When all are told to stop.
#[derive(Clone, Copy, Debug)]
pub(crate) enum End {
    /// Once all was received and asked.
    AllGiven,
    /// And all entries were settled, or that took too long.
    AllSettled,
    /// At this poll of the port.
    AtPoll(u64),
    /// At this entry.
    AtEntry(u64),
}

/// Which call of the device fails, if one does.
#[derive(Clone, Copy, Debug)]
pub(crate) enum DevicePlan {
    Serves,
    /// The call behind so many fails, and was not made.
    Refuses(u64),
    /// It fails, and was made.
    BreaksOff(u64),
}

/// What is drawn before a run.
#[derive(Drop)]
pub(crate) struct Plan {
    pub(crate) seed: u64,
    pub(crate) confs: Confs,
    pub(crate) radios: Vec<RadioPlan>,
    pub(crate) commands: Vec<Vec<u8>>,
    pub(crate) ticks: u64,
    pub(crate) device: DevicePlan,
    pub(crate) torn: Torn,
    pub(crate) end: End,
}

/// How many calls a device serves before the first commit behind the start, at most.
const BEFORE: u64 = 7;

// The BSSID that ends by this byte.
fn bssid(last: u8) -> Bssid {
    Bssid(Addr([2, 0, 0, 0, 0, last]))
}

/// The station that ends by this byte.
pub(crate) fn station(last: u8) -> Addr {
    Addr([2, 0, 0, 0, 0, last])
}

// The name of the interface whose BSSID ends by this byte.
fn interface_name(alloc: Global, last: u8) -> Result<InterfaceName, AllocError> {
    let name = format!(in alloc; "wlan{last}")?.into_bytes();
    if InterfaceName::is_name(name.as_slice()) {
        InterfaceName::from_bytes(name.as_slice(), alloc)
    } else {
        Err(AllocError)
    }
}

fn any_conf(alloc: Global, last: u8, draws: &mut Generator) -> Result<Conf, AllocError> {
    let mut conf = Conf::built_in(alloc)?;
    conf.interface = interface_name(alloc, last)?;
    conf.bssid = bssid(last);
    if draws.hits(6) {
        conf.macaddr_acl = AclMode::DenyUnlessAccepted;
    }
    Ok(conf)
}

fn any_confs(alloc: Global, radios: u8, draws: &mut Generator) -> Result<Confs, AllocError> {
    let mut list = Vec::new(alloc);
    for place in 0..radios {
        list.push(any_conf(alloc, FIRST_BSSID.wrapping_add(place), draws)?)?;
    }
    match Confs::new(list) {
        Ok(confs) => Ok(confs),
        Err(_) => Err(AllocError),
    }
}

// The last byte of one of the first so many stations.
fn any_station(crowd: u64, draws: &mut Generator) -> u8 {
    FIRST_STATION.wrapping_add(u8::try_from(draws.below(crowd)).unwrap_or(0))
}

fn any_kind(draws: &mut Generator) -> Kind {
    match draws.below(24) {
        0..=5 => Kind::Authentication,
        6..=9 => Kind::Association,
        10 | 11 => Kind::Reassociation,
        12 | 13 => Kind::Deauthentication,
        14 | 15 => Kind::Disassociation,
        16..=19 => Kind::Data,
        20 | 21 => Kind::Probe,
        _ => Kind::Rubbish,
    }
}

fn add_frame(
    alloc: Global,
    kind: Kind,
    bssid: u8,
    station: u8,
    draws: &mut Generator,
    frames: &mut Vec<Frame>,
) -> Result<(), AllocError> {
    let frame = make_frame(alloc, kind, bssid, station, draws)?;
    Ok(frames.push(frame)?)
}

// Adds what a station sends next: that it joins, or one frame.
fn add_frames(
    alloc: Global,
    bssid: u8,
    crowd: u64,
    draws: &mut Generator,
    frames: &mut Vec<Frame>,
) -> Result<(), AllocError> {
    let station = any_station(crowd, draws);
    if draws.hits(3) {
        add_frame(alloc, Kind::Authentication, bssid, station, draws, frames)?;
        return add_frame(alloc, Kind::Association, bssid, station, draws, frames);
    }
    let kind = any_kind(draws);
    add_frame(alloc, kind, bssid, station, draws, frames)
}

fn any_fault(draws: &mut Generator) -> RadioFault {
    if draws.hits(4) {
        RadioFault::NoMemory
    } else {
        RadioFault::Device
    }
}

fn any_failing(draws: &mut Generator) -> Failing {
    let long = draws.hits(4);
    Failing {
        from: draws.below(40),
        count: if long {
            draws.below(40)
        } else {
            draws.below(4)
        },
        fault: any_fault(draws),
    }
}

fn any_faults(fails: bool, draws: &mut Generator) -> Faults {
    let mut both = Faults([any_failing(draws), any_failing(draws)]);
    if !fails {
        for failing in both.0.iter_mut() {
            failing.count = 0;
        }
    }
    both
}

fn any_spares(alloc: Global, draws: &mut Generator) -> Result<Vec<Faults>, AllocError> {
    let mut spares = Vec::new(alloc);
    for _ in 0..draws.below(3) {
        let fails = draws.hits(2);
        spares.push(any_faults(fails, draws))?;
    }
    Ok(spares)
}

fn any_radio(
    alloc: Global,
    last: u8,
    crowd: u64,
    draws: &mut Generator,
) -> Result<RadioPlan, AllocError> {
    let mut frames = Vec::new(alloc);
    for _ in 0..draws.below(30) {
        add_frames(alloc, last, crowd, draws, &mut frames)?;
    }
    let fails = draws.hits(3);
    Ok(RadioPlan {
        bssid: bssid(last),
        frames,
        own: any_faults(fails, draws),
        spares: any_spares(alloc, draws)?,
    })
}

// The words of a command about a station.
fn any_words(alloc: Global, crowd: u64, draws: &mut Generator) -> Result<String, AllocError> {
    let last = any_station(crowd, draws);
    match draws.below(16) {
        0 => format!(in alloc; "PING"),
        1 | 2 => format!(in alloc; "STATUS"),
        3 => format!(in alloc; "STA 02:00:00:00:00:{last:02x}"),
        4 | 5 => format!(in alloc; "STA-FIRST"),
        6 | 7 => format!(in alloc; "STA-NEXT 02:00:00:00:00:{last:02x}"),
        8 => format!(in alloc; "DEAUTHENTICATE 02:00:00:00:00:{last:02x}"),
        9 => format!(in alloc; "DISASSOCIATE 02:00:00:00:00:{last:02x} reason=5"),
        10 | 11 => format!(in alloc; "DENY_ACL ADD_MAC 02:00:00:00:00:{last:02x}"),
        12 => format!(in alloc; "DENY_ACL DEL_MAC 02:00:00:00:00:{last:02x}"),
        13 => format!(in alloc; "ACCEPT_ACL ADD_MAC 02:00:00:00:00:{last:02x}"),
        14 => format!(in alloc; "DENY_ACL SHOW"),
        _ => format!(in alloc; "RUBBISH {last}"),
    }
}

fn any_command(
    alloc: Global,
    radios: u8,
    crowd: u64,
    draws: &mut Generator,
) -> Result<Vec<u8>, AllocError> {
    let words = any_words(alloc, crowd, draws)?;
    if draws.hits(4) {
        return Ok(words.into_bytes());
    }
    let place = u8::try_from(draws.below(u64::from(radios).wrapping_add(1))).unwrap_or(0);
    let last = FIRST_BSSID.wrapping_add(place);
    Ok(format!(in alloc; "IFNAME=wlan{last} {words}")?.into_bytes())
}

fn any_commands(
    alloc: Global,
    radios: u8,
    crowd: u64,
    draws: &mut Generator,
) -> Result<Vec<Vec<u8>>, AllocError> {
    let mut commands = Vec::new(alloc);
    for _ in 0..draws.below(25) {
        commands.push(any_command(alloc, radios, crowd, draws)?)?;
    }
    Ok(commands)
}

fn any_device(draws: &mut Generator) -> DevicePlan {
    let call = BEFORE.wrapping_add(draws.below(60));
    match draws.below(6) {
        0 => DevicePlan::Refuses(call),
        1 => DevicePlan::BreaksOff(call),
        _ => DevicePlan::Serves,
    }
}

fn any_torn(draws: &mut Generator) -> Torn {
    match draws.below(3) {
        0 => Torn::Old,
        1 => Torn::New,
        _ => Torn::Byte(draws.byte()),
    }
}

fn any_end(draws: &mut Generator) -> End {
    match draws.below(8) {
        0 => End::AtPoll(draws.below(300)),
        1 => End::AtEntry(draws.below(60)),
        2..=4 => End::AllGiven,
        _ => End::AllSettled,
    }
}

impl Plan {
    /// The command of a tag, which is its place.
    pub(crate) fn command(&self, tag: u64) -> Option<&[u8]> {
        let place = usize::try_from(tag).unwrap_or(usize::MAX);
        Some(self.commands.get(place)?.as_slice())
    }

    // The place of the radio of a BSSID.
    fn place_of(&self, bssid: Bssid) -> Option<usize> {
        for (place, radio) in self.radios.iter().enumerate() {
            if radio.bssid == bssid {
                return Some(place);
            }
        }
        None
    }

    /// The place of the radio whose interface a command means, if it means one.
    pub(crate) fn meant(&self, command: &[u8]) -> Option<usize> {
        let Parsed::Command { interface, .. } = parse_command(command) else {
            return None;
        };
        self.place_of(self.confs.for_command(interface)?.bssid)
    }

    /// What is drawn from a beginning.
    pub(crate) fn draw(alloc: Global, seed: u64) -> Result<Plan, AllocError> {
        let mut draws = Generator::new(seed);
        let count = u8::try_from(draws.below(8)).unwrap_or(0).wrapping_add(1);
        let crowd = draws.below(u64::from(STATIONS)).wrapping_add(1);
        let confs = any_confs(alloc, count, &mut draws)?;
        let mut radios = Vec::new(alloc);
        for place in 0..count {
            let last = FIRST_BSSID.wrapping_add(place);
            radios.push(any_radio(alloc, last, crowd, &mut draws)?)?;
        }
        Ok(Plan {
            seed,
            confs,
            radios,
            commands: any_commands(alloc, count, crowd, &mut draws)?,
            ticks: draws.below(12),
            device: any_device(&mut draws),
            torn: any_torn(&mut draws),
            end: any_end(&mut draws),
        })
    }
}
