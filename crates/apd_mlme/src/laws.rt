//! What a reader of clause 11.3 may rely on, whatever the daemon is asked: each law is the contract of
//! a function that does nothing.
ghost use Rattle.std.specs.Prelude.{◌≡◌, ◌≢◌, ◌≤◌, ◌⊎◌, ℕ, List, [], ◌∷◌, None, Some, Ok, IsSome, true, false};
ghost use Rattle.std.specs.List.{Contains};
ghost use Rattle.apd_base.specs.Number.{AreBytes};
ghost use Rattle.apd_base.specs.State.{State, station_at, aid_at, policy_at, empty_state};
ghost use Rattle.apd_base.specs.declared.address.Addr.{Addr};
ghost use Rattle.apd_base.specs.declared.address.Bssid.{Bssid};
ghost use Rattle.apd_base.specs.declared.limits.TheConstants.{MAX_STATIONS};
ghost use Rattle.apd_base.specs.declared.station.Aid.{Aid};
ghost use Rattle.apd_base.specs.declared.station.Policy.{Policy};
ghost use Rattle.apd_conf.specs.Confs.{conf_at};
ghost use Rattle.apd_conf.specs.declared.conf.Conf.{Conf};
ghost use Rattle.apd_frame.specs.declared.received.Authentication.{Authentication};
ghost use Rattle.apd_frame.specs.Contents.{AssociationRequest, Contents, ProbeRequest, ReassociationRequest, association_request, authentication, deauthentication, disassociation, probe_request, reassociation_request};
ghost use Rattle.apd_frame.specs.declared.codes.Reason.{Reason};
ghost use Rattle.apd_frame.specs.declared.codes.Status.TheVariants.{Success};
ghost use Rattle.apd_frame.specs.Outcome.{outcome};
ghost use Rattle.apd_record.specs.Meaning.{meaning_of};
ghost use Rattle.apd_table.specs.Sound.{Sound, StaySound};
ghost use Rattle.apd_mlme.specs.laws.Broadcast.{AreFromStations, IsFromStation, NoBroadcastRow, NoneIsBroadcast};
ghost use Rattle.apd_mlme.specs.laws.Admission.{Asks, HasAsked};
ghost use Rattle.apd_mlme.specs.laws.Association.{IsAnsweredTruly, IsDeserved, IsJoined};
ghost use Rattle.apd_mlme.specs.rules.Association.{without_current_ap};
ghost use Rattle.apd_mlme.specs.laws.FrameClasses.{AreClassesKept};
ghost use Rattle.apd_mlme.specs.laws.Command.{IsAnsweredTo};
ghost use Rattle.apd_mlme.specs.laws.Departure.{IsDeauthenticated, IsDisassociated, IsSilenced};
ghost use Rattle.apd_mlme.specs.laws.Driver.{FollowsDrivers};
ghost use Rattle.apd_mlme.specs.laws.AssociationEnd.{HasLeft, IsToldOfEnd};
ghost use Rattle.apd_event.specs.Happening.{Configure, Expire, Happening, Heard, Kick};
ghost use Rattle.apd_mlme.specs.rules.Identifiers.{identifier_for};
ghost use Rattle.apd_mlme.specs.laws.ManagementFrame.{deauthentication_frame, disassociation_frame};
ghost use Rattle.apd_mlme.specs.laws.NothingElse.{AreApart, AreFramesDue, AreLetGo, AreNeeded, AreTakenIn, IsAlwaysMade};
ghost use Rattle.apd_mlme.specs.laws.Order.{IsLetGoFirst, IsTakenInFirst};
ghost use Rattle.apd_mlme.specs.laws.Probe.{IsProbed, IsProbeFor, response_frame};
ghost use Rattle.apd_mlme.specs.laws.Responses.{IsAssociationAnswered, IsAuthenticationAnswered};
ghost use Rattle.apd_mlme.specs.laws.Authentication.{IsRoomKept, IsToldTruly};
ghost use Rattle.apd_mlme.specs.rules.{verdict, IsFit};
ghost use Rattle.apd_mlme.specs.Run.{run, AreFit};
ghost use Rattle.apd_mlme.specs.laws.Start.{AreDroppedTold, IsStarted};
ghost use Rattle.apd_mlme.specs.laws.Turns.{AreGivenInTurn, IsGiven, WasTaken};
ghost use Rattle.apd_mlme.specs.declared.association.Kind.TheVariants.{Association, Reassociation};
ghost use Rattle.apd_mlme.specs.declared.decision.TheConstants.{MAX_RECORD_BYTES};
ghost use Rattle.apd_mlme.specs.laws.Outs.{OutsAreTrue, OutsAreTrueForAll, RecipientsAreThere};

/// Making the changes of an event in turn leads to the state that its rule says, and each of them
/// leaves a sound state. An event without changes leaves every row as it was.
pub fn changes_lead_to_the_state()
    ensures meaning { (s : State) (confs : List Conf) (h : Happening)
        → meaning_of (verdict s confs h).changes s ≡ (verdict s confs h).state }
    ensures sound { (s : State) (confs : List Conf) (h : Happening) → IsFit s confs h → Sound s
        → StaySound (verdict s confs h).changes s }
    ensures unchanged { (s : State) (confs : List Conf) (h : Happening) → (verdict s confs h).changes ≡ []
        → (verdict s confs h).state ≡ s }
{}

/// Whatever fit events come, the state stays sound: identifiers are from 1 to 2007 and no two stations
/// of a BSSID have the same one, an address is associated at one BSSID at most, and no station has a
/// row that the policy denies.
pub fn every_run_stays_sound()
    ensures { (s : State) (confs : List Conf) (hs : List Happening) → AreFit s confs hs → Sound s
        → Sound (run s confs hs) }
{}

/// An authentication request is answered by one frame, to its sender. Its status is that of the first
/// reason to refuse that holds, and success where none does. It says success only where the sender is in
/// the table then; where it says anything else every row is as it was. A station in the table stays as it
/// is, and so does every other station.
pub fn told_only_when_so()
    ensures { (s : State) (confs : List Conf) (conf : Conf) (b : Bssid) (request : Authentication)
        → conf_at confs b ≡ Some conf
        → IsToldTruly s conf b request (verdict s confs (Heard b (authentication request))) }
{}

/// A driver that has the associated stations of its BSSID, which is configured, has them after each
/// event.
pub fn drivers_follow()
    ensures { (s : State) (confs : List Conf) (h : Happening)
        → FollowsDrivers confs (verdict s confs h).outs s (verdict s confs h).state }
{}

/// The lists that come with the first start of a BSSID are its lists from then on, and those of a later
/// start change nothing: the stored ones stay. A first start has given no identifier yet, and a later one
/// leaves which was given last. Each station that the new policy denies is gone, and every other is as it
/// was.
pub fn lists_come_with_the_first_start()
    ensures { (s : State) (confs : List Conf) (conf : Conf) (b : Bssid) (accept : List Addr) (deny : List Addr)
        → conf_at confs b ≡ Some conf → Sound s
        → IsStarted s conf b accept deny (verdict s confs (Configure b accept deny)).state }
{}

/// A station with a row at a BSSID never lacks an identifier: at most 2007 stations have rows there, so
/// where it is not associated itself one is free.
pub fn an_identifier_is_left()
    ensures { (s : State) (b : Bssid) (a : Addr) → Sound s → IsSome (station_at s b a)
        → IsSome (identifier_for s b (station_at s b a)) }
{}

/// An association or a reassociation request of a station with a row is answered by one response, the
/// last out. Its status is that of the first reason to refuse that holds, and success where none does. Where
/// it says success the sender is associated then, at this BSSID and no other, with the identifier that it is
/// told and that nobody else of the BSSID has; where it says anything else every row is as it was.
pub fn a_member_is_told_so()
    ensures association { (s : State) (confs : List Conf) (conf : Conf) (b : Bssid) (request : AssociationRequest)
        → conf_at confs b ≡ Some conf → Sound s → IsSome (station_at s b request.sender)
        → IsAnsweredTruly s conf b Association request (verdict s confs (Heard b (association_request request))) }
    ensures reassociation { (s : State) (confs : List Conf) (conf : Conf) (b : Bssid) (request : ReassociationRequest)
        → conf_at confs b ≡ Some conf → Sound s → IsSome (station_at s b request.sender)
        → IsAnsweredTruly s conf b Reassociation (without_current_ap request) (verdict s confs
        (Heard b (reassociation_request request))) }
{}

/// A probe request gets one response exactly where its elements are whole and the first SSID among them is
/// the network's name, or is empty and the network does not hide. It changes nothing.
pub fn a_probe_is_answered_where_it_asks()
    ensures { (s : State) (confs : List Conf) (conf : Conf) (b : Bssid) (request : ProbeRequest)
        → conf_at confs b ≡ Some conf → AreBytes request.elements
        → IsProbed s conf b request (verdict s confs (Heard b (probe_request request))) }
{}

/// Whatever happens, all that leaves is so in the state after: each frame is that of a reply to a
/// station, and where it says success the station has its row, or is associated with the identifier that
/// the frame carries; one that is told of a disassociation is not associated, and one that is told of a
/// deauthentication has no row. A driver takes in who is associated, under the same identifier, and lets
/// go who is not. Where no station has the broadcast address for its own, that is so of everyone whom a
/// frame is meant for: a broadcast frame speaks of every station. And nothing leaves for a BSSID that is
/// not configured.
pub fn what_leaves_is_so()
    ensures so { (s : State) (confs : List Conf) (h : Happening) → Sound s
        → OutsAreTrue (verdict s confs h).state (verdict s confs h).outs }
    ensures everyone { (s : State) (confs : List Conf) (h : Happening) → Sound s → NoneIsBroadcast s h
        → OutsAreTrueForAll (verdict s confs h).state (verdict s confs h).outs }
    ensures there { (s : State) (confs : List Conf) (h : Happening)
        → RecipientsAreThere confs (verdict s confs h).outs }
{}

/// A station comes into the table of a BSSID by an authentication request of its own, and by nothing else.
pub fn only_who_asks_comes_into_the_table()
    ensures once { (s : State) (confs : List Conf) (h : Happening) (b : Bssid) (a : Addr) → station_at s b a ≡ None
        → IsSome (station_at (verdict s confs h).state b a) → Asks b a h }
    ensures run { (s : State) (confs : List Conf) (hs : List Happening) (b : Bssid) (a : Addr)
        → station_at s b a ≡ None → IsSome (station_at (run s confs hs) b a) → HasAsked b a hs }
{}

/// So no station has the broadcast address for its own, in any run whose frames are from stations, as each
/// frame is that is not ignored.
pub fn no_station_gets_the_broadcast_address()
    ensures once { (s : State) (confs : List Conf) (h : Happening) → NoneIsBroadcast s h
        → NoBroadcastRow (verdict s confs h).state }
    ensures run { (s : State) (confs : List Conf) (hs : List Happening) → AreFromStations hs → NoBroadcastRow s
        → NoBroadcastRow (run s confs hs) }
    ensures first { NoBroadcastRow empty_state }
    ensures decoded { (octets : List ℕ) (b : Bssid) (frame : Contents) → outcome octets b ≡ Ok frame
        → IsFromStation (Heard b frame) }
{}

/// Nobody is left in the belief that it is associated: a station whose association with a configured
/// BSSID ends is sent a disassociation or a deauthentication by it, unless it left with one itself.
pub fn nobody_is_left_behind()
    ensures { (s : State) (confs : List Conf) (h : Happening) (b : Bssid) (a : Addr) → IsSome (conf_at confs b)
        → IsSome (aid_at s b a) → aid_at (verdict s confs h).state b a ≡ None
        → HasLeft h b a ⊎ IsToldOfEnd (verdict s confs h).outs b a }
{}

/// Each control command is answered once, after all else that leaves, under its own tag, and nothing else
/// is answered. `OK` says that it was obeyed: whom a deauthentication is meant for has no row, whom a
/// disassociation is meant for is not associated, and the edited list has whom it should have. `FAIL` says
/// that a new address came to a list of 1024, and nothing changed. A station whom the edited lists deny has
/// no row, and is told so; and whatever else there is stays as it was.
pub fn a_command_is_answered_truly()
    ensures { (s : State) (confs : List Conf) (h : Happening) → IsFit s confs h → Sound s
        → IsAnsweredTo s h (verdict s confs h) }
{}

/// A frame of class 2 from a station that is not authenticated is answered by a deauthentication with
/// reason 6. One of class 3 is answered by a deauthentication with reason 7 where its sender is not
/// authenticated, and by a disassociation with reason 7 where it is not associated. Nothing else leaves,
/// and nothing changes (IEEE Std 802.11-2016, 11.3.3).
pub fn classes_are_kept()
    ensures { (s : State) (confs : List Conf) (conf : Conf) (b : Bssid) (frame : Contents)
        → conf_at confs b ≡ Some conf → AreClassesKept s b frame (verdict s confs (Heard b frame)) }
{}

/// Octet by octet: an authentication response has the algorithm of the request, its transaction number
/// plus one, and the code of its status (9.3.3.12). An association or a reassociation response to a
/// station with a row has the capability ESS, the code of its status, the AID field of the identifier
/// that the station has, or 0, and the rates of the radio (9.3.3.7 and 9.3.3.9).
pub fn responses_have_their_fields()
    ensures authentication { (s : State) (confs : List Conf) (conf : Conf) (b : Bssid) (request : Authentication)
        → conf_at confs b ≡ Some conf
        → IsAuthenticationAnswered s conf b request (verdict s confs (Heard b (authentication request))) }
    ensures association { (s : State) (confs : List Conf) (conf : Conf) (b : Bssid) (request : AssociationRequest)
        → conf_at confs b ≡ Some conf → Sound s → IsSome (station_at s b request.sender)
        → IsAssociationAnswered 1 s conf b request (verdict s confs (Heard b (association_request request))) }
    ensures reassociation { (s : State) (confs : List Conf) (conf : Conf) (b : Bssid) (request : ReassociationRequest)
        → conf_at confs b ≡ Some conf → Sound s → IsSome (station_at s b request.sender)
        → IsAssociationAnswered 3 s conf b (without_current_ap request) (verdict s confs
        (Heard b (reassociation_request request))) }
{}

/// A station that disassociates is authenticated from then on where it had a row (11.3.5.9), and one
/// that deauthenticates has no row (11.3.4.5). Its driver lets it go where it was associated. It is not
/// told, and nobody else's row changes.
pub fn who_leaves_is_let_go()
    ensures disassociation { (s : State) (confs : List Conf) (conf : Conf) (b : Bssid) (a : Addr) (reason : Reason)
        → conf_at confs b ≡ Some conf → IsSome (station_at s b a)
        → IsDisassociated s b a (verdict s confs (Heard b (disassociation a reason))) }
    ensures deauthentication { (s : State) (confs : List Conf) (conf : Conf) (b : Bssid) (a : Addr) (reason : Reason)
        → conf_at confs b ≡ Some conf
        → IsDeauthenticated s b a (verdict s confs (Heard b (deauthentication a reason))) }
{}

/// A station that was silent for too long is let go by its driver, is told a disassociation with reason
/// 4, and is authenticated from then on (11.3.5.8); one that is only authenticated is told a
/// deauthentication with reason 2, and has no row from then on (11.3.4.4). Nobody else's row changes.
pub fn silence_ends_one_station()
    ensures { (s : State) (confs : List Conf) (conf : Conf) (b : Bssid) (a : Addr) → conf_at confs b ≡ Some conf
        → IsSilenced s b a (verdict s confs (Expire b a)) }
{}

/// In every event a driver lets a station go before the station is told that its association is at an
/// end, and it takes a station in before the station is told that it is associated (own).
pub fn drivers_are_told_first()
    ensures ended { (s : State) (confs : List Conf) (h : Happening) (b : Bssid) (a : Addr) → IsSome (conf_at confs b)
        → IsSome (aid_at s b a) → aid_at (verdict s confs h).state b a ≡ None
        → HasLeft h b a ⊎ IsLetGoFirst (verdict s confs h).outs b a }
    ensures begun { (s : State) (confs : List Conf) (h : Happening) (b : Bssid) (a : Addr) (aid : Aid)
        → aid_at s b a ≡ None → aid_at (verdict s confs h).state b a ≡ Some aid.number
        → IsTakenInFirst (verdict s confs h).outs b a aid }
{}

/// Each station whose row is gone after the start of a BSSID is told a deauthentication with reason 1,
/// whether it was associated or only authenticated (own; 11.3.4.4).
pub fn a_start_tells_whom_it_drops()
    ensures { (s : State) (confs : List Conf) (b : Bssid) (accept : List Addr) (deny : List Addr)
        → AreDroppedTold s b (verdict s confs (Configure b accept deny)) }
{}

/// A probe response has the configured beacon interval, the network's name, the rates of the radio and,
/// at 2.4 GHz alone, its channel, octet by octet (9.3.3.11).
pub fn a_probe_response_says_what_is_configured()
    ensures { (s : State) (confs : List Conf) (conf : Conf) (b : Bssid) (request : ProbeRequest)
        → conf_at confs b ≡ Some conf → AreBytes request.elements → IsProbeFor conf request.elements
        → (verdict s confs (Heard b (probe_request request))).outs ≡ response_frame conf b request.sender ∷ [] }
{}

/// A station without a row gets none where as many have rows at the BSSID as its policy lets authenticate, or
/// more; where fewer have, whoever asks for Open System as it must, and is allowed, has one (own).
pub fn as_many_authenticate_as_the_policy_says()
    ensures { (s : State) (confs : List Conf) (conf : Conf) (b : Bssid) (policy : Policy) (request : Authentication)
        → conf_at confs b ≡ Some conf → policy_at s b ≡ Some policy
        → IsRoomKept s conf b policy request (verdict s confs (Heard b (authentication request))) }
{}

/// A station with a row whose request deserves success has the row that it asked for. The driver of its radio takes
/// it in, unless it was associated there before, then it gets the response, and nothing else leaves there; at
/// every other radio nothing leaves but the end of its association, with reason 1 (11.3.5.3, 11.3.5.5 and 4.5.3.3).
pub fn who_associates_is_told_at_each_radio()
    ensures association { (s : State) (confs : List Conf) (conf : Conf) (b : Bssid) (request : AssociationRequest)
        → conf_at confs b ≡ Some conf → Sound s → IsSome (station_at s b request.sender)
        → IsDeserved conf request Success
        → IsJoined s b request.sender request.capability request.listen_interval (verdict s confs
        (Heard b (association_request request))) }
    ensures reassociation { (s : State) (confs : List Conf) (conf : Conf) (b : Bssid) (request : ReassociationRequest)
        → conf_at confs b ≡ Some conf → Sound s → IsSome (station_at s b request.sender)
        → IsDeserved conf (without_current_ap request) Success
        → IsJoined s b request.sender request.capability request.listen_interval (verdict s confs
        (Heard b (reassociation_request request))) }
{}

/// A command that sends stations away has its frame sent, with the reason that it names: a deauthentication or a
/// disassociation (9.3.3.13 and 9.3.3.5).
pub fn who_is_sent_away_is_told_the_reason()
    ensures deauthentication { (s : State) (confs : List Conf) (b : Bssid) (to : Addr) (reason : Reason) (tag : ℕ)
        → IsSome (conf_at confs b)
        → Contains (verdict s confs (Kick b to reason true tag)).outs (deauthentication_frame b to reason.0) }
    ensures disassociation { (s : State) (confs : List Conf) (b : Bssid) (to : Addr) (reason : Reason) (tag : ℕ)
        → IsSome (conf_at confs b)
        → Contains (verdict s confs (Kick b to reason false tag)).outs (disassociation_frame b to reason.0) }
{}

/// Association identifiers go round: what a BSSID gives is the next one by the one that it gave last, and is
/// the one given last from then on.
pub fn identifiers_are_given_in_turn()
    ensures { (s : State) (confs : List Conf) (h : Happening) (b : Bssid) → Sound s
        → AreGivenInTurn s (verdict s confs h).state b }
{}

/// So in any run, between two events that give the same identifier of a BSSID every other one, from 1 to
/// 2007, was on a row of it at some moment: none is given again while another waits.
pub fn all_others_come_between()
    ensures { (s : State) (confs : List Conf) (first : Happening) (between : List Happening) (second : Happening)
        (b : Bssid) (i j : ℕ) → let once = (verdict s confs first).state in let again = run once confs between in
        Sound s → AreFit s confs (first ∷ between) → IsGiven s once b i
        → IsGiven again (verdict again confs second).state b i
        → 1 ≤ j → j ≤ MAX_STATIONS → j ≢ i → WasTaken once confs between b j }
{}

/// Nothing else leaves. The driver of a radio lets a station go exactly where it has ceased to be associated
/// there: each once, and in address order.
pub fn only_who_has_ceased_is_let_go()
    ensures { (s : State) (confs : List Conf) (h : Happening) (b : Bssid) → Sound s → IsSome (conf_at confs b)
        → AreLetGo s b (verdict s confs h) }
{}

/// The driver of a radio takes a station in exactly where it has newly become associated there: once, under the
/// identifier that it has, and one station at most in an event.
pub fn only_who_newly_associates_is_taken_in()
    ensures { (s : State) (confs : List Conf) (h : Happening) (b : Bssid) → AreTakenIn s b (verdict s confs h) }
{}

/// Whoever's association or authentication has come to an end is sent one frame that says so, in address
/// order, but for who ended it itself, and where one frame tells all. Beside these a radio sends one frame at most,
/// to somebody else: to the sender of a frame, or to whom a command names.
pub fn no_other_frame_leaves()
    ensures { (s : State) (confs : List Conf) (h : Happening) (b : Bssid) → Sound s → IsSome (conf_at confs b)
        → AreFramesDue s h b (verdict s confs h) }
{}

/// Each change is one that the state did not have, but for those that are always made: the row of a station
/// that associates and the identifier that it is given, the clearing of a list, and the policy of a start.
/// And no row is written twice, so each of these is made once at most.
pub fn no_change_is_idle()
    ensures needed { (s : State) (confs : List Conf) (h : Happening) → IsFit s confs h → Sound s
        → AreNeeded (IsAlwaysMade s confs h) (verdict s confs h).changes s }
    ensures once { (s : State) (confs : List Conf) (h : Happening) → IsFit s confs h
        → AreApart (verdict s confs h).changes }
{}

/// A value that other contracts cite by name: the records of one event's changes have at most 28,682
/// bytes (own).
pub fn values_law()
    ensures { MAX_RECORD_BYTES ≡ 28682 }
{}
