//! What holds of the stations that a slot wants.
ghost use Rattle.std.specs.Prelude.{◌≡◌, List};
ghost use Rattle.std.specs.FinMap as map;
ghost use Rattle.apd_base.specs.State.{State, aid_at};
ghost use Rattle.apd_base.specs.declared.address.Bssid.{Bssid};
ghost use Rattle.apd_mlme.specs.laws.Driver.{driver_after, driver_after_all};
ghost use Rattle.apd_mlme.specs.declared.decision.Out.{Out};
ghost use Rattle.apd_slot.specs.Rows.{installed_rows};
ghost use Rattle.apd_slot.specs.Wanted.{Stations, wanted_after, wanted_after_all};

/// What a slot wants after an out is, address by address, the driver's map after that out, and so it is after
/// outs; and the rows that it installs when it resumes are, address by address, the identifiers of its BSSID's
/// associated stations.
pub fn wanted_law()
    ensures outs { (out : Out) (wanted : Stations)
        → map.get (wanted_after out wanted) ≡ driver_after out (map.get wanted) }
    ensures all { (outs : List Out) (wanted : Stations)
        → map.get (wanted_after_all outs wanted) ≡ driver_after_all outs (map.get wanted) }
    ensures rows { (s : State) (b : Bssid) → map.get (installed_rows s b) ≡ aid_at s b }
{}
