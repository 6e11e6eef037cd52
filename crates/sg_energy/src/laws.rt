//! Laws of the meter, each the contract of a function that does nothing.
ghost use Rattle.sg_energy.specs.Laws.{LazyIsWhole, SetIsPast, SetKeeps, SetPowerIsUsed, SetSameIsNothing};

/// Over stretches of time, each with its power, a host whose power is set only if it differs has used the sum over
/// all of them of power times span.
pub fn lazy_is_whole()
    ensures { LazyIsWhole }
{}

/// From a date on a host uses the power that is set then.
pub fn set_power_is_used()
    ensures { SetPowerIsUsed }
{}

/// If a power is set, the energy until then stays what it was, and no later date is that of the last change. If it
/// is the power that the host has, nothing changes.
pub fn set_keeps()
    ensures until { SetKeeps }
    ensures past { SetIsPast }
    ensures same { SetSameIsNothing }
{}
