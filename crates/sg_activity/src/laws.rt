//! Laws of hosts, each the contract of a function that does nothing.
ghost use Rattle.sg_activity.specs.Laws.{LoadFits, LoadIsItsOwn, PowerIsItsOwn};

/// The load of a host, and so its power, follow from the host and its own executions, whatever else is running.
pub fn load_is_its_own()
    ensures load { LoadIsItsOwn }
    ensures power { PowerIsItsOwn }
{}

/// The executions of a host get together no more than all its cores offer.
pub fn load_fits()
    ensures { LoadFits }
{}
