//! Laws of touched components and of the work of a rate update, each the contract of a function that does nothing.
ghost use Rattle.sg_lazy.specs.Laws.{AllReached, FreeRate, KeepsRate, NamesDontMatter, SettledKeepsNone, TouchedRate};

/// What isn't touched keeps its rate, and what is touched has by itself the rates that it has in the whole.
pub fn touched_rates()
    ensures reached { AllReached }
    ensures kept { KeepsRate }
    ensures touched { TouchedRate }
    ensures free { FreeRate }
{}

/// The visits allowed in a rate update don't depend on the flows' names or order, nor on the resources' order.
pub fn names_dont_matter()
    ensures { NamesDontMatter }
{}

/// After a rate update no flow counts as begun, so a second one changes a flow only by its rate.
pub fn settled_keeps_none()
    ensures { SettledKeepsNone }
{}
