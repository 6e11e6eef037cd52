//! Laws of collectives, each the contract of a function that does nothing: of what all members do together.
ghost use Rattle.sg_collectives.specs.Laws.{AloneDoesNothing, KindsAgree, PeersAreOthers, RequestsAreAwaited, SendsAreReceived};

/// Of every collective and every two ranks, the one sends to the other as often as that one receives from it, and as
/// often without waiting.
pub fn sends_are_received()
    ensures all { SendsAreReceived }
    ensures kinds { KindsAgree }
{}

/// A member sends to other members alone, and receives from other members alone.
pub fn peers_are_others()
    ensures { PeersAreOthers }
{}

/// A single member has nothing to do.
pub fn alone_does_nothing()
    ensures { AloneDoesNothing }
{}

/// A member waits as often as it sends or receives without waiting.
pub fn requests_are_awaited()
    ensures { RequestsAreAwaited }
{}
