//! Laws of the calls.
ghost use Rattle.std.specs.Prelude.{◌≡◌, ◌≢◌, ◌<◌, length, ℕ};
ghost use Rattle.sg_base.specs.declared.ids.ActorId.{ActorId};
ghost use Rattle.sg_sync.specs.Objects.{Done, Objects, acquired, arrived, locked, released, unlocked, waiting, after_withdrawal};
ghost use Rattle.sg_sync.specs.Laws.{KeepsAll, WaitsOnce};

/// No call loses a waiting actor, or wakes one that doesn't wait.
pub fn nobody_is_lost()
    ensures lock { (o : Objects) (caller : ActorId) (mutex : ℕ) → mutex < length o.locking
        → KeepsAll caller o (locked caller mutex o) }
    ensures unlock { (o : Objects) (caller : ActorId) (mutex : ℕ) → mutex < length o.locking
        → KeepsAll caller o (unlocked caller mutex o) }
    ensures acquire { (o : Objects) (caller : ActorId) (semaphore : ℕ)
        → semaphore < length o.acquiring → KeepsAll caller o (acquired caller semaphore o) }
    ensures release { (o : Objects) (caller : ActorId) (semaphore : ℕ)
        → semaphore < length o.acquiring → KeepsAll caller o (released semaphore o) }
    ensures arrive { (o : Objects) (caller : ActorId) → KeepsAll caller o (arrived caller o) }
{}

/// So an actor waits in one queue at most, if none calls that waits.
pub fn actors_wait_once()
    ensures { (o : Objects) (caller : ActorId) (done : Done) → KeepsAll caller o done
        → waiting o caller ≡ 0 → WaitsOnce o → WaitsOnce done.after }
{}

/// Who leaves waits nowhere any more, and all others wait as before.
pub fn leaving_lets_others_wait()
    ensures gone { (o : Objects) (actor : ActorId) → waiting (after_withdrawal actor o) actor ≡ 0 }
    ensures others { (o : Objects) (actor other : ActorId) → other.0 ≢ actor.0
        → waiting (after_withdrawal actor o) other ≡ waiting o other }
{}
