//! The number of visits allowed in a rate update, by the size of the connected component as far as it is known.
ghost use Rattle.std.specs.Prelude.{◌≡◌, ◌≤◌, ◌<◌, ◌+◌, ◌-◌, ◌*◌, ◌^◌, ℕ, None, IfSome, max};
ghost use Rattle.sg_maxmin_levels.specs.Allowed.{IsLeft};
ghost use Rattle.sg_maxmin_levels.specs.Joined.{spare_looks};

/// What is known of the flows in the component, and the visits so far.
#[derive(Clone, Copy)]
pub(crate) struct Allowance {
    // there are so many of them
    pub(crate) known: u64,
    // one of their resources has so many users
    pub(crate) row: u64,
    // so many flows ended
    pub(crate) ended: u64,
    // the number of visits so far
    pub(crate) spent: u64,
}

// Returns the number of visits that are allowed.
fn allowed(known: u64, row: u64, ended: u64) -> u64
    ensures { result ≤ spare_looks known row ended }
{
    let all = known.saturating_add(ended);
    let pairs = all.saturating_mul(all.saturating_add(1));
    let others = known
        .saturating_add(ended.saturating_mul(4))
        .saturating_sub(1);
    pairs
        .saturating_mul(4)
        .saturating_add(others.saturating_mul(row))
}

impl Allowance {
    // Returns the same with so many known flows, and so many users of a resource.
    pub(crate) fn with_flows(self, flows: u64, users: u64) -> Allowance
        ensures known { result.known ≡ max (max self.known flows) users }
        ensures row { result.row ≡ max self.row users }
        ensures ended { result.ended ≡ self.ended }
        ensures spent { result.spent ≡ self.spent }
    {
        Allowance {
            known: self.known.max(flows).max(users),
            row: self.row.max(users),
            ..self
        }
    }

    // Returns how many visits remain; None if a pass over the users of a resource might take more. If these are more than
    // all that are known, they allow it themselves.
    pub(crate) fn left(self) -> Option<u64>
        requires { self.spent ≤ spare_looks self.known self.row self.ended }
        ensures { IfSome result (IsLeft self) }
    {
        let all = allowed(self.known, self.row, self.ended);
        let left = all.saturating_sub(self.spent);
        if self.known <= left { Some(left) } else { None }
    }

    // Returns how many visits remain with so many users, if so many do without; None if the users are more.
    pub(crate) fn left_for(self, users: u64, left: u64) -> Option<u64>
        requires { IsLeft self left }
        ensures pass { IfSome result (λ looks. users ≤ looks) }
        ensures fits { IfSome result (λ looks. self.spent + looks < 2 ^ 64) }
        ensures few { IfSome result (λ looks. self.spent + looks
            ≤ spare_looks (max self.known users) (max self.row users) self.ended) }
    {
        if users <= self.known.min(self.row) {
            return Some(left);
        }
        let all = allowed(self.known.max(users), self.row.max(users), self.ended);
        let left = all.checked_sub(self.spent)?;
        if users <= left { Some(left) } else { None }
    }

    // Returns the same with so many users, after so many visits.
    pub(crate) fn with_row(self, users: u64, looks: u64) -> Allowance
        requires { self.spent + looks < 2 ^ 64 }
        ensures known { result.known ≡ max self.known users }
        ensures row { result.row ≡ max self.row users }
        ensures ended { result.ended ≡ self.ended }
        ensures spent { result.spent ≡ self.spent + looks }
    {
        Allowance {
            known: self.known.max(users),
            row: self.row.max(users),
            spent: self.spent + looks,
            ..self
        }
    }
}
