//! What holds of every churn.
ghost use Rattle.sg_platform_churn.specs.Laws.{HasNoZoneFault};

/// The platform of a churn has no zone fault, whatever its seed and however many actors it has.
pub fn churn_has_no_zone_fault()
    ensures { HasNoZoneFault }
{}
