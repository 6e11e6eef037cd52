//! Laws of the rules.
ghost use Rattle.sg_toml_rules.specs.PlatformKinds.{PlatformKinds};
ghost use Rattle.sg_toml_rules.specs.Rising.{FaultsRise};

/// The lists of faults rise, by table, row, key and kind: so the first fault is that of least place, and there of least
/// kind.
#[tactic(auto, using(crate::proofs::Rising::faults_rise))]
pub fn faults_rise()
    ensures { FaultsRise }
{}

/// No fault of a platform text has one of the two kinds of actors.
#[tactic(auto, using(crate::proofs::PlatformKinds::platform_kinds))]
pub fn platform_kinds()
    ensures { PlatformKinds }
{}
