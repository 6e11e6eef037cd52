//! What the faults of the zone tree mean, and what the tree says.
ghost use Rattle.sg_zones.specs.AllFaults.{TellsLeast};
ghost use Rattle.sg_zones.specs.Laws.{CyclesNeverEnd, DepthByStepsUp, HoldsByStepsUp};

use crate::sound::SoundPlatform;
use sg_platform_rows::PlatformText;

/// A zone from which 1,024 steps up don't lead past the root never reaches it, however far one goes up: such a zone is
/// on a cycle, or below one.
pub fn cycles_never_end(platform: &PlatformText)
    ensures { CyclesNeverEnd platform.now }
{
    platform.rows_are_valid();
}

/// The fault that is reported of the rows has the least kind of all, and within it the least place.
pub fn least_fault_is_told(platform: &PlatformText)
    ensures { TellsLeast platform.now }
{
    platform.rows_are_valid();
}

/// A zone holds a point if some steps up from the point's zone lead to it, and is one deeper than the steps from it up
/// to the root. No count of levels is in this.
pub fn tree_goes_up(sound: SoundPlatform<'_>)
    ensures holds { HoldsByStepsUp sound.entry.platform.now }
    ensures depth { DepthByStepsUp sound.entry.platform.now }
{
    sound.platform.rows_are_valid();
}
