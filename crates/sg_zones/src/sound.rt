//! A platform whose zones have no fault.
ghost use Rattle.std.specs.Prelude.{◌≡◌, None};
ghost use Rattle.sg_zones.specs.Faults.{zone_fault};

use sg_platform_rows::PlatformText;

/// A platform whose zones have no fault, which is what most laws of routes speak of.
#[derive(Clone, Copy)]
pub struct SoundPlatform<'a> {
    pub platform: &'a PlatformText,
    ghost sound: { zone_fault platform.now ≡ None },
}
