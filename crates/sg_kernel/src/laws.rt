//! Laws of kernels, each the contract of a function that does nothing.
ghost use Rattle.std.specs.Prelude.{◌≡◌, length};
ghost use Rattle.sg_route.specs.Roads.{roads_of};
ghost use Rattle.sg_platform_rows.specs.Ends.{link_ends};
ghost use Rattle.sg_kernel.specs.Failures.{NothingOffIsUsed};
ghost use Rattle.sg_kernel_calls.specs.Roads.{AreOver};

use sg_platform_rows::PlatformText;
use sg_route::{Router, routes_are_good};

/// No running activity uses a host or a link that is off: not at first, not after a call, and not after a time advance
/// that wasn't stopped.
pub fn nothing_off_is_used()
    ensures { NothingOffIsUsed }
{}

/// All routes of a platform's router are such as its kernels ask for: over 1 to 64 of its links, and with a latency
/// that a factor can't take past its limit.
pub fn roads_are_over(platform: &PlatformText, router: &Router)
    requires roads { router.now ≡ roads_of platform.now }
    ensures { AreOver (length (link_ends platform.now.links)) router.now }
{
    routes_are_good(platform);
}
