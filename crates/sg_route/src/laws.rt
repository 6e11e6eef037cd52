//! What each route of a platform keeps to.
ghost use Rattle.sg_route.specs.Good.{RoutesAreGood};

use sg_platform_rows::PlatformText;

/// A route has 1 to 64 links, all of them exist, and its latency is at most 64 times the greatest of a link.
pub fn routes_are_good(platform: &PlatformText)
    ensures { RoutesAreGood platform.now }
{
    platform.rows_are_valid();
}
