//! The links of a route, each once.
ghost use Rattle.std.specs.Prelude.{◌≡◌, [], Err};
ghost use Rattle.sg_route.specs.DistinctLinks.{is_among};
ghost use Rattle.sg_route.specs.kept.Kept.{keep_one, keep_all};

use crate::router::RouteFault;
use arrayvec::ArrayVec;
use sg_base::LinkId;

fn is_among(link: LinkId, links: &[LinkId]) -> bool
    ensures { result ≡ is_among link links.now }
{
    links.iter().any(|kept| kept.0 == link.0)
}

/// Keeps a link, unless it is kept already or there is no room.
fn keep_one(links: &mut ArrayVec<LinkId, 64>, over: &mut bool, link: LinkId)
    ensures { record { links = links.new.items; over = over.new }
        ≡ keep_one (record { links = links.old.items; over = over.old }) link }
{
    if is_among(link, links.as_slice()) {
        return;
    }
    if links.is_full() {
        *over = true;
    } else {
        links.push(link);
    }
}

/// Keeps these links in their order. If there is no room for one, it raises `over` and continues.
pub(crate) fn keep_all(links: &mut ArrayVec<LinkId, 64>, over: &mut bool, more: &[LinkId])
    ensures { record { links = links.new.items; over = over.new }
        ≡ keep_all (record { links = links.old.items; over = over.old }) more.now }
{
    for link in more {
        keep_one(links, over, *link);
    }
}

/// Returns the answer if there is no route: no link is left.
pub(crate) fn refuse(
    links: &mut ArrayVec<LinkId, 64>,
    fault: RouteFault,
) -> Result<u128, RouteFault>
    ensures fault { result ≡ Err fault }
    ensures none { links.new.items ≡ [] }
{
    links.clear();
    Err(fault)
}
