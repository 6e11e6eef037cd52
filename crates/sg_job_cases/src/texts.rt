//! The platforms and deployments of the tables, by their names.

/// The texts, each below its name and what it is.
const TEXTS: &str = "\
== FAST Two hosts of 10^9 flops a second.
zone = [{id = 'z', routing = 'Full'}]
host = [{id = 'h1', zone = 'z', speed = '1Gf'}, {id = 'h2', zone = 'z', speed = '1Gf'}]
== LINE Two hosts with a link between them.
zone = [{id = 'z', routing = 'Full'}]
host = [{id = 'h1', zone = 'z', speed = '1Gf'}, {id = 'h2', zone = 'z', speed = '1Gf'}]
link = [{id = 'l', bandwidth = '1MBps', latency = '10ms'}]
route = [{src = 'h1', dst = 'h2', links = ['l']}]
== SLOW One host of 10 flops a second.
zone = [{id = 'z', routing = 'Full'}]
host = [{id = 'h1', zone = 'z', speed = '10f'}]
== SLOWEST One host of one flop a second.
zone = [{id = 'z', routing = 'Full'}]
host = [{id = 'h1', zone = 'z', speed = '1f'}]
== TWO_ZONES Two zones of a host and a router each, with a link between the routers.
zone = [{id = 'z', routing = 'Full'}, {id = 'za', parent = 'z', routing = 'Full'}, {id = 'zb', parent = 'z', routing = 'Full'}]
host = [{id = 'h1', zone = 'za', speed = '1Gf'}, {id = 'h2', zone = 'zb', speed = '1Gf'}]
router = [{id = 'r1', zone = 'za'}, {id = 'r2', zone = 'zb'}]
link = [
    {id = 'a', bandwidth = '1MBps', latency = '10ms'},
    {id = 'b', bandwidth = '1MBps', latency = '10ms'},
    {id = 'c', bandwidth = '1MBps', latency = '10ms'},
]
route = [{src = 'h1', dst = 'r1', links = ['a']}, {src = 'r2', dst = 'h2', links = ['c']}]
zone_route = [{src = 'za', dst = 'zb', gw_src = 'r1', gw_dst = 'r2', links = ['b']}]
== STAR A star whose spokes share a backbone.
zone = [{id = 'z', routing = 'Star'}]
host = [{id = 'h1', zone = 'z', speed = '1Gf'}, {id = 'h2', zone = 'z', speed = '1Gf'}]
link = [{id = 'bb', bandwidth = '1MBps', latency = '10ms'}, %1%3%{id = 'l#', bandwidth = '1MBps', latency = '10ms'}, %]
spoke = [{zone = 'z', child = 'h1', up = ['l1', 'bb']}, {zone = 'z', child = 'h2', up = ['l2', 'bb']}]
== MESH Two paths of two links from h1 to h3, and no route to h4; without the links.
zone = [{id = 'z', routing = 'Dijkstra'}]
host = [%1%5%{id = 'h#', zone = 'z', speed = '1Gf'}, %]
route = [
    {src = 'h1', dst = 'h2', links = ['a']},
    {src = 'h2', dst = 'h3', links = ['b']},
    {src = 'h1', dst = 'h3', links = ['c', 'd']},
]
== MASTER A master that has one task, and its worker.
actor = [
    {name = 'm', host = 'h1', function = 'master', argument = ['1', '1e9', '1e6', 'w1']},
    {name = 'w1', host = 'h2', function = 'worker'},
]
== LATER Two actors, of which the second begins when it is created.
actor = [{name = 'p0', host = 'h1', function = 'replay'}, {name = 'p1', host = 'h2', function = 'replay', start = false}]
== LAST_LATER Three actors, of which the last begins when it is created.
actor = [
    {name = 'p0', host = 'h1', function = 'replay'},
    {name = 'p1', host = 'h2', function = 'replay'},
    {name = 'p2', host = 'h1', function = 'replay', start = false},
]
";

/// Returns the text of this name, an empty one if there is none.
pub fn text_named(name: &str) -> &'static str {
    for section in TEXTS.split("== ") {
        let (head, text) = section.split_once("\n").unwrap_or((section, ""));
        if head.split_once(" ").unwrap_or((head, "")).0 == name {
            return text;
        }
    }
    ""
}
