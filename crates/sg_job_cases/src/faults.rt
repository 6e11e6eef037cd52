//! What is printed for texts that are refused.

/// Jobs of which one text has a fault.
pub const FAULTS: &str = "\
-- A link that doesn't exist.
over - h1
platform zone = [{id = 'z', routing = 'Full'}] | host = [{id = 'h1', zone = 'z', speed = '1Gf'}, {id = 'h2', zone = 'z', speed = '1Gf'}] | link = [{id = 'l', bandwidth = '1MBps', latency = '10ms'}] | route = [{src = 'h1', dst = 'h2', links = ['q']}]
err platform: unknown name (table 5, row 1, key 3)
status 3

-- A SPLITDUPLEX link has no name of its own in a list.
over - h1
platform zone = [{id = 'z', routing = 'Full'}] | host = [{id = 'h1', zone = 'z', speed = '1Gf'}, {id = 'h2', zone = 'z', speed = '1Gf'}] | link = [{id = 'd', bandwidth = '1MBps', latency = '10ms', sharing_policy = 'SPLITDUPLEX'}] | route = [{src = 'h1', dst = 'h2', links = ['d']}]
err platform: unknown name (table 5, row 1, key 3)
status 3

-- The name of a row is judged before its cores.
over - h1
platform zone = [{id = 'z', routing = 'Full'}] | host = [{id = 'h1', zone = 'z', speed = '1Gf'}, {id = 'h1', zone = 'z', speed = '1Gf', core = 0}]
err platform: duplicate (table 2, row 2, key 1)
status 3

-- A zone that is its own parent.
over - h1
platform zone = [{id = 'a', routing = 'Full'}, {id = 'b', parent = 'b', routing = 'Full'}]
err platform: zone cycle (table 1, row 2, key 2)
status 3

-- Two zones that name each other, beside a root.
over - h1
platform zone = [{id = 'a', routing = 'Full'}, {id = 'b', parent = 'c', routing = 'Full'}, {id = 'c', parent = 'b', routing = 'Full'}]
err platform: zone cycle (table 1, row 2, key 2)
status 3

-- A chain of 17 zones.
over - h1
platform zone = [ | {id = 'a1', routing = 'Full'}, | {id = 'a2', parent = 'a1', routing = 'Full'}, | {id = 'a3', parent = 'a2', routing = 'Full'}, | {id = 'a4', parent = 'a3', routing = 'Full'}, | {id = 'a5', parent = 'a4', routing = 'Full'}, | {id = 'a6', parent = 'a5', routing = 'Full'}, | {id = 'a7', parent = 'a6', routing = 'Full'}, | {id = 'a8', parent = 'a7', routing = 'Full'}, | {id = 'a9', parent = 'a8', routing = 'Full'}, | {id = 'a10', parent = 'a9', routing = 'Full'}, | {id = 'a11', parent = 'a10', routing = 'Full'}, | {id = 'a12', parent = 'a11', routing = 'Full'}, | {id = 'a13', parent = 'a12', routing = 'Full'}, | {id = 'a14', parent = 'a13', routing = 'Full'}, | {id = 'a15', parent = 'a14', routing = 'Full'}, | {id = 'a16', parent = 'a15', routing = 'Full'}, | {id = 'a17', parent = 'a16', routing = 'Full'}, | ] | 
err platform: zones too deep (table 1, row 17, key 2)
status 3

-- A router is no host.
platform zone = [{id = 'z', routing = 'Full'}] | host = [{id = 'h1', zone = 'z', speed = '1Gf'}] | router = [{id = 'r1', zone = 'z'}]
deployment actor = [{name = 'p0', host = 'r1', function = 'replay'}]
err deployment: unknown name (table 1, row 1, key 2)
status 4

-- A script that isn't ASCII.
over FAST h1
script p~ compute 1
err script line 1: not ASCII
status 5

-- A platform that isn't UTF-8.
over FAST h1
platform zone = [{id = 'z~', routing = 'Full'}] | 
err platform: not TOML
status 3

";
