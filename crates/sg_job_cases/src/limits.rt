//! Jobs near the limits, with ample memory.

/// The greatest numbers, lines, scripts, routes and churns, and one past them.
pub const LIMITS: &str = "\
-- The greatest amount.
over SLOWEST h1
unended p0 compute 1e15
out [h1:p0:(1) 1000000000000000.000000000] compute 1000000000000000 1000000000000000.000000000
out Simulation time 1000000000000000.000000000

-- One flop more.
over SLOWEST h1
unended p0 compute 1000000000000001
err script line 1: bad amount
status 5

-- The greatest latency.
platform zone = [{id = 'z', routing = 'Full'}] | link = [{id = 'l', bandwidth = '1', latency = '1000000s'}] | 
out Simulation time 0.000000000

-- A nanosecond more.
platform zone = [{id = 'z', routing = 'Full'}] | link = [{id = 'l', bandwidth = '1', latency = '1000000.000000001s'}] | 
err platform: bad value (table 4, row 1, key 3)
status 3

-- A gateway that is a host of the other zone.
platform zone = [{id = 'z', routing = 'Full'}, {id = 'za', parent = 'z', routing = 'Full'}, {id = 'zb', parent = 'z', routing = 'Full'}] | host = [{id = 'h1', zone = 'za', speed = '1Gf'}, {id = 'h2', zone = 'zb', speed = '1Gf'}] | router = [{id = 'r1', zone = 'za'}, {id = 'r2', zone = 'zb'}] | link = [{id = 'b', bandwidth = '1MBps'}] | zone_route = [{src = 'za', dst = 'zb', gw_src = 'h2', gw_dst = 'r2', links = ['b']}] | 
err platform: gateway outside (table 6, row 1, key 3)
status 3

-- A zone lies 16 deep at most.
platform zone = [ | {id = 'a1', routing = 'Full'}, | {id = 'a2', parent = 'a1', routing = 'Full'}, | {id = 'a3', parent = 'a2', routing = 'Full'}, | {id = 'a4', parent = 'a3', routing = 'Full'}, | {id = 'a5', parent = 'a4', routing = 'Full'}, | {id = 'a6', parent = 'a5', routing = 'Full'}, | {id = 'a7', parent = 'a6', routing = 'Full'}, | {id = 'a8', parent = 'a7', routing = 'Full'}, | {id = 'a9', parent = 'a8', routing = 'Full'}, | {id = 'a10', parent = 'a9', routing = 'Full'}, | {id = 'a11', parent = 'a10', routing = 'Full'}, | {id = 'a12', parent = 'a11', routing = 'Full'}, | {id = 'a13', parent = 'a12', routing = 'Full'}, | {id = 'a14', parent = 'a13', routing = 'Full'}, | {id = 'a15', parent = 'a14', routing = 'Full'}, | {id = 'a16', parent = 'a15', routing = 'Full'}, | ]
out Simulation time 0.000000000

-- There are 16,384 hosts at most.
platform zone = [{id = 'z', routing = 'Full'}] | host = [%0%16385%{id = 'h#', zone = 'z', speed = '1f'}, %]
err platform: over a limit (table 2, row 0, key 0)
status 3

-- A line has 4,096 bytes at most.
job p replay p d s --quiet
over FAST h1
unended p0 compute 0
long_line 4096 _
script
out Simulation time 0.000000000

-- One byte more.
job p replay p d s --quiet
over FAST h1
unended p0 compute 0
long_line 4097 _
script
err script line 1: line too long
status 5

-- Lines wait for their actor.
job p replay p d s --quiet
over FAST h1 h2
lines 5000 p1 compute 0
script p0 compute 0
out Simulation time 0.000000000

-- A script is read as far as it is needed.
job p replay p d s --budget 4
over FAST h1 h2
script p0 compute 1e9 | p1 compute 1e9
lines 100000 # 34567890 234567890 234567890 234567890 234567890 234567890 23
out budget of 4 events used at 0.000000000
need 30
status 8

-- A script is read to its bad line.
over FAST h1 h2
script p0 compute 0 | p0 jump
lines 100000 # 34567890 234567890 234567890 234567890 234567890 234567890 23
err script line 2: unknown action
need 21
status 5

-- A script that nobody needs isn't read.
over FAST
script p0 compute 0
lines 100000 # 34567890 234567890 234567890 234567890 234567890 234567890 23
out Simulation time 0.000000000
need 0

-- A route has 64 links at most.
job p replay p d s --quiet
over - h1 h2
platform zone = [{id = 'z', routing = 'Full'}, {id = 'za', parent = 'z', routing = 'Full'}, {id = 'zb', parent = 'z', routing = 'Full'}] | host = [{id = 'h1', zone = 'za', speed = '1Gf'}, {id = 'h2', zone = 'zb', speed = '1Gf'}] | router = [{id = 'r1', zone = 'za'}] | link = [%0%64%{id = 'k#', bandwidth = '1MBps'}, %] | route = [{src = 'h1', dst = 'r1', links = [%0%40%'k#', %]}] | zone_route = [{src = 'za', dst = 'zb', gw_src = 'r1', gw_dst = 'h2', links = [%40%64%'k#', %]}]
script p0 send p1 0 | p1 recv p0
out Simulation time 0.000000000

-- One link more.
over - h1 h2
platform zone = [{id = 'z', routing = 'Full'}, {id = 'za', parent = 'z', routing = 'Full'}, {id = 'zb', parent = 'z', routing = 'Full'}] | host = [{id = 'h1', zone = 'za', speed = '1Gf'}, {id = 'h2', zone = 'zb', speed = '1Gf'}] | router = [{id = 'r1', zone = 'za'}] | link = [%0%65%{id = 'k#', bandwidth = '1MBps'}, %] | route = [{src = 'h1', dst = 'r1', links = [%0%64%'k#', %]}] | zone_route = [{src = 'za', dst = 'zb', gw_src = 'r1', gw_dst = 'h2', links = [%64%65%'k#', %]}]
script p0 send p1 1 | p1 recv p0
err route from h1 to h2: more than 64 links
status 9

-- A churn of 4,096 actors, without the option of a budget. The time is that of an independent program.
job p churn 7 4096 1
crew both 4096
out 4096 actors, 32768 events
out Simulation time 11.431634660

";

/// A text has 16 MiB at most.
pub const LONG: &str = "\
-- Not a byte more is read than 16 MiB and one: after the call that opens it there are 4,097 reads, and the next call would fail.
over LINE h1
long_platform 16777217 #
failing_call 4099
err platform: over a limit (table 0, row 0, key 0)
status 3

";
