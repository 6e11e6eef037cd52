//! Whole runs over links, routes and objects, and what they write.

/// Replays over links, routes and objects.
pub const RUNS: &str = "\
-- Two messages over a link of one byte a second: starvation.
over FAST h1 h2 h1 h2
with link = [{id = 'l', bandwidth = '1Bps', latency = '0s'}] | route = [{src = 'h1', dst = 'h2', links = ['l']}]
script p0 send p1 1 | p1 recv p0 | p2 send p3 1 | p3 recv p2
out starved at 0.000000000
out blocked [h1:p0:(1)] send p1 1
out blocked [h2:p1:(2)] recv p0
out blocked [h1:p2:(3)] send p3 1
out blocked [h2:p3:(4)] recv p2
status 7

-- Two receives that wait for each other: deadlock.
over LINE h1 h2
script p0 recv p1 | p1 recv p0
out deadlock at 0.000000000
out blocked [h1:p0:(1)] recv p1
out blocked [h2:p1:(2)] recv p0
status 6

-- An execution of no flops.
over LINE h1
script p0 compute 0
out [h1:p0:(1) 0.000000000] compute 0 0.000000000
out Simulation time 0.000000000

-- A message of no bytes, without a latency.
over FAST h1 h2
with link = [{id = 'l', bandwidth = '1Bps', latency = '0s'}] | route = [{src = 'h1', dst = 'h2', links = ['l']}]
script p0 send p1 0 | p1 recv p0
out [h1:p0:(1) 0.000000000] send p1 0 0.000000000
out [h2:p1:(2) 0.000000000] recv p0 0 0.000000000
out Simulation time 0.000000000

-- Three messages over two links end at one date.
over - h1 h2 h1 h3 h2 h3
platform zone = [{id = 'z', routing = 'Full'}] | host = [%1%4%{id = 'h#', zone = 'z', speed = '1Gf'}, %] | link = [%1%3%{id = 'k#', bandwidth = '5Bps', latency = '0s'}, %] | route = [{src = 'h1', dst = 'h2', links = ['k1']}, {src = 'h1', dst = 'h3', links = ['k1', 'k2']}, {src = 'h2', dst = 'h3', links = ['k2']}] | 
script p0 send p1 10 | p1 recv p0 | p2 send p3 10 | p3 recv p2 | p4 send p5 10 | p5 recv p4
out [h1:p0:(1) 5.000000000] send p1 10 5.000000000
out [h2:p1:(2) 5.000000000] recv p0 10 5.000000000
out [h1:p2:(3) 5.000000000] send p3 10 5.000000000
out [h3:p3:(4) 5.000000000] recv p2 10 5.000000000
out [h2:p4:(5) 5.000000000] send p5 10 5.000000000
out [h3:p5:(6) 5.000000000] recv p4 10 5.000000000
out Simulation time 5.000000000

-- Two messages over a FATPIPE link.
over FAST h1 h2 h1 h2
with link = [{id = 'l', bandwidth = '1MBps', latency = '10ms', sharing_policy = 'FATPIPE'}] | route = [{src = 'h1', dst = 'h2', links = ['l']}]
script p0 send p1 1e6 | p1 recv p0 | p2 send p3 1e6 | p3 recv p2
out [h1:p0:(1) 1.010000000] send p1 1000000 1.010000000
out [h2:p1:(2) 1.010000000] recv p0 1000000 1.010000000
out [h1:p2:(3) 1.010000000] send p3 1000000 1.010000000
out [h2:p3:(4) 1.010000000] recv p2 1000000 1.010000000
out Simulation time 1.010000000

-- Two messages share a link.
over LINE h1 h2 h1 h2
script p0 send p1 1e6 | p1 recv p0 | p2 send p3 1e6 | p3 recv p2
out [h1:p0:(1) 2.010000000] send p1 1000000 2.010000000
out [h2:p1:(2) 2.010000000] recv p0 1000000 2.010000000
out [h1:p2:(3) 2.010000000] send p3 1000000 2.010000000
out [h2:p3:(4) 2.010000000] recv p2 1000000 2.010000000
out Simulation time 2.010000000

-- A route through the gateways of two zones.
over TWO_ZONES h1 h2
script p0 send p1 1e6 | p1 recv p0
out [h1:p0:(1) 1.030000000] send p1 1000000 1.030000000
out [h2:p1:(2) 1.030000000] recv p0 1000000 1.030000000
out Simulation time 1.030000000

-- A route over the backbone of a star zone.
over STAR h1 h2
script p0 send p1 1e6 | p1 recv p0
out [h1:p0:(1) 1.030000000] send p1 1000000 1.030000000
out [h2:p1:(2) 1.030000000] recv p0 1000000 1.030000000
out Simulation time 1.030000000

-- A message of a host to itself takes the loopback.
over STAR h1
script p0 isend p0 498000000 | p0 recv p0 | p0 wait
out [h1:p0:(1) 0.000000000] isend p0 498000000 0.000000000
out [h1:p0:(1) 1.000015000] recv p0 498000000 1.000015000
out [h1:p0:(1) 1.000015000] wait 0.000000000
out Simulation time 1.000015000

-- An unlock of a mutex that nobody has locked is refused.
over LINE h1
script p0 unlock m1 | p0 wait
out [h1:p0:(1) 0.000000000] unlock m1 refused
out [h1:p0:(1) 0.000000000] wait refused
out Simulation time 0.000000000

-- A wait without a request is refused.
over LINE h1
script p0 wait
out [h1:p0:(1) 0.000000000] wait refused
out Simulation time 0.000000000

-- A lock waits for the unlock.
over LINE h1 h2
script p0 lock m1 | p0 compute 1e9 | p0 unlock m1 | p1 lock m1 | p1 unlock m1
out [h1:p0:(1) 0.000000000] lock m1 0.000000000
out [h1:p0:(1) 1.000000000] compute 1000000000 1.000000000
out [h1:p0:(1) 1.000000000] unlock m1 0.000000000
out [h2:p1:(2) 1.000000000] lock m1 1.000000000
out [h2:p1:(2) 1.000000000] unlock m1 0.000000000
out Simulation time 1.000000000

-- The last one at the barrier opens it.
over LINE h1 h2
script p0 sleep 1 | p0 barrier | p1 barrier
out [h1:p0:(1) 1.000000000] sleep 1.000000000
out [h2:p1:(2) 1.000000000] barrier 1.000000000
out [h1:p0:(1) 1.000000000] barrier 0.000000000
out Simulation time 1.000000000

-- An acquire waits for a release.
over LINE h1 h2
script p0 acquire s1 | p1 sleep 2 | p1 release s1
out [h2:p1:(2) 2.000000000] sleep 2.000000000
out [h2:p1:(2) 2.000000000] release s1 0.000000000
out [h1:p0:(1) 2.000000000] acquire s1 2.000000000
out Simulation time 2.000000000

-- No route.
over FAST h1 h2
script p0 send p1 1 | p1 recv p0
err no route from h1 to h2: zone z, h1 to h2
status 9

-- Of two shortest paths in a Dijkstra zone, the one whose links were declared first.
over MESH h1 h3 h1 h2
with link = [{id = 'a', bandwidth = '1MBps', latency = '10ms'}, {id = 'b', bandwidth = '1MBps', latency = '10ms'}, {id = 'c', bandwidth = '1MBps', latency = '10ms'}, {id = 'd', bandwidth = '1MBps', latency = '10ms'}]
script p0 send p1 1e6 | p1 recv p0
out [h1:p0:(1) 1.020000000] send p1 1000000 1.020000000
out [h3:p1:(2) 1.020000000] recv p0 1000000 1.020000000
out Simulation time 1.020000000

-- With the links of the other path declared first, it is that one.
over MESH h1 h3 h1 h2
with link = [{id = 'c', bandwidth = '1MBps', latency = '10ms'}, {id = 'd', bandwidth = '1MBps', latency = '10ms'}, {id = 'a', bandwidth = '1MBps', latency = '10ms'}, {id = 'b', bandwidth = '1MBps', latency = '10ms'}]
script p0 send p1 1e6 | p1 recv p0 | p2 send p3 1e6 | p3 recv p2
out [h1:p2:(3) 1.010000000] send p3 1000000 1.010000000
out [h2:p3:(4) 1.010000000] recv p2 1000000 1.010000000
out [h1:p0:(1) 1.020000000] send p1 1000000 1.020000000
out [h3:p1:(2) 1.020000000] recv p0 1000000 1.020000000
out Simulation time 1.020000000

-- No path in a Dijkstra zone.
over MESH
with link = [{id = 'a', bandwidth = '1MBps', latency = '10ms'}, {id = 'b', bandwidth = '1MBps', latency = '10ms'}, {id = 'c', bandwidth = '1MBps', latency = '10ms'}, {id = 'd', bandwidth = '1MBps', latency = '10ms'}]
deployment actor = [{name = 'p0', host = 'h1', function = 'replay'}, {name = 'p1', host = 'h4', function = 'replay'}]
script p0 send p1 1e6 | p1 recv p0
err no route from h1 to h4: zone z, h1 to h4
status 9

-- An actor that has ended isn't among those that are blocked.
over LINE h1 h2 h1
script p0 barrier | p1 barrier
out deadlock at 0.000000000
out blocked [h1:p0:(1)] barrier
out blocked [h2:p1:(2)] barrier
status 6

-- A mutex that doesn't exist.
over LINE h1
script p0 lock m9
err script line 1: unknown object
status 5

-- The reverse route leads over the other half of a SPLITDUPLEX link alone, so the two messages share nothing.
over FAST h1 h2 h1 h2
with link = [{id = 'l', bandwidth = '1MBps', latency = '10ms', sharing_policy = 'SPLITDUPLEX'}] | route = [{src = 'h1', dst = 'h2', links = ['l_UP']}]
script p0 send p1 1e6 | p1 recv p0 | p3 send p2 1e6 | p2 recv p3
out [h1:p0:(1) 1.010000000] send p1 1000000 1.010000000
out [h2:p1:(2) 1.010000000] recv p0 1000000 1.010000000
out [h2:p3:(4) 1.010000000] send p2 1000000 1.010000000
out [h1:p2:(3) 1.010000000] recv p3 1000000 1.010000000
out Simulation time 1.010000000

-- Factors of latencies and bandwidths, and a window.
over LINE h1 h2
with network = [{latency_factor = '13.01', bandwidth_factor = '0.97', window = '4194304'}]
script p0 send p1 1e6 | p1 recv p0
out [h1:p0:(1) 1.161027836] send p1 1000000 1.161027836
out [h2:p1:(2) 1.161027836] recv p0 1000000 1.161027836
out Simulation time 1.161027836

-- A send with a rate.
over LINE h1 h2
script p0 send p1 1e6 500kBps | p1 recv p0
out [h1:p0:(1) 2.010000000] send p1 1000000 2.010000000
out [h2:p1:(2) 2.010000000] recv p0 1000000 2.010000000
out Simulation time 2.010000000

-- A bcast of three members.
over - h1 h2 h3
platform zone = [{id = 'z', routing = 'Full'}] | host = [%1%4%{id = 'h#', zone = 'z', speed = '1Gf'}, %] | link = [{id = 'l', bandwidth = '1MBps', latency = '10ms'}] | route = [{src = 'h1', dst = 'h2', links = ['l']}, {src = 'h1', dst = 'h3', links = ['l']}, {src = 'h2', dst = 'h3', links = ['l']}] | 
script p0 bcast 1e6 | p1 bcast 1e6 | p2 bcast 1e6
out [h1:p0:(1) 1.010000000] send p2 1000000 1.010000000
out [h3:p2:(3) 1.010000000] recv p0 1000000 1.010000000
out [h1:p0:(1) 2.020000000] send p1 1000000 1.010000000
out [h2:p1:(2) 2.020000000] recv p0 1000000 2.020000000
out Simulation time 2.020000000

-- A reduce of two members.
over LINE h1 h2
script p0 reduce 1e6 1e9 | p1 reduce 1e6 1e9
out [h2:p1:(2) 1.010000000] send p0 1000000 1.010000000
out [h1:p0:(1) 1.010000000] recv p1 1000000 1.010000000
out [h1:p0:(1) 2.010000000] compute 1000000000 1.000000000
out Simulation time 2.010000000

";

/// Replays on hosts alone.
pub const COMPUTATIONS: &str = "\
-- An execution, in five events.
over FAST h1
script p0 compute 1e9
out [h1:p0:(1) 1.000000000] compute 1000000000 1.000000000
out Simulation time 1.000000000
same
job p replay --budget 5 p d s

-- Comments, carriage returns, and a last line without a newline.
over FAST h1
script # head^ | ^
unended p0 compute 1e9
out [h1:p0:(1) 1.000000000] compute 1000000000 1.000000000
out Simulation time 1.000000000

-- An empty script.
over FAST h1
out Simulation time 0.000000000

-- Two executions share a host.
over FAST h1 h1
script p0 compute 1e9 | p1 compute 1e9
out [h1:p0:(1) 2.000000000] compute 1000000000 2.000000000
out [h1:p1:(2) 2.000000000] compute 1000000000 2.000000000
out Simulation time 2.000000000

-- Three executions share a host. The number of threads changes no byte.
over SLOW h1 h1 h1
script p0 compute 10 | p1 compute 10 | p2 compute 10
out [h1:p0:(1) 3.333333334] compute 10 3.333333334
out [h1:p1:(2) 3.333333334] compute 10 3.333333334
out [h1:p2:(3) 3.333333334] compute 10 3.333333334
out Simulation time 3.333333334
same
job p replay p d s --nthreads 1
same
job p replay p d s --nthreads 2
same
job p replay p d s --nthreads 64

-- Of three executions one ends first.
over SLOW h1 h1 h1
script p0 compute 10 | p1 compute 10 | p2 compute 1
out [h1:p2:(3) 0.333333334] compute 1 0.333333334
out [h1:p0:(1) 2.133333334] compute 10 2.133333334
out [h1:p1:(2) 2.133333334] compute 10 2.133333334
out Simulation time 2.133333334

-- Eleven executions at ten flops a second: starvation.
over SLOW h1 h1 h1 h1 h1 h1 h1 h1 h1 h1 h1
script p0 compute 1 | p1 compute 1 | p2 compute 1 | p3 compute 1 | p4 compute 1 | p5 compute 1 | p6 compute 1 | p7 compute 1 | p8 compute 1
script p9 compute 1 | p10 compute 1
out starved at 0.000000000
out blocked [h1:p0:(1)] compute 1
out blocked [h1:p1:(2)] compute 1
out blocked [h1:p2:(3)] compute 1
out blocked [h1:p3:(4)] compute 1
out blocked [h1:p4:(5)] compute 1
out blocked [h1:p5:(6)] compute 1
out blocked [h1:p6:(7)] compute 1
out blocked [h1:p7:(8)] compute 1
out blocked [h1:p8:(9)] compute 1
out blocked [h1:p9:(10)] compute 1
out blocked [h1:p10:(11)] compute 1
status 7

-- An execution of twice the priority.
over SLOW h1 h1 h1
script p0 compute 10 2 | p1 compute 10
out [h1:p0:(1) 1.666666667] compute 10 1.666666667
out [h1:p1:(2) 2.166666667] compute 10 2.166666667
out Simulation time 2.166666667

-- Energy of a host whose one core is used.
over - h1
platform zone = [{id = 'z', routing = 'Full'}] | host = [{id = 'h1', zone = 'z', speed = '1Gf', power = [100000, 120000, 200000], power_off = 10000}] | 
script p0 compute 1e9
out [h1:p0:(1) 1.000000000] compute 1000000000 1.000000000
out Simulation time 1.000000000
out energy h1 200.000000000000

-- Energy of a host of which one of two cores is used.
over - h1
platform zone = [{id = 'z', routing = 'Full'}] | host = [{id = 'h1', zone = 'z', speed = '1Gf', core = 2, power = [100000, 120000, 200000]}] | 
script p0 compute 1e9
out [h1:p0:(1) 1.000000000] compute 1000000000 1.000000000
out Simulation time 1.000000000
out energy h1 160.000000000000

-- Energy of a host that three executions share.
over - h1 h1 h1
platform zone = [{id = 'z', routing = 'Full'}] | host = [{id = 'h1', zone = 'z', speed = '10f', power = [100000, 120000, 200000]}] | 
script p0 compute 10 | p1 compute 10 | p2 compute 10
out [h1:p0:(1) 3.333333334] compute 10 3.333333334
out [h1:p1:(2) 3.333333334] compute 10 3.333333334
out [h1:p2:(3) 3.333333334] compute 10 3.333333334
out Simulation time 3.333333334
out energy h1 640.000000128000

";
