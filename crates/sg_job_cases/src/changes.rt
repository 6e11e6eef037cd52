//! Whole runs in which hosts, links or actors change, and what they write.

/// Replays in which speeds, bandwidths, states or actors change.
pub const CHANGES: &str = "\
-- A host at half of its speed from half a second on: six events, of which the entry is one.
over FAST h1
with profile = [{host = 'h1', dates = ['0.5'], values = ['500Mf']}]
script p0 compute 1e9
out [h1:p0:(1) 1.500000000] compute 1000000000 1.500000000
out Simulation time 1.500000000
same
job simgrid_replay replay p d s --budget 6

-- One event short.
job simgrid_replay replay p d s --budget 5
over FAST h1
with profile = [{host = 'h1', dates = ['0.5'], values = ['500Mf']}]
script p0 compute 1e9
out [h1:p0:(1) 1.500000000] compute 1000000000 1.500000000
out budget of 5 events used at 1.500000000
status 8

-- A host at speed 0 for good: starvation.
over FAST h1
with profile = [{host = 'h1', dates = ['0.5'], values = ['0']}]
script p0 compute 1e9
out starved at 0.500000000
out blocked [h1:p0:(1)] compute 1000000000
status 7

-- A host at speed 0 for half a second.
over FAST h1
with profile = [{host = 'h1', dates = ['0.5', '1'], values = ['0', '1Gf']}]
script p0 compute 1e9
out [h1:p0:(1) 1.500000000] compute 1000000000 1.500000000
out Simulation time 1.500000000

-- The same in a profile that is repeated.
over FAST h1
with profile = [{host = 'h1', dates = ['0.5', '1'], values = ['0', '1Gf'], loop = '1h'}]
script p0 compute 1e9
out [h1:p0:(1) 1.500000000] compute 1000000000 1.500000000
out Simulation time 1.500000000

-- Deadlock is reported once no entry remains.
over LINE h1 h2
with profile = [{host = 'h1', dates = ['3'], values = ['2Gf']}]
script p0 recv p1 | p1 recv p0
out deadlock at 3.000000000
out blocked [h1:p0:(1)] recv p1
out blocked [h2:p1:(2)] recv p0
status 6

-- A link is turned off under a message: both endpoints fail.
over LINE h1 h2
with state_profile = [{link = 'l', dates = ['0.5'], states = ['off']}]
script p0 send p1 1e6 | p1 recv p0
out [h1:p0:(1) 0.500000000] send p1 1000000 failed
out [h2:p1:(2) 0.500000000] recv p0 1000000 failed
out Simulation time 0.500000000

-- A host is turned off under an execution, and the next one fails in its call: eight events.
over FAST h1
with state_profile = [{host = 'h1', dates = ['0.5'], states = ['off']}]
script p0 compute 1e9 | p0 compute 1e9
out [h1:p0:(1) 0.500000000] compute 1000000000 failed
out [h1:p0:(1) 0.500000000] compute 1000000000 failed
out Simulation time 0.500000000
same
job simgrid_replay replay p d s --budget 8

-- One event short.
job simgrid_replay replay p d s --budget 7
over FAST h1
with state_profile = [{host = 'h1', dates = ['0.5'], states = ['off']}]
script p0 compute 1e9 | p0 compute 1e9
out [h1:p0:(1) 0.500000000] compute 1000000000 failed
out [h1:p0:(1) 0.500000000] compute 1000000000 failed
out budget of 7 events used at 0.500000000
status 8

-- An actor starts when it is created, and who joins it waits for its end.
over LINE LATER
script p0 create p1 | p0 join p1 | p1 compute 1e9
out [h1:p0:(1) 0.000000000] create p1 0.000000000
out [h2:p1:(2) 1.000000000] compute 1000000000 1.000000000
out [h1:p0:(1) 1.000000000] join p1 1.000000000
out Simulation time 1.000000000

-- With one context nobody is created.
over LINE LATER
crew both 1
script p0 create p1 | p1 compute 1e9
out [h1:p0:(1) 0.000000000] create p1 refused
out Simulation time 0.000000000

-- Only actors that start with the run are counted.
over LINE LAST_LATER
crew both 1
script p0 compute 1e9
err deployment: 2 actors, 1 contexts
status 4

-- The last context.
over LINE LAST_LATER
crew both 3
script p0 create p2 | p1 create p2 | p2 sleep 1
out [h1:p0:(1) 0.000000000] create p2 0.000000000
out [h2:p1:(2) 0.000000000] create p2 refused
out [h1:p2:(3) 1.000000000] sleep 1.000000000
out Simulation time 1.000000000

-- Two contexts remain: a create that is refused takes none, and any other takes one.
over LINE
deployment actor = [{name = 'p0', host = 'h1', function = 'replay'}, %1%4%{name = 'p#', host = 'h2', function = 'replay', start = false}, %]
crew both 3
script p0 create p0 | p0 create p1 | p0 create p2 | p0 create p3
out [h1:p0:(1) 0.000000000] create p0 refused
out [h1:p0:(1) 0.000000000] create p1 0.000000000
out [h1:p0:(1) 0.000000000] create p2 0.000000000
out [h1:p0:(1) 0.000000000] create p3 refused
out Simulation time 0.000000000

-- The execution of a suspended actor is suspended.
over LINE h1 h2
script p0 sleep 0.5 | p0 suspend p1 | p0 sleep 1 | p0 resume p1 | p1 compute 1e9
out [h1:p0:(1) 0.500000000] sleep 0.500000000
out [h1:p0:(1) 0.500000000] suspend p1 0.000000000
out [h1:p0:(1) 1.500000000] sleep 1.000000000
out [h1:p0:(1) 1.500000000] resume p1 0.000000000
out [h2:p1:(2) 2.000000000] compute 1000000000 2.000000000
out Simulation time 2.000000000

-- The execution of a killed actor is given up.
over LINE h1 h2
script p0 sleep 0.5 | p0 kill p1 | p1 compute 1e9
out [h1:p0:(1) 0.500000000] sleep 0.500000000
out [h1:p0:(1) 0.500000000] kill p1 0.000000000
out Simulation time 0.500000000

";
