//! Jobs and their results: command lines, options, masters and workers, context pools, and turns side by side.

/// Command lines and context pools.
pub const JOBS: &str = "\
-- Without a trace.
job p replay p d s --quiet
over FAST h1
script p0 compute 1e9
out Simulation time 1.000000000

-- A budget of four events.
job p replay p d s --budget 4
over FAST h1
script p0 compute 1e9
out [h1:p0:(1) 1.000000000] compute 1000000000 1.000000000
out budget of 4 events used at 1.000000000
status 8

-- A budget of three events.
job p replay p d s --budget=3
over FAST h1
script p0 compute 1e9
out [h1:p0:(1) 1.000000000] compute 1000000000 1.000000000
out budget of 3 events used at 1.000000000
status 8

-- A budget of two events, without a trace.
job p replay p d s --budget 2 --quiet
over FAST h1
script p0 compute 1e9
out budget of 2 events used at 0.000000000
status 8

-- An actor that replays, under run.
job p run p d
over FAST h1
err deployment: replay actor under run (row 1)
status 4

-- Churns: their events are 3 × (7 × steps + 1), their times those of an independent program in Python.
job p churn 7 3 0
out 3 actors, 3 events
out Simulation time 0.000000000

-- The number of threads and a budget of all events change no byte.
out 3 actors, 45 events
out Simulation time 3.827152185
job p churn 7 3 2
same
job p churn 7 3 2 --nthreads 1
same
job p churn 7 3 2 --nthreads 2
same
job p churn 7 3 2 --nthreads 64
same
job p churn 7 3 2 --budget 45

-- One event short.
job p churn 7 3 2 --budget 44
out budget of 44 events used at 3.827152185
status 8

-- A churn of one actor.
job p churn 7 1 2
err error: invalid value '1' for '<ACTORS>': 1 is not in 2..=4096
err
err For more information, try '--help'.
status 2

-- A budget of 0.
job p replay --budget 0 p d s
over FAST h1
script p0 compute 1e9
err error: invalid value '0' for '--budget <N>': 0 is not in 1..=1000000000
err
err For more information, try '--help'.
status 2

-- No threads.
job p replay --nthreads 0 p d s
over FAST h1
script p0 compute 1e9
err error: invalid value '0' for '--nthreads <N>': 0 is not in 1..=64
err
err For more information, try '--help'.
status 2

-- No script.
job simgrid_replay replay p d
over FAST h1
script p0 compute 1e9
err error: the following required arguments were not provided:
err   <SCRIPT>
err
err Usage: simgrid_replay replay <PLATFORM> <DEPLOYMENT> <SCRIPT>
err
err For more information, try '--help'.
status 2

-- A platform of another name.
job p replay d p s
over FAST h1
script p0 compute 1e9
err cannot read the platform
status 10

-- A deployment of another name.
job p run p s
over FAST MASTER
script p0 compute 1e9
err cannot read the deployment
status 10

-- A script of another name.
job p replay p d -
over FAST h1
script p0 compute 1e9
err cannot read the script
status 10

-- An actor needs a context.
over FAST h1 h2
crew both 1
script p0 compute 1e9
err deployment: 2 actors, 1 contexts
status 4

-- A master needs one.
job p run p d
over FAST MASTER
crew both 1
script p0 compute 1e9
err deployment: 2 actors, 1 contexts
status 4

-- An actor of a churn needs one.
job p churn 7 3 2
crew both 2
err deployment: 3 actors, 2 contexts
status 4

-- The kind of context changes no byte, nor do contexts that are left over.
over LINE MASTER
out [h1:m:(1) 1.010000000] send w1 1000000 1.010000000
out [h2:w1:(2) 1.010000000] recv w1 1000000 1.010000000
out [h2:w1:(2) 2.010000000] compute 1000000000 1.000000000
out [h1:m:(1) 2.020000000] send w1 0 1.010000000
out [h2:w1:(2) 2.020000000] recv w1 0 0.010000000
out Simulation time 2.020000000
job p run p d
crew plain 2
same
crew tape 2
same
crew both 2
same
job p run p d --budget 100
crew plain 4
same
job p run p d --budget 100 --nthreads 2
crew tape 4

";

/// As many turns run side by side as there are threads: so many contexts wait for one another, in one of their turns.
pub const MEETINGS: &str = "\
-- Two turns.
job p replay p d s --nthreads 2
over FAST h1 h1
meeting 2 2 1
script p0 compute 1e9 | p1 compute 1e9
out [h1:p0:(1) 2.000000000] compute 1000000000 2.000000000
out [h1:p1:(2) 2.000000000] compute 1000000000 2.000000000
out Simulation time 2.000000000

-- Three turns, of actors without a script.
job p replay p d s --nthreads 3
over LINE h1 h1 h1
meeting 3 3 1
out Simulation time 0.000000000

-- Eight turns.
job p replay p d s --nthreads 8
over LINE h1 h1 h1 h1 h1 h1 h1 h1
meeting 8 8 1
out Simulation time 0.000000000

-- Four of eight actors, in their third turn.
job p replay p d s --nthreads 8
over LINE h1 h1 h1 h1 h1 h1 h1 h1
meeting 8 4 3
script p0 sleep 1 | p2 sleep 1 | p5 sleep 1 | p7 sleep 1
out [h1:p0:(1) 1.000000000] sleep 1.000000000
out [h1:p2:(3) 1.000000000] sleep 1.000000000
out [h1:p5:(6) 1.000000000] sleep 1.000000000
out [h1:p7:(8) 1.000000000] sleep 1.000000000
out Simulation time 1.000000000

-- A master and workers. A task has a byte and a flop, so its message takes a microsecond beside the latency, and it a nanosecond.
job p run p d --nthreads 3
over LINE
deployment actor = [{name = 'm', host = 'h1', function = 'master', argument = ['1', '1', '1', 'w1', 'w2']}, {name = 'w1', host = 'h2', function = 'worker'}, {name = 'w2', host = 'h2', function = 'worker'}] | 
meeting 3 3 1
out [h1:m:(1) 0.010001000] send w1 1 0.010001000
out [h2:w1:(2) 0.010001000] recv w1 1 0.010001000
out [h2:w1:(2) 0.010001001] compute 1 0.000000001
out [h1:m:(1) 0.020001001] send w1 0 0.010000001
out [h2:w1:(2) 0.020001001] recv w1 0 0.010000000
out [h1:m:(1) 0.030001001] send w2 0 0.010000000
out [h2:w2:(3) 0.030001001] recv w2 0 0.030001001
out Simulation time 0.030001001

-- Three turns of a churn.
job p churn 7 3 0 --nthreads 3
meeting 3 3 1
out 3 actors, 3 events
out Simulation time 0.000000000

-- Eight turns of a churn.
job p churn 7 8 0 --nthreads 8
meeting 8 8 1
out 8 actors, 8 events
out Simulation time 0.000000000

";
