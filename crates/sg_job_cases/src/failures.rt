//! Parts and streams of which a call fails.

/// One call of a part fails, or one write.
pub const FAILURES: &str = "\
-- The platform can't be opened.
over FAST h1
script p0 compute 1e9
failing_call 1
err cannot read the platform
status 10

-- A read fails in the first line.
over FAST h1
unended p0 comp
failing_call 9
err cannot read the script
status 10

-- A read fails at the end of the first line.
over FAST h1
unended p0 compute 1e9
failing_call 9
err cannot read the script
status 10

-- A read fails in the second line.
over FAST h1
script p0 compute 1e9
unended p0 comp
failing_call 9
out [h1:p0:(1) 1.000000000] compute 1000000000 1.000000000
err cannot read the script
status 10

-- A script that can't be opened, and nobody who fetches a line.
over FAST
script p0 compute 1e9
failing_call 6
out Simulation time 0.000000000

-- A failed write leaves a prefix. A write takes 7 bytes at most, so this one is in the second line.
over LINE h1 h2
script p0 send p1 1e6 | p1 recv p0
failing_write 11
out [h1:p0:(1) 1.010000000] send p1 1000000 1.010000000
front [h2:p1:(2) 1.01000
status 11

-- A failed write in the help.
job p --help
failing_write 3
front Simulates how 
status 11

";

/// Jobs of which each call of a part and each write is to fail in turn.
pub const EACH_FAILURE: &str = "\
-- A message.
over LINE h1 h2
script p0 send p1 1e6 | p1 recv p0
calls 9
writes 2
out [h1:p0:(1) 1.010000000] send p1 1000000 1.010000000
out [h2:p1:(2) 1.010000000] recv p0 1000000 1.010000000
out Simulation time 1.010000000

-- A bad line after an execution.
over LINE h1 h2
script p0 compute 1e9 | p1 compute 5e8 | p0 jump 5
calls 8
writes 2
out [h2:p1:(2) 0.500000000] compute 500000000 0.500000000
err script line 3: unknown action
status 5

-- A last line that is cut off.
over LINE h1
script p0 compute 1e9
unended p0 comp
calls 9
writes 2
out [h1:p0:(1) 1.000000000] compute 1000000000 1.000000000
err script line 2: unknown action
status 5

-- A task of a worker.
job simgrid_replay run p d
over LINE MASTER
calls 6
writes 4
out [h1:m:(1) 1.010000000] send w1 1000000 1.010000000
out [h2:w1:(2) 1.010000000] recv w1 1000000 1.010000000
out [h2:w1:(2) 2.010000000] compute 1000000000 1.000000000
out [h1:m:(1) 2.020000000] send w1 0 1.010000000
out [h2:w1:(2) 2.020000000] recv w1 0 0.010000000
out Simulation time 2.020000000

";
