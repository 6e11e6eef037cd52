//! What help says.

pub const VERSION: &str = "0.1.0";

pub const PROGRAM: &str = "Simulates how long a program would take on machines that you don't have.
It computes in whole numbers: the same input gives the same output on every machine.
'simgrid_replay COMMAND --help' describes a command.";

pub const REPLAY: &str = "Replays a script: each actor performs the actions of its lines in order";

pub const RUN: &str = "Runs masters and workers, which need no script";

pub const CHURN: &str =
    "Runs a reproducible random workload generated from a seed: a load test, a benchmark, a check of determinism";

pub const SEED: &str =
    "The seed of all speeds, bandwidths, latencies and amounts, 0 to 9223372036854775807";

pub const ACTORS: &str = "Number of actors, 2 to 4096: a ring, each actor on its own host";

pub const STEPS: &str =
    "Steps of each actor, 0 to 1000000: it computes, sends to the next actor, receives from the previous one, and waits";

pub const PLATFORM: &str =
    "The platform, a TOML file: zones, hosts, routers, links, routes, network factors and profiles";

pub const DEPLOYMENT: &str =
    "The deployment, a TOML file: which actor runs on which host, mutexes and semaphores";

pub const SCRIPT: &str =
    "The script, a text file with one action on each line, such as 'p0 compute 1e9 3' (at priority 3) or 'p0 send p1 1e6 2MBps' (at no more than 2 MB/s); - is standard input";

pub const WORKERS: &str =
    "Worker threads, 1 to 64; the output is the same for every number; more than 1 makes the run slower, because turns are short";

pub const BUDGET: &str = "Number of events after which the run is stopped, 1 to 1000000000";

pub const QUIET: &str = "Prints only how the run ended, not a line for each action";

pub const STATUSES: &str = "Exit status:
   0  the simulation completed; also for help and the version
   2  invalid command line
   3  the platform is invalid
   4  the deployment is invalid
   5  a line of the script is invalid
   6  deadlock: actors are blocked, no activity is running and no profile event is pending
   7  starvation: activities are running but none can ever finish (their rate is zero)
   8  the budget of events was used up
   9  two hosts have no route, or one of more than 64 links
  10  the platform, the deployment or the script could not be read
  11  the output could not be written
  12  out of memory

To explain a fault or an ending: simgrid_replay-explain (in a checkout tools/explain) with the same files";
