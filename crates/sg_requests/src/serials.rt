//! Lists of activity ids.
ghost use Rattle.std.specs.Prelude.{◌≡◌, ◌+◌, ◌<◌, ◌≤◌, ◌++◌, [], length, map, slice_set, vec_capacity, vec_len};
ghost use Rattle.std.specs.Option.{option_to_list};
ghost use Rattle.sg_queues.specs.Queues.{values_of};
ghost use Rattle.sg_queues.specs.Rings.{queue_at};
ghost use Rattle.sg_requests.specs.Requested.{rising_numbers, serial_of};

use sg_base::Await;
use sg_queues::Queues;

/// Begins the list anew, with the id of this activity, if there is one. It has room for that.
pub(crate) fn begin(serials: &mut Vec<u64>, on: Option<Await>)
    requires { 0 < vec_capacity serials.old }
    ensures items { serials.new.items ≡ map serial_of (option_to_list on) }
    ensures few { vec_len serials.new ≤ 1 }
    ensures capacity { vec_capacity serials.old ≤ vec_capacity serials.new }
{
    serials.clear();
    if let Some(on) = on {
        serials.push_reserved(on.serial.0);
    }
}

/// Removes all requests of a queue, and adds their activity ids at the end of a list that has room.
pub(crate) fn empty(queues: &mut Queues<Await>, queue: usize, serials: &mut Vec<u64>)
    requires queue { queue < length queues.old.queues }
    requires room { vec_len serials.old + length (queue_at queues.old.queues queue)
        ≤ vec_capacity serials.old }
    ensures queues { values_of queues.new.queues
        ≡ slice_set (values_of queues.old.queues) queue [] }
    ensures slots { queues.old.room ≤ queues.new.room }
    ensures items { serials.new.items ≡ serials.old.items
        ++ map serial_of (queue_at (values_of queues.old.queues) queue) }
    ensures len { vec_len serials.new
        ≡ vec_len serials.old + length (queue_at queues.old.queues queue) }
    ensures capacity { vec_capacity serials.old ≤ vec_capacity serials.new }
{
    while let Some(request) = queues.pop_front(queue) {
        serials.push_reserved(request.serial.0);
    }
}

/// Sorts activity ids, and keeps each once.
pub(crate) fn sort(serials: &mut Vec<u64>)
    ensures items { serials.new.items ≡ rising_numbers serials.old.items }
    ensures capacity { vec_capacity serials.new ≡ vec_capacity serials.old }
{
    serials.sort_unstable();
    serials.dedup();
}
