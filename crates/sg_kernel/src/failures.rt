//! Failures of what uses a host or a link that is off.

ghost use Rattle.std.specs.Prelude.{◌≡◌, ◌≤◌, drop};
ghost use Rattle.sg_activity.specs.Underway.{hits};
ghost use Rattle.sg_mailbox.specs.declared.owners.How.TheVariants as how;
ghost use Rattle.sg_kernel_calls.specs.Answers.{finishes};
ghost use Rattle.sg_kernel.specs.Passes.{all_fail};
ghost use Rattle.sg_kernel.specs.kept.Acts.{Changes, Enters};
ghost use Rattle.sg_kernel.specs.kept.Asks.{CanFail};
ghost use Rattle.sg_kernel_calls.specs.kept.Sound.{setup_in};
ghost use Rattle.sg_kernel_calls.specs.kept.Whole.{IsPassing};

use sg_base::Serial;
use sg_kernel_calls::{Fields, Stop, answer_owners, event};
use sg_mailbox::How;

// Fails the first activity of those that use something that is off, and answers its waiters.
fn fail(fields: &mut Fields, serial: Serial)
    requires { CanFail fields.old serial.0 }
    ensures enters { Enters (finishes how.Failed serial.0) fields.old fields.new }
    ensures hits { hits fields.new.doing.under ≡ drop 1 (hits fields.old.doing.under) }
    ensures profiles { fields.new.profiles ≡ fields.old.profiles }
{
    let whose = fields.whose.fail(serial);
    fields.doing.give_up(serial);
    answer_owners(fields, How::Failed, serial, whose);
}

/// Fails all that use something that is off, in order of activity id, as far as the budget goes.
pub(crate) fn fail_all(fields: &mut Fields) -> Result<(), Stop>
    requires { IsPassing fields.old }
    ensures changes { Changes (all_fail (setup_in fields.old)) fields.old fields.new result }
    ensures profiles { fields.new.profiles ≡ fields.old.profiles }
    ensures events { fields.old.events ≤ fields.new.events }
{
    while let Some(serial) = fields.doing.hit() {
        event(fields)?;
        fail(fields, serial);
    }
    Ok(())
}
