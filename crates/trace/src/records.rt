// Document 02, Q-3: records in the lent buffer.
ghost use Rattle.std.specs.Prelude.{◌≡◌, ◌++◌, ◌+◌, ◌*◌, ◌≤◌, length, drop};
ghost use Rattle.trace.specs.Record.{record_numbers, numbers_of};
ghost use Rattle.trace.specs.Run.{leaves, with_record};

use crate::{RECORD_NUMBERS, Running, TraceRecord};
use receiver_state::Receiver;

// Writes a record to the front of what is left of the buffer. By `copy_from_slice` from an array of
// the five, blocks with a trigger on every clock have three quarters of the speed.
fn put_record(free: &mut [u32], new: TraceRecord)
    requires { record_numbers ≤ length free.old }
    ensures { free.new ≡ numbers_of new ++ drop record_numbers free.old }
{
    free[0] = new.place;
    free[1] = new.bunch;
    free[2] = new.event;
    free[3] = new.code;
    free[4] = new.word;
}

// A record goes after the others.
// The tail of the buffer is lent to the writer: document 01 names this form.
pub(crate) fn add_record(
    receiver: Receiver,
    records: usize,
    new: TraceRecord,
    buffer: &mut [u32],
) -> Running
    requires { record_numbers * records + record_numbers ≤ length buffer.old }
    ensures { leaves result buffer.new ≡ with_record receiver records new buffer.old }
{
    let next = RECORD_NUMBERS * records;
    put_record(&mut buffer[next..], new);
    Running {
        receiver,
        records: records + 1,
    }
}
