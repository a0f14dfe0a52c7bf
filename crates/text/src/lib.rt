// The text of a sheet and of a plan: what is read byte by byte, and what is printed for it.
#![tactic(auto)]

mod printing;
mod reading;

ghost use Rattle.std.specs.Prelude.{◌≤◌};
ghost use Rattle.text.specs.Outcomes.{reply_to};
ghost use Rattle.text.specs.Writing.{page, PutAt};

pub use printing::{PAGE, put};
use printing::{put_plan_of, put_unread};
use reading::HELD;
pub use reading::Reader;

// The text has ended: writes the plan of the words that it says, or `refused` and the number. A
// reader that is full has more words than a sheet can have, and is refused for their number.
pub fn reply(reader: Reader, out: &mut [u8; PAGE]) -> usize
    ensures put_at { PutAt out.old 0 (reply_to reader) out.new result }
    ensures upper_bound { result ≤ page }
{
    let r = reader.finish();
    if r.failed {
        return put_unread(out);
    }
    let many = r.many.min(HELD);
    put_plan_of(&r.words[..many], out)
}
