// ENQ and DEQ: their tests, and what they make of the queue and the tasks.
#![tactic(auto)]

pub mod codes;
pub mod deq;
pub mod enq;
pub mod looks;
pub mod named;

ghost use Rattle.std.specs.Prelude.{◌≡◌, ◌&&◌, ◌≤◌, length, take, [], ◌∷◌};
ghost use Rattle.kinds.specs.Limits.{longest_list};
ghost use Rattle.names.specs.Pointers.{pointed_in};
ghost use Rattle.kinds.specs.declared.replies.Refusal.TheVariants.{ShortArea};
ghost use Rattle.rules.specs.Codes.{too_short};
ghost use Rattle.rules.specs.Tests.{refuse, first_of};
ghost use Rattle.laws.specs.Passed.{CodesFit};
ghost use Rattle.resources.specs.Looking.{unlooked_by};
ghost use Rattle.resources.specs.Serving.{reply_to, written_if};

use crate::codes::Codes;
use crate::looks::Looks;
use kinds::{NameList, No, PointedList, Refusal, Reply};
use queue::looks::Flags;

// The verdict on a request, and what was looked for before it was given.
#[derive(Clone, Copy)]
pub struct Found {
    pub verdict: Result<(), No>,
    pub looks: Looks,
}

// What the request alone says, apart from its names: 104, where codes are due. `room` is the codes area's length.
#[tactic(auto, unfolding(rules::specs::Codes::too_short), using(crate::proofs::Looked::counted))]
fn asked(due: bool, l: PointedList, room: usize) -> Result<(), No>
    requires { l.count ≤ longest_list }
    ensures { result ≡ first_of (refuse ShortArea (due && too_short room (pointed_in l)) ∷ []) }
{
    if due && room < l.count as usize {
        return Err(No::Refuse(Refusal::ShortArea));
    }
    Ok(())
}

// A request that is refused before the queue is looked at.
fn unlooked(verdict: Result<(), No>) -> Found
    ensures { result ≡ unlooked_by verdict }
{
    Found {
        verdict,
        looks: Looks {
            has: Flags {
                of: [false; NameList::MOST],
            },
            codes: Codes {
                bytes: [0; NameList::MOST],
            },
            zero: true,
        },
    }
}

// The answer is 0 if every code is 0, else 4.
fn reply_to(zero: bool) -> Reply
    ensures { result ≡ reply_to zero }
{
    if zero { Reply::Done } else { Reply::Four }
}

// The codes of the names go to the front of the area if they are due, and else no byte changes.
#[tactic(auto, unfolding(rules::specs::Codes::too_short), using(crate::proofs::Looked::counted))]
fn write_due(due: bool, k: Codes, l: PointedList, area: &mut [u8])
    requires { (l.count ≤ longest_list) × CodesFit due (length area.old) (pointed_in l) }
    ensures { area.new
        ≡ written_if due (take (length (pointed_in l).asks) k.bytes) area.old }
{
    if due {
        codes::write(k, l.count, area);
    }
}
