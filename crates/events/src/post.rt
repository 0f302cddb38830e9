// POST.
ghost use Rattle.std.specs.Prelude.{◌≡◌};
ghost use Rattle.rules.specs.Post.{post_good, post_verdict, post_done};
ghost use Rattle.tables.specs.Tables.{step_of, Packed};
ghost use Rattle.tables.specs.Bodies.{told, body_of};

use kinds::{Ecb, EcbNumber, No, Refusal, Reply};
use tables::AllTables;
use tables::made::{Made, goes, stays};

// 101: the ECB's number, the code.
#[tactic(auto, unfolding(rules::specs::Post::post_good))]
fn post_good(ecb: EcbNumber, code: u32) -> bool
    ensures { result ≡ post_good ecb code }
{
    ecb.is_good() && Ecb::code_good(code)
}

// 101.
#[tactic(auto, unfolding(rules::specs::Post::post_verdict), using(laws::specs::Decided::judged))]
fn post_verdict(ecb: EcbNumber, code: u32) -> Result<(), No>
    ensures { result ≡ post_verdict ecb code }
{
    if post_good(ecb, code) {
        Ok(())
    } else {
        Err(No::Refuse(Refusal::OutOfRange))
    }
}

// POST's tests; where they go on, the event is complete, and its waiter needs one post fewer.
#[tactic(auto, using(tables::proofs::Bodies::bodies))]
pub fn served(t: AllTables, ecb: EcbNumber, code: u32) -> Made
    requires { Packed t }
    ensures { told result ≡ body_of (post_verdict ecb code) t (post_done (step_of t) ecb code) }
{
    match post_verdict(ecb, code) {
        Ok(()) => {
            let l = between::waiters::post(t.ecbs, t.tasks, ecb, code);
            goes(
                Reply::Done,
                tables::put_tasks(tables::put_ecbs(t, l.ecbs), l.tasks),
            )
        }
        Err(no) => stays(Err(no), t),
    }
}
