// CLEAR.
ghost use Rattle.std.specs.Prelude.{◌≡◌};
ghost use Rattle.rules.specs.Events.{wait_bit, ecb_at};
ghost use Rattle.rules.specs.Clear.{clear_good, clear_verdict, clear_done};
ghost use Rattle.tables.specs.Tables.{step_of, Packed};
ghost use Rattle.tables.specs.Bodies.{told, body_of};

use ecbs::EcbTable;
use kinds::{Ecb, EcbNumber, No, Refusal, Reply};
use tables::AllTables;
use tables::made::{Made, goes, stays};

// 101: the ECB's number.
#[tactic(auto, unfolding(rules::specs::Clear::clear_good))]
fn clear_good(ecb: EcbNumber) -> bool
    ensures { result ≡ clear_good ecb }
{
    ecb.is_good()
}

// 109: its wait bit is on.
fn wait_bit_on(e: EcbTable, ecb: EcbNumber) -> bool
    ensures { result ≡ wait_bit (ecb_at e.ecbs ecb.0) }
{
    ecbs::at(e, ecb).waiter.0 != 0
}

// 101, then 109.
#[tactic(auto, unfolding(rules::specs::Clear::clear_verdict), using(laws::specs::Decided::judged))]
fn clear_verdict(e: EcbTable, ecb: EcbNumber) -> Result<(), No>
    ensures { result ≡ clear_verdict e.ecbs ecb }
{
    if !clear_good(ecb) {
        return Err(No::Refuse(Refusal::OutOfRange));
    }
    if wait_bit_on(e, ecb) {
        return Err(No::Refuse(Refusal::WaitBitOn));
    }
    Ok(())
}

// CLEAR's tests; where they go on, the word becomes zero.
#[tactic(auto, unfolding(rules::specs::Clear::clear_done), using(tables::proofs::Bodies::bodies))]
pub fn served(t: AllTables, ecb: EcbNumber) -> Made
    requires { Packed t }
    ensures { told result ≡ body_of (clear_verdict t.ecbs.ecbs ecb) t (clear_done (step_of t) ecb) }
{
    match clear_verdict(t.ecbs, ecb) {
        Ok(()) => {
            let e = ecbs::with_ecb(t.ecbs, ecb, Ecb::zero());
            goes(Reply::Done, tables::put_ecbs(t, e))
        }
        Err(no) => stays(Err(no), t),
    }
}
