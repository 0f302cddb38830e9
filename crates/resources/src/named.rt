// What the names beside a request say of it, before anything is looked for.
ghost use Rattle.std.specs.Prelude.{◌≡◌};
ghost use Rattle.names.specs.Named.{names_in};
ghost use Rattle.rules.specs.Tests.{first_of};
ghost use Rattle.rules.specs.Admission.{gate_by};
ghost use Rattle.rules.specs.Enq.{enq_good};
ghost use Rattle.resources.specs.Looking.{enq_named, deq_named};

use kinds::{NameList, Refusal, Ret};
use names::list::{asks_shared, asks_system, names_good};

// 101. Only of a good list are the modes looked at.
#[tactic(auto, unfolding(rules::specs::Enq::enq_good), using(names::proofs::Listed::good_count))]
fn enq_good(ret: Ret, l: NameList) -> bool
    ensures { result ≡ enq_good ret (names_in l) }
{
    names_good(l) && !asks_shared(ret, l)
}

// Of ENQ: 101, 110.
#[tactic(auto, unfolding(lists::specs::Pick::pick), using(crate::proofs::Judged::named))]
pub fn enq_named(ret: Ret, l: NameList) -> Result<(), Refusal>
    ensures { result ≡ gate_by (first_of (enq_named ret (names_in l))) }
{
    if !enq_good(ret, l) {
        return Err(Refusal::OutOfRange);
    }
    if asks_system(l) {
        return Err(Refusal::SystemName);
    }
    Ok(())
}

// Of DEQ: 101. System names are not asked for: no entry has one.
#[tactic(auto, unfolding(lists::specs::Pick::pick))]
pub fn deq_named(l: NameList) -> Result<(), Refusal>
    ensures { result ≡ gate_by (first_of (deq_named (names_in l))) }
{
    if !names_good(l) {
        return Err(Refusal::OutOfRange);
    }
    Ok(())
}
