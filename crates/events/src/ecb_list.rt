// The ECBs beside a WAIT: the tests of the list, and what it does to the event control blocks.
// A list shows as many numbers as its count says, and 16 at most; a number that has no ECB counts as the word zero.
ghost use Rattle.std.specs.Prelude.{◌≡◌, ℕ, eqb, ltb, length, take};
ghost use Rattle.lists.specs.Lists.{every, some, distinct, map_at};
ghost use Rattle.kinds.specs.Ranges.{ecb_good};
ghost use Rattle.rules.specs.Events.{ecbs_good, ecb_at, wait_bit};
ghost use Rattle.rules.specs.Wait.{wait_verdict, complete_of, wait_set};
ghost use Rattle.ecbs.specs.Blocks.{ecb_table_of, ecbs_in};
ghost use Rattle.events.specs.Waits.{waited_by};

use ecbs::EcbTable;
use kinds::{Ecb, EcbList, EcbNumber, Fault, NameList, No, Refusal, TaskNumber};

// The numbers that the list shows.
fn listed(l: &EcbList) -> &[EcbNumber]
    ensures { result.now ≡ take l.now.count l.now.ecbs }
{
    l.ecbs.get(..l.count as usize).unwrap_or(&l.ecbs)
}

fn all_in_range(l: EcbList) -> bool
    ensures { result ≡ every ecb_good (ecbs_in l).ecbs }
{
    listed(&l).iter().all(|m| m.is_good())
}

fn all_distinct(l: EcbList) -> bool
    ensures { result ≡ distinct eqb (ecbs_in l).ecbs }
{
    let mut rest = listed(&l);
    // No chain: `ms.iter().enumerate().all(|(i, m)| !ms[i + 1..].contains(m))` cuts by an index at each number.
    while let Some((m, behind)) = rest.split_first() {
        if behind.contains(m) {
            return false;
        }
        rest = behind;
    }
    true
}

// 101: the count, then every number, then a number that stands twice.
#[tactic(auto, unfolding(rules::specs::Events::ecbs_good, lists::specs::Pick::pick))]
fn list_good(l: EcbList) -> bool
    ensures { result ≡ ecbs_good (ecbs_in l) }
{
    NameList::count_good(l.count) && all_in_range(l) && all_distinct(l)
}

// The ECB of a number: the word zero where it has none. `ecbs::at` takes the table by value, too much for each number.
fn ecb_of(e: &EcbTable, m: EcbNumber) -> Ecb
    ensures { result ≡ ecb_at e.now.ecbs m.0 }
{
    e.ecbs.get(m.0 as usize).copied().unwrap_or(Ecb::zero())
}

// A listed ECB has its wait bit on.
fn any_waited(e: EcbTable, l: EcbList) -> bool
    ensures { result ≡ some (λ (n : ℕ). wait_bit (ecb_at e.ecbs n)) (ecbs_in l).ecbs }
{
    listed(&l).iter().any(|m| ecb_of(&e, *m).waiter.0 != 0)
}

// How many of the listed ECBs are complete.
pub fn complete_of(e: EcbTable, l: EcbList) -> u32
    ensures { result ≡ complete_of e.ecbs (ecbs_in l) }
{
    listed(&l)
        .iter()
        .filter(|m| ecb_of(&e, **m).complete)
        .count() as u32
}

// 204.
fn too_large(l: EcbList, count: u32) -> bool
    ensures { result ≡ ltb (length (ecbs_in l).ecbs) count }
{
    listed(&l).len() < count as usize
}

// 101, then 204, then 203, whatever the count.
#[tactic(auto, unfolding(rules::specs::Wait::wait_verdict), using(laws::specs::Decided::judged))]
pub fn wait_verdict(e: EcbTable, l: EcbList, count: u32) -> Result<(), No>
    ensures { result ≡ wait_verdict e.ecbs (ecbs_in l) count }
{
    if !list_good(l) {
        return Err(No::Refuse(Refusal::OutOfRange));
    }
    if too_large(l, count) {
        return Err(No::Fail(Fault::CountTooLarge));
    }
    if any_waited(e, l) {
        return Err(No::Fail(Fault::AlreadyWaitedOn));
    }
    Ok(())
}

// What becomes of an ECB that task c waits for: the wait bit is set unless it is complete.
#[tactic(auto, unfolding(crate::specs::Waits::waited_by, lists::specs::Pick::pick))]
fn waited_by(x: Ecb, c: TaskNumber) -> Ecb
    ensures { result ≡ waited_by c.0 x }
{
    if x.complete {
        x
    } else {
        Ecb { waiter: c, ..x }
    }
}

// The wait bit is set in each listed ECB that is not complete.
pub fn wait_set(e: EcbTable, c: TaskNumber, l: EcbList) -> EcbTable
    ensures { result ≡ ecb_table_of (map_at (wait_set c.0 (ecbs_in l)) 0 e.ecbs) }
{
    let mut r = e;
    for m in listed(&l) {
        let k = m.0 as usize;
        // Not `get_mut`: its contract leaves open what the slice ends as, so the invariant cannot be shown.
        if k < EcbNumber::PLACES {
            r.ecbs[k] = waited_by(r.ecbs[k], c);
        }
    }
    r
}
