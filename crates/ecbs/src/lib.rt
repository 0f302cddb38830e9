// The event control blocks: ECB n stands at place n.
#![tactic(auto)]

ghost use Rattle.std.specs.Prelude.{◌≡◌, map, ◌≤◌, set};
ghost use Rattle.lists.specs.Lists.{every};
ghost use Rattle.kinds.specs.Limits.{highest_ecb};
ghost use Rattle.rules.specs.Events.{ecb_at, word_of, unwaited as unwaited_of, completed as completed_of};
ghost use Rattle.rules.specs.SoundEcbs.{ecbs_fit, ecb_word_good, ecb_words_good, zero_ecb};
ghost use Rattle.ecbs.specs.Blocks.{ecb_table_of, no_events, tally_of};

use kinds::{Ecb, EcbNumber, TaskNumber};

#[derive(Clone, Copy)]
pub struct EcbTable {
    pub ecbs: [Ecb; EcbNumber::PLACES],
}

impl EcbTable {
    // Bits 1 and 0 of an ECB's word, above the 30 bits of its code.
    pub const COMPLETE_BIT: u64 = Ecb::HIGHEST_CODE as u64 + 1;

    pub const WAIT_BIT: u64 = 2 * EcbTable::COMPLETE_BIT;
}

// For each task number, 0 included, how many ECBs it waits on.
#[derive(Clone, Copy)]
pub struct Tally {
    pub ecbs: [u8; Tally::PLACES],
}

impl Tally {
    pub const PLACES: usize = TaskNumber::PLACES + 1;
}

// No event is waited for or complete.
pub fn empty() -> EcbTable
    ensures { result ≡ ecb_table_of no_events }
{
    EcbTable {
        ecbs: [Ecb::zero(); EcbNumber::PLACES],
    }
}

// An ECB; a number that has none counts as the word zero.
pub fn at(e: EcbTable, n: EcbNumber) -> Ecb
    ensures { result ≡ ecb_at e.ecbs n.0 }
{
    e.ecbs.get(n.0 as usize).copied().unwrap_or(Ecb::zero())
}

// The book's word. It is wider than 32 bits, so that no code is too large.
#[tactic(auto, unfolding(rules::specs::Events::word_of))]
pub fn word(x: Ecb) -> u64
    ensures { result ≡ word_of x }
{
    let wait = if x.waiter.0 == 0 {
        0
    } else {
        EcbTable::WAIT_BIT
    };
    let complete = if x.complete {
        EcbTable::COMPLETE_BIT
    } else {
        0
    };
    wait + complete + x.code as u64
}

// The array has as many places as there are ECBs.
#[tactic(auto, unfolding(rules::specs::SoundEcbs::ecbs_fit))]
pub fn ecbs_fit(e: EcbTable) -> bool
    ensures { result ≡ ecbs_fit e.ecbs }
{
    true // by the array's type
}

#[tactic(auto, unfolding(rules::specs::SoundEcbs::ecb_word_good))]
fn word_good(x: &Ecb) -> bool
    ensures { result ≡ ecb_word_good x.now }
{
    if x.complete {
        x.waiter.0 == 0 && Ecb::code_good(x.code)
    } else {
        x.code == 0
    }
}

#[tactic(auto, unfolding(rules::specs::SoundEcbs::ecb_words_good))]
pub fn words_good(e: EcbTable) -> bool
    ensures { result ≡ ecb_words_good e.ecbs }
{
    e.ecbs.iter().all(word_good)
}

#[tactic(auto, unfolding(rules::specs::SoundEcbs::zero_ecb))]
fn is_zero(x: &Ecb) -> bool
    ensures { result ≡ zero_ecb x.now }
{
    x.waiter.0 == 0 && !x.complete && x.code == 0
}

pub fn all_zero(e: EcbTable) -> bool
    ensures { result ≡ every zero_ecb e.ecbs }
{
    e.ecbs.iter().all(is_zero)
}

pub fn with_ecb(e: EcbTable, n: EcbNumber, x: Ecb) -> EcbTable
    requires { n.0 ≤ highest_ecb }
    ensures { result ≡ ecb_table_of (set e.ecbs n.0 x) }
{
    let mut r = e;
    r.ecbs[n.0 as usize] = x;
    r
}

// What a post makes of an ECB.
pub fn completed(code: u32) -> Ecb
    ensures { result ≡ completed_of code }
{
    Ecb {
        waiter: TaskNumber(0),
        complete: true,
        code,
    }
}

// The wait bit is off if task w set it.
#[tactic(auto, unfolding(rules::specs::Events::unwaited, lists::specs::Pick::pick))]
fn unwaited(x: Ecb, w: TaskNumber) -> Ecb
    ensures { result ≡ unwaited_of w.0 x }
{
    if x.waiter == w {
        Ecb {
            waiter: TaskNumber(0),
            ..x
        }
    } else {
        x
    }
}

// The wait bits that task w set are off.
pub fn unwaited_all(e: EcbTable, w: TaskNumber) -> EcbTable
    ensures { result ≡ ecb_table_of (map (unwaited_of w.0) e.ecbs) }
{
    let mut r = e;
    for x in &mut r.ecbs {
        *x = unwaited(*x, w);
    }
    r
}

// One pass counts for all tasks; a waiter that is no task's number counts for none.
pub fn waited_on(e: EcbTable) -> Tally
    ensures { result ≡ tally_of e.ecbs }
{
    let mut t = Tally {
        ecbs: [0; Tally::PLACES],
    };
    for x in &e.ecbs {
        let w = x.waiter.0 as usize;
        // an index: of what `get_mut` lends a proof knows too little here
        if w < Tally::PLACES {
            t.ecbs[w] += 1;
        }
    }
    t
}
