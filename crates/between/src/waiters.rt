// The event control blocks and the tasks that wait for them: the rules of both, and a post.

ghost use Rattle.std.specs.Prelude.{◌≡◌, ◌≤◌, ◌<◌};
ghost use Rattle.kinds.specs.Limits.{highest_task, highest_ecb};
ghost use Rattle.rules.specs.Events.{one_post_fewer, bits_left, comes_to, woken as woken_of, signalled};
ghost use Rattle.rules.specs.SoundEcbs.{waiters_good, need_good, needs_good};
ghost use Rattle.laws.specs.Blocks.{waiter_good};
ghost use Rattle.ecbs.specs.Blocks.{ecb_table_of};
ghost use Rattle.between.specs.Posts.{signals_of};

use crate::place;
use ecbs::EcbTable;
use kinds::{Condition, Ecb, EcbNumber, TaskNumber};
use tasks::TaskTable;

// The two tables that a post touches.
#[derive(Clone, Copy)]
pub struct Signals {
    pub ecbs: EcbTable,
    pub tasks: TaskTable,
}

// The waiter, if there is one, is in an ECB wait.
fn waiter_good(f: &TaskTable, x: Ecb) -> bool
    ensures { result ≡ waiter_good f.now.places x }
{
    x.waiter.0 == 0 || place(f, x.waiter).condition.in_ecb_wait()
}

// Every waiter is in an ECB wait.
pub fn waiters_good(e: EcbTable, f: TaskTable) -> bool
    ensures { result ≡ waiters_good f.places e.ecbs }
{
    e.ecbs.iter().all(|x| waiter_good(&f, *x))
}

// A task that waits needs at least 1 post, and at most as many as it has ECBs.
fn need_good(k: Condition, has: u8) -> bool
    ensures { result ≡ need_good k has }
{
    match k {
        Condition::EcbWait(n) => 1 <= n && n <= has,
        _ => true,
    }
}

pub fn needs_good(e: EcbTable, f: TaskTable) -> bool
    ensures { result ≡ needs_good e.ecbs f.places }
{
    let waited_on = ecbs::waited_on(e);
    f.places
        .iter()
        .zip(&waited_on.ecbs[1..])
        .all(|(x, has)| need_good(x.condition, *has))
}

fn one_post_fewer(k: Condition) -> Condition
    ensures { result ≡ one_post_fewer k }
{
    match k {
        Condition::EcbWait(n) if n <= 1 => Condition::Ready,
        Condition::EcbWait(n) => Condition::EcbWait(n - 1),
        _ => k,
    }
}

// Whoever is ready waits for no other ECB.
fn bits_left(e: EcbTable, w: TaskNumber, k: Condition) -> EcbTable
    ensures { result ≡ ecb_table_of (bits_left w.0 k e.ecbs) }
{
    if k.is_ready() {
        return ecbs::unwaited_all(e, w);
    }
    e
}

fn comes_to(e: EcbTable, f: TaskTable, w: TaskNumber, k: Condition) -> Signals
    requires { (0 < w.0) × (w.0 ≤ highest_task) }
    ensures { result ≡ signals_of (comes_to f.places e.ecbs w.0 k) }
{
    let x = tasks::at(f, w).with_condition(k);
    Signals {
        ecbs: bits_left(e, w, k),
        tasks: tasks::with_place(f, w, x),
    }
}

// A waiter that has no place cannot change.
fn woken(d: EcbTable, f: TaskTable, w: TaskNumber) -> Signals
    ensures { result ≡ signals_of (woken_of f.places d.ecbs w.0) }
{
    if !w.is_good() {
        return Signals { ecbs: d, tasks: f };
    }
    let now = tasks::at(f, w).condition;
    comes_to(d, f, w, one_post_fewer(now))
}

// A complete ECB stays as it is.
pub fn post(e: EcbTable, f: TaskTable, n: EcbNumber, code: u32) -> Signals
    requires { n.0 ≤ highest_ecb }
    ensures { result ≡ signals_of (signalled f.places e.ecbs n.0 code) }
{
    let old = ecbs::at(e, n);
    if old.complete {
        return Signals { ecbs: e, tasks: f };
    }
    let next = ecbs::with_ecb(e, n, ecbs::completed(code));
    woken(next, f, old.waiter)
}
