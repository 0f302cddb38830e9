// Cases 1 to 4: one name; A, B, C and D are tasks 2 to 5, daughters of task 1.
use crate::ask;
use crate::ask::Step;
use kinds::{DeqRet, EcbList, Request, Ret};
use std::io::Stdout;

fn enq(step: &mut Step, text: &str, n: u32, ret: Ret, exclusive: bool) {
    let names = ask::one(exclusive, ask::name(1, 0, 1));
    step.enq(text, ask::task(n), ret, names);
}

fn deq(step: &mut Step, text: &str, n: u32) {
    let request = Request::Deq {
        caller: ask::task(n),
        ret: DeqRet::None,
    };
    let names = ask::one(false, ask::name(1, 0, 1));
    step.beside(text, request, names, EcbList::none());
}

fn tell(step: &Step, text: &str) {
    step.tell_entries(text);
    step.tell_waits(text);
}

// 1: A and B own; C and D wait.
pub(crate) fn case_1(out: Stdout) -> Step {
    let mut step = Step::fresh(out, "1: fresh step, 200/150");
    step.attach("1: task 1 attaches A", 0, 0);
    step.attach("1: task 1 attaches B", 0, 0);
    step.attach("1: task 1 attaches C", 0, 0);
    step.attach("1: task 1 attaches D", 0, 0);
    enq(&mut step, "1: A asks, shared", 2, Ret::None, false);
    enq(&mut step, "1: B asks, shared", 3, Ret::None, false);
    enq(&mut step, "1: C asks, exclusive", 4, Ret::None, true);
    enq(&mut step, "1: D asks, shared", 5, Ret::None, false);
    tell(&step, "1");
    step
}

// 2: B's CHNG is 4 while A owns too, and 0 after A's DEQ.
pub(crate) fn case_2(mut step: Step) -> Step {
    enq(&mut step, "2: B asks for CHNG", 3, Ret::Chng, true);
    step.tell_entries("2");
    deq(&mut step, "2: A leaves", 2);
    enq(&mut step, "2: B asks for CHNG", 3, Ret::Chng, true);
    tell(&step, "2");
    step
}

// 3: C owns alone after B, and D after C.
pub(crate) fn case_3(mut step: Step) {
    deq(&mut step, "3: B leaves", 3);
    tell(&step, "3");
    deq(&mut step, "3: C leaves", 4);
    tell(&step, "3");
}

// 4, from 1: without C, whose mother detaches it, D owns too.
pub(crate) fn case_4(mut step: Step) {
    let request = Request::Detach {
        caller: ask::task(1),
        task: ask::task(4),
    };
    step.plainly("4: task 1 detaches C", request);
    tell(&step, "4");
}
