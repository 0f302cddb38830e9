// Case 10: events.
use crate::ask;
use crate::ask::Step;
use kinds::{EcbList, EcbNumber, NameList, Request};
use std::io::Stdout;

fn post(step: &mut Step, text: &str, ecb: EcbNumber, code: u32) {
    let caller = ask::task(1);
    step.plainly(text, Request::Post { caller, ecb, code });
}

// ECBs 1, 2 and 3.
fn three() -> EcbList {
    let mut ecbs = [ask::ecb(1); NameList::MOST];
    ecbs[1] = ask::ecb(2);
    ecbs[2] = ask::ecb(3);
    EcbList { count: 3, ecbs }
}

fn tell(step: &Step) {
    step.tell_ecbs("10");
    step.tell_waits("10");
}

// 10: one post is enough for who waits for two of three with one complete, and leaves no wait bit.
pub(crate) fn case_10(out: Stdout) {
    let mut step = Step::fresh(out, "10: fresh step, 200/150");
    step.attach("10: task 1 attaches a waiter", 0, 0);
    post(&mut step, "10: POST of ECB 1, code 7", ask::ecb(1), 7);
    let request = Request::Wait {
        caller: ask::task(2),
        count: 2,
    };
    step.beside(
        "10: WAIT for 2 of ECBs 1, 2, 3",
        request,
        NameList::none(),
        three(),
    );
    tell(&step);
    post(&mut step, "10: POST of ECB 3, code 9", ask::ecb(3), 9);
    tell(&step);
}
