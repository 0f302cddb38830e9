// Cases 5 and 6: the priorities of new tasks of a mother with 200/150.
use crate::ask;
use crate::ask::Step;
use std::io::Stdout;

// 5: 170/170, dispatching held to the new limit.
pub(crate) fn case_5(out: Stdout) -> Step {
    let mut step = Step::fresh(out, "5: fresh step, 200/150");
    step.attach("5: LPMOD 30, DPMOD 40", 30, 40);
    step.tell_priorities("5", ask::task(2));
    step
}

// 6: 200/0, neither below zero; and limit 0.
pub(crate) fn case_6(mut step: Step) {
    step.attach("6: LPMOD 0, DPMOD -160", 0, -160);
    step.tell_priorities("6", ask::task(3));
    step.attach("6: LPMOD 255, DPMOD 0", 255, 0);
    step.tell_priorities("6", ask::task(4));
}
