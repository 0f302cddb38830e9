// Cases 7 to 9: storage, asked for by task 1.
use crate::ask;
use crate::ask::Step;
use kinds::{Address, Request};
use std::io::Stdout;

impl Step {
    pub(crate) fn getmain(&mut self, text: &str, length: u32, subpool: u8, conditional: bool) {
        let request = Request::Getmain {
            caller: ask::task(1),
            length,
            subpool,
            conditional,
        };
        self.plainly(text, request);
    }

    pub(crate) fn freemain(&mut self, text: &str, address: Address, length: u32, subpool: u8) {
        let request = Request::Freemain {
            caller: ask::task(1),
            address,
            length,
            subpool,
        };
        self.plainly(text, request);
    }
}

// 7: four areas, each at the lowest address whose pages hold nobody else's.
pub(crate) fn case_7(out: Stdout) -> Step {
    let mut step = Step::fresh(out, "7: fresh step, 200/150");
    step.getmain("7: 100 bytes of subpool 10", 100, 10, false);
    step.getmain("7: 400 bytes of subpool 10", 400, 10, false);
    step.getmain("7: 8 bytes of subpool 0", 8, 0, false);
    step.getmain("7: 4,000 bytes of subpool 10", 4000, 10, false);
    step.tell_areas("7");
    step
}

// 8: the page of the area that is freed still holds another of its subpool.
pub(crate) fn case_8(mut step: Step) {
    let start = ask::address(0);
    step.freemain("8: 100 bytes at 0, subpool 10, are freed", start, 100, 10);
    step.getmain("8: 8 bytes of subpool 5", 8, 5, false);
    step.tell_areas("8");
}

// 9: the whole region, and then no room.
pub(crate) fn case_9(out: Stdout) {
    let mut step = Step::fresh(out, "9: fresh step, 200/150");
    step.getmain("9: 131,072 bytes of subpool 3", Address::REGION, 3, false);
    step.getmain("9: 8 bytes, conditional", 8, 3, true);
    step.tell_areas("9");
    step.tell_end("9");
    step.getmain("9: 8 bytes, unconditional", 8, 3, false);
    step.tell_areas("9");
    step.tell_end("9");
}
