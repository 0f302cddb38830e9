// The cases of document 02 §4: every page taken, and areas without gaps. Task 1 asks for 8 bytes each time.
use crate::ask;
use crate::ask::Step;
use kinds::{Address, Area};
use std::io::Stdout;

// As many subpools as there are pages: 1 to 32.
const PAGES: u8 = (Address::REGION / Address::PAGE) as u8;

// All places of the area table but one.
const BUT_ONE: usize = Area::PLACES - 1;

const LENGTH: u32 = Address::DOUBLEWORD;

// Where every page is another's there is no room; a subpool goes on behind its own area, and a page that is freed is
// anybody's.
pub(crate) fn every_page(out: Stdout) {
    let mut step = Step::fresh(out, "02-4: fresh step, 200/150");
    // An area of each subpool, each on the next page, since those before hold another subpool's.
    for subpool in 1..=PAGES {
        step.getmain("02-4: the next subpool", LENGTH, subpool, false);
    }
    step.getmain("02-4: subpool 33, conditional", LENGTH, PAGES + 1, true);
    step.getmain("02-4: subpool 32", LENGTH, PAGES, false);
    let page_5 = ask::address(5 * Address::PAGE);
    step.freemain(
        "02-4: page 5's area, of subpool 6, is freed",
        page_5,
        LENGTH,
        6,
    );
    step.getmain("02-4: subpool 33", LENGTH, PAGES + 1, false);
    step.tell_areas("02-4");
    step.getmain("02-4: subpool 34, unconditional", LENGTH, PAGES + 2, false);
    step.tell_end("02-4");
}

// Areas of one holder stand one behind the other: the 128th begins at the last end, and there is no place for another.
pub(crate) fn without_gaps(out: Stdout) {
    let mut step = Step::fresh(out, "02-4: fresh step, 200/150");
    for _ in 0..BUT_ONE {
        step.getmain("02-4: subpool 10", LENGTH, 10, false);
    }
    step.getmain("02-4: the 128th", LENGTH, 10, false);
    step.getmain("02-4: the 129th", LENGTH, 10, false);
    step.tell_end("02-4");
}
