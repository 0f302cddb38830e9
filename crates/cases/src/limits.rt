// Case 11: the longest minor name and the last entry.
use crate::ask;
use crate::ask::Step;
use kinds::{Name, NameList, Ret, Slot, Wanted};
use std::array;
use std::io::Stdout;

// The names of a whole group, and how many such groups fill the queue.
const WHOLE: u32 = NameList::MOST as u32;

const GROUPS: u8 = (Slot::PLACES / NameList::MOST) as u8;

// The length of the longest minor part.
const LONGEST: u16 = Name::LONGEST as u16;

fn enq(step: &mut Step, text: &str, names: NameList) {
    step.enq(text, ask::task(1), Ret::None, names);
}

// Exclusive names that no other group has.
fn group(number: u8, count: u32) -> NameList {
    NameList {
        count,
        names: array::from_fn(|i| Wanted {
            exclusive: true,
            name: ask::name(number, i as u8, 2),
        }),
    }
}

// 11: 44 bytes are taken, 45 are not.
pub(crate) fn case_11_names(out: Stdout) -> Step {
    let mut step = Step::fresh(out, "11: fresh step, 200/150");
    let longest = ask::one(false, ask::name(0, 0, LONGEST));
    enq(&mut step, "11: minor name of 44 bytes", longest);
    let longer = ask::one(false, ask::name(0, 0, LONGEST + 1));
    enq(&mut step, "11: minor name of 45 bytes", longer);
    step.tell_entry_count("11");
    step
}

// 11: entry 128 is taken, 129 is not, and neither is a list of which a part would fit.
pub(crate) fn case_11_entries(mut step: Step) {
    // Seven whole groups: all but the last.
    for number in 1..GROUPS {
        enq(&mut step, "11: 16 names", group(number, WHOLE));
    }
    enq(&mut step, "11: 14 names", group(GROUPS, 14));
    step.tell_entry_count("11");
    enq(&mut step, "11: 2 names", group(GROUPS + 1, 2));
    step.tell_entry_count("11");
    enq(&mut step, "11: 1 name", group(GROUPS + 1, 1));
    step.tell_entry_count("11");
    enq(&mut step, "11: 1 name", group(GROUPS + 2, 1));
    step.tell_entry_count("11");
    step.tell_waits("11");
}
