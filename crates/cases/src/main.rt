// The cases that document 01 has checked by hand, and those of document 02 §4, run: every request goes through `serve`,
// and a line tells its answer. Besides, the parts of the tables are told that a case speaks of.
#![tactic(auto)]

mod ask;
mod limits;
mod pages;
mod priorities;
mod queueing;
mod show;
mod storing;
mod waiting;

fn main(rt: HostRuntime) {
    let out = rt.stdout();
    let asked = queueing::case_1(out);
    let changed = queueing::case_2(asked);
    queueing::case_3(changed);
    queueing::case_4(asked);
    let first = priorities::case_5(out);
    priorities::case_6(first);
    let stored = storing::case_7(out);
    storing::case_8(stored);
    storing::case_9(out);
    waiting::case_10(out);
    let named = limits::case_11_names(out);
    limits::case_11_entries(named);
    pages::every_page(out);
    pages::without_gaps(out);
}
