// Lines that tell an answer or a part of the tables. Each begins with the text that it is given. Where one cannot be
// written nothing more is said of it.
use crate::ask::{CODES, Step, UNWRITTEN};
use kinds::{Area, Reply, Slot, TaskNumber};
use std::io::Print;

impl Step {
    // The number, what goes besides and, where a byte was written, the codes area.
    pub(crate) fn tell_answer(&self, text: &str, reply: Reply, codes: [u8; CODES]) {
        let out = self.out;
        let _ = print!(out; "{text}: {} {}", reply.number(), reply.besides());
        if codes.iter().any(|b| *b != UNWRITTEN) {
            let [a, b, c, d] = codes;
            let _ = print!(out; " codes={a:02x}{b:02x}{c:02x}{d:02x}");
        }
        let _ = println!(out);
    }

    // The entries in their order.
    pub(crate) fn tell_entries(&self, text: &str) {
        let out = self.out;
        let slots = &self.tables.all.queue.slots;
        for (i, e) in slots.iter().enumerate().take(self.tables.all.queue.count) {
            let kind = if e.exclusive { "exclusive" } else { "shared" };
            let state = if barred(&slots[..i], *e) {
                "waits"
            } else {
                "has control"
            };
            let _ = println!(out; "{text}: entry of task {}, {kind}, {state}", e.task.0);
        }
    }

    pub(crate) fn tell_entry_count(&self, text: &str) {
        let _ = println!(self.out; "{text}: entries: {}", self.tables.all.queue.count);
    }

    // The tasks that wait, for names or for posts.
    pub(crate) fn tell_waits(&self, text: &str) {
        let out = self.out;
        let _ = print!(out; "{text}: tasks in a wait:");
        for (i, x) in self.tables.all.tasks.places.iter().enumerate() {
            if x.condition.waits() {
                let _ = print!(out; " {}", i + TaskNumber::LOWEST as usize);
            }
        }
        let _ = println!(out);
    }

    pub(crate) fn tell_priorities(&self, text: &str, n: TaskNumber) {
        let task = tasks::at(self.tables.all.tasks, n);
        let limit = task.limit;
        let dispatching = task.dispatching;
        let _ = println!(self.out; "{text}: limit {limit}, dispatching {dispatching}");
    }

    // The areas by rising address.
    pub(crate) fn tell_areas(&self, text: &str) {
        let out = self.out;
        let storage = &self.tables.all.storage;
        for a in storage.areas.iter().take(storage.count) {
            let Area {
                start,
                size,
                subpool,
                owner,
            } = *a;
            let _ = print!(out; "{text}: area at {}, {size} bytes, ", start.0);
            let _ = println!(out; "subpool {subpool}, owner {}", owner.0);
        }
    }

    // The words of the first three ECBs after ECB 0, as the book has them.
    pub(crate) fn tell_ecbs(&self, text: &str) {
        let out = self.out;
        let _ = print!(out; "{text}: words of ECBs 1, 2, 3:");
        for x in &self.tables.all.ecbs.ecbs[1..=3] {
            let _ = print!(out; " {:08x}", ecbs::word(*x));
        }
        let _ = println!(out);
    }

    pub(crate) fn tell_end(&self, text: &str) {
        let over = u8::from(self.tables.all.over);
        let code = self.tables.all.code;
        let _ = println!(self.out; "{text}: step over {over}, code {code}");
    }
}

// One of the entries before e keeps it waiting. This looks at the entries alone, and not at what the tasks do.
fn barred(before: &[Slot], e: Slot) -> bool {
    before.iter().any(|x| queue::bars(*x, e))
}
