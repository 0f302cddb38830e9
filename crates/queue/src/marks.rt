// Marks on tasks.
ghost use Rattle.std.specs.Prelude.{◌≡◌};
ghost use Rattle.queue.specs.Marking.{all_marks, no_marks, mark_at, with_mark};

use kinds::TaskNumber;

// For each task number, 0 to the highest, whether the task is marked.
#[derive(Clone, Copy)]
pub struct Marks {
    pub tasks: [bool; Marks::PLACES],
}

impl Marks {
    pub const PLACES: usize = TaskNumber::PLACES + 1;

    // A number that no task has is not marked.
    pub(crate) fn has(self, t: TaskNumber) -> bool
        ensures { result ≡ mark_at self t.0 }
    {
        self.tasks.get(t.0 as usize).copied().unwrap_or(false)
    }
}

pub fn all_marks() -> Marks
    ensures { result ≡ all_marks }
{
    Marks {
        tasks: [true; Marks::PLACES],
    }
}

pub fn no_marks() -> Marks
    ensures { result ≡ no_marks }
{
    Marks {
        tasks: [false; Marks::PLACES],
    }
}

// The marks, after an entry of the task that has control or lacks it. A mark stays.
pub(crate) fn marked(m: Marks, t: TaskNumber, granted: bool) -> Marks
    ensures { result ≡ with_mark m t.0 granted }
{
    let mut r = m;
    let k = t.0 as usize;
    if k < Marks::PLACES {
        r.tasks[k] |= !granted;
    }
    r
}
