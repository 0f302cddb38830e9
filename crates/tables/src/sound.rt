// The rules of sound tables, over all of the tables.
ghost use Rattle.std.specs.Prelude.{◌≡◌, ◌≤◌};
ghost use Rattle.lists.specs.Lists.{none};
ghost use Rattle.kinds.specs.Limits.{most_entries, most_areas};
ghost use Rattle.rules.specs.Sound.{sizes_good, sound_tasks, sound_queue, sound_ecbs, sound_areas, over_good, running_good};
ghost use Rattle.queue.specs.Queues.{entries_in};
ghost use Rattle.storage.specs.Stored.{areas_in};
ghost use Rattle.tables.specs.Tables.{step_of, sound_tables};

use crate::AllTables;
use ecbs::EcbTable;
use kinds::Task;
use queue::Queue;
use storage::Storage;
use tasks::TaskTable;

// The rules on the task table alone.
#[tactic(auto, unfolding(rules::specs::Sound::sound_tasks))]
fn tasks_good(f: TaskTable) -> bool
    ensures { result ≡ sound_tasks f.places }
{
    tasks::sound::job_step_good(f)
        && tasks::sound::mothers_good(f)
        && tasks::sound::priorities_good(f)
        && tasks::sound::task_ecbs_good(f)
        && tasks::sound::ended_tasks_good(f)
        && tasks::sound::free_places_good(f)
}

// The rules on entries and resource waits.
#[tactic(auto, unfolding(rules::specs::Sound::sound_queue))]
fn queue_good(q: Queue, f: TaskTable) -> bool
    requires { q.count ≤ most_entries }
    ensures { result ≡ sound_queue f.places (entries_in q) }
{
    queue::queue_fits(q)
        && between::entries::entries_live(q, f)
        && queue::entries_once(q)
        && queue::entry_names_good(q)
        && between::entries::waits_good(q, f)
}

// The rules on ECBs and ECB waits.
#[tactic(auto, unfolding(rules::specs::Sound::sound_ecbs))]
fn ecbs_good(e: EcbTable, f: TaskTable) -> bool
    ensures { result ≡ sound_ecbs f.places e.ecbs }
{
    between::waiters::waiters_good(e, f)
        && between::waiters::needs_good(e, f)
        && ecbs::words_good(e)
}

// The rules on areas.
#[tactic(auto, unfolding(rules::specs::Sound::sound_areas))]
fn areas_good(s: Storage, f: TaskTable) -> bool
    requires { s.count ≤ most_areas }
    ensures { result ≡ sound_areas f.places (areas_in s) }
{
    storage::areas_fit(s)
        && storage::shapes_good(s)
        && between::owners::owners_good(s, f)
        && storage::areas_in_order(s)
}

// How many places there are.
#[tactic(auto, unfolding(rules::specs::Sound::sizes_good))]
fn sizes_good(f: TaskTable, e: EcbTable) -> bool
    ensures { result ≡ sizes_good f.places e.ecbs }
{
    tasks::sound::tasks_fit(f) && ecbs::ecbs_fit(e)
}

#[tactic(auto, using(lists::specs::Arrays::none_taken, lists::specs::Arrays::mapped_length))]
fn no_entry(q: Queue) -> bool
    requires { q.count ≤ most_entries }
    ensures { result ≡ none (entries_in q) }
{
    q.count == 0
}

#[tactic(auto, using(lists::specs::Arrays::none_taken, lists::specs::Arrays::mapped_length))]
fn no_area(s: Storage) -> bool
    requires { s.count ≤ most_areas }
    ensures { result ≡ none (areas_in s) }
{
    s.count == 0
}

// The rules on a step that runs.
#[tactic(auto, unfolding(rules::specs::Sound::running_good))]
fn running_good(t: AllTables) -> bool
    requires { (t.queue.count ≤ most_entries) × (t.storage.count ≤ most_areas) }
    ensures { result ≡ running_good (step_of t) }
{
    sizes_good(t.tasks, t.ecbs)
        && t.code == 0
        && tasks_good(t.tasks)
        && queue_good(t.queue, t.tasks)
        && ecbs_good(t.ecbs, t.tasks)
        && areas_good(t.storage, t.tasks)
}

// "A step that is over has empty tables."
#[tactic(auto, unfolding(rules::specs::Sound::over_good))]
fn over_good(t: AllTables) -> bool
    requires { (t.queue.count ≤ most_entries) × (t.storage.count ≤ most_areas) }
    ensures { result ≡ over_good (step_of t) }
{
    sizes_good(t.tasks, t.ecbs)
        && Task::code_good(t.code)
        && tasks::sound::all_zero(t.tasks)
        && no_entry(t.queue)
        && ecbs::all_zero(t.ecbs)
        && no_area(t.storage)
}

// No rule of sound tables is broken. The packed tests come first:
// the rules speak of the lists that packed tables stand for.
pub fn sound(t: AllTables) -> bool
    ensures { result ≡ sound_tables t }
{
    if !queue::packed(t.queue) {
        return false;
    }
    if !storage::packed(t.storage) {
        return false;
    }
    if t.over {
        return over_good(t);
    }
    running_good(t)
}
