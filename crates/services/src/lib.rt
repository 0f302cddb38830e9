// The tables of a step with the services as methods, a file each; the one gate, and what a verdict comes to.
#![tactic(auto)]

pub mod abend;
pub mod attach;
pub mod clear;
pub mod deq;
pub mod detach;
pub mod dispatch;
pub mod end;
pub mod enq;
pub mod freemain;
pub mod fresh;
pub mod getmain;
mod naming;
pub mod post;
pub mod queues;
pub mod serve;
pub mod stuck;
pub mod wait;

ghost use Rattle.std.specs.Prelude.{◌≡◌, length};
ghost use Rattle.kinds.specs.Limits.{name_area};
ghost use Rattle.rules.specs.Admission.{admitted};
ghost use Rattle.tables.specs.Bodies.{replied, told};
ghost use Rattle.services.specs.Kept.{in_tables, said, soundb};
ghost use Rattle.services.specs.Serve.{gated, gate_for, Ends, ended_by, settled_as, EndsIfFailed};

use kinds::{Fault, No, Refusal, Reply, TaskNumber};
use namearea::NameArea;
use tables::AllTables;
use tables::made::Made;

// All tables, in which an entry points to its name, and the names that are in use.
#[derive(Clone, Copy)]
pub struct Tables {
    pub all: AllTables,
    pub names: NameArea,
}

#[derive(Clone, Copy)]
pub struct Answer {
    pub tables: Tables,
    pub reply: Reply,
}

// What a verdict comes to, before the names that it leaves are packed.
#[derive(Clone, Copy)]
struct Upshot {
    tables: AllTables,
    reply: Reply,
}

impl Tables {
    // No rule of sound tables is broken.
    pub fn sound(self) -> bool
        ensures { result ≡ soundb self }
    {
        is_sound(self.all, &self.names.bytes)
    }
}

// The rules, with offsets for names; then that the area holds what the offsets show and nothing else; then the rules
// on the names themselves.
fn is_sound(t: AllTables, names: &[u8]) -> bool
    requires { length names.now ≡ name_area }
    ensures { result ≡ soundb (in_tables t names.now) }
{
    if !tables::sound::sound(t) {
        return false;
    }
    let at = queue::offsets::offsets_of(t.queue);
    let n = t.queue.count;
    namearea::scan(&at.of, n, names) && namearea::lawful::names_lawful(&at.of, n, names)
}

// 108, 102 and 103, in the paper's order.
#[tactic(auto, unfolding(rules::specs::Admission::admitted, lists::specs::Pick::pick))]
fn admit(over: bool, live: bool, waits: bool) -> Result<(), Refusal>
    ensures { result ≡ admitted over live waits }
{
    if over {
        return Err(Refusal::StepOver);
    }
    if !live {
        return Err(Refusal::NotLive);
    }
    if waits {
        return Err(Refusal::Waits);
    }
    Ok(())
}

// The one gate: 100, then 108, and of the calling task 102 and 103. DISPATCH and the reports name none.
fn gate(t: AllTables, names: &[u8], who: Option<TaskNumber>) -> Result<(), Refusal>
    requires { length names.now ≡ name_area }
    ensures { result ≡ gated (in_tables t names.now) (gate_for who) }
{
    if !is_sound(t, names) {
        return Err(Refusal::Unsound);
    }
    match who {
        None => admit(t.over, true, false),
        Some(caller) => {
            let condition = tasks::at(t.tasks, caller).condition;
            admit(t.over, condition.is_live(), condition.waits())
        }
    }
}

fn answering(t: Tables, reply: Reply) -> Answer
    ensures { said result ≡ replied reply t }
{
    Answer { tables: t, reply }
}

// A program error ends its caller, with its number. Only a caller's request can fail, so there is one.
fn ended_by(t: AllTables, who: Option<TaskNumber>, what: Fault) -> AllTables
    requires { Ends t who }
    ensures { result ≡ ended_by what t who }
{
    match who {
        None => t,
        Some(caller) => tables::ending::ended(t, caller, what.number()),
    }
}

fn replying(t: AllTables, reply: Reply) -> Upshot
    ensures { replied result.reply result.tables ≡ replied reply t }
{
    Upshot { tables: t, reply }
}

// What the verdict of a service comes to: only where it is to go on does the service's own answer stand. A body that
// does not go on leaves the tables as it got them.
#[tactic(auto, unfolding(crate::specs::Serve::settled_as, tables::specs::Bodies::told))]
fn settled(who: Option<TaskNumber>, k: Made) -> Upshot
    requires { EndsIfFailed k who }
    ensures { replied result.reply result.tables ≡ settled_as (told k) who }
{
    match k.verdict {
        Ok(()) => replying(k.tables, k.reply),
        Err(No::Refuse(why)) => replying(k.tables, Reply::Refused(why)),
        Err(No::Fail(what)) => replying(ended_by(k.tables, who, what), Reply::Failed(what)),
    }
}
