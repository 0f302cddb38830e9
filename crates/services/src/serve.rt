// One entry point: any tables, any request, any lists, any codes area. Every service goes this way.
ghost use Rattle.std.specs.Prelude.{◌≡◌, true, false, [], length};
ghost use Rattle.kinds.specs.Limits.{name_area};
ghost use Rattle.kinds.specs.Beside.{no_names};
ghost use Rattle.names.specs.Named.{names_in};
ghost use Rattle.names.specs.Pointers.{pointed_in};
ghost use Rattle.ecbs.specs.Blocks.{ecbs_in};
ghost use Rattle.rules.specs.Serve.{service_of};
ghost use Rattle.tables.specs.Bodies.{replied};
ghost use Rattle.tables.specs.Tables.{step_of as all_step_of};
ghost use Rattle.services.specs.Kept.{in_tables, step_of, said, said_with, served_by, answered};
ghost use Rattle.services.specs.Serve.{served_of, caller_in, named_by, entry_of, asks_names, Admits, Behind};
ghost use Rattle.services.specs.Serve.{Settles, served_in};

use crate::naming::{joined, left};
use crate::{Answer, Tables, Upshot, answering, gate, settled};
use events::{clear, post, wait};
use kinds::{
    EcbList, NameList, NameOffset, Pointed, PointedList, Refusal, Reply, Request, TaskNumber,
};
use mainstorage::{freemain, getmain};
use resources::named::{deq_named, enq_named};
use resources::{deq, enq};
use subtasks::{abend, attach, detach, end};
use tables::AllTables;
use tables::made::{Made, goes};

// All but DISPATCH name the calling task.
fn caller_of(request: Request) -> Option<TaskNumber>
    ensures { result ≡ caller_in request }
{
    match request {
        Request::Attach { caller, .. }
        | Request::Detach { caller, .. }
        | Request::End { caller, .. }
        | Request::Abend { caller, .. }
        | Request::Enq { caller, .. }
        | Request::Deq { caller, .. }
        | Request::Wait { caller, .. }
        | Request::Post { caller, .. }
        | Request::Clear { caller, .. }
        | Request::Getmain { caller, .. }
        | Request::Freemain { caller, .. } => Some(caller),
        Request::Dispatch => None,
    }
}

// What the names beside a request say of it. Only ENQ and DEQ look at them.
fn named(request: Request, names: NameList) -> Result<(), Refusal>
    ensures { result ≡ named_by request (names_in names) }
{
    match request {
        Request::Enq { ret, .. } => enq_named(ret, names),
        Request::Deq { .. } => deq_named(names),
        _ => Ok(()),
    }
}

fn asks_names(request: Request) -> bool
    ensures { result ≡ asks_names request }
{
    matches!(request, Request::Enq { .. } | Request::Deq { .. })
}

// The caller's gate, then that of the names.
fn entry(t: AllTables, area: &[u8], request: Request, names: NameList) -> Result<(), Refusal>
    requires { length area.now ≡ name_area }
    ensures { result ≡ entry_of (in_tables t area.now) request (names_in names) }
{
    gate(t, area, caller_of(request))?;
    named(request, names)
}

// The body of the service that the request names, behind open gates, with offsets for names.
// Only ENQ and DEQ look at the names and the codes area, only WAIT at the ECBs.
fn served(
    t: AllTables,
    request: Request,
    names: PointedList,
    ecbs: EcbList,
    codes: &mut [u8],
) -> Made
    requires { Behind t request (pointed_in names) }
    ensures { Settles t (pointed_in names) (ecbs_in ecbs) codes.old result codes.new request }
{
    match request {
        Request::Attach {
            caller,
            lpmod,
            dpmod,
            ecb,
        } => attach::served(t, caller, lpmod, dpmod, ecb),
        Request::Detach { caller, task } => detach::served(t, caller, task),
        Request::End { caller, code } => end::served(t, caller, code),
        Request::Abend { caller, code, step } => abend::served(t, caller, code, step),
        Request::Enq { caller, ret } => enq::served(t, caller, ret, names, codes),
        Request::Deq { caller, ret } => deq::served(t, caller, ret, names, codes),
        Request::Wait { caller, count } => wait::served(t, caller, ecbs, count),
        Request::Post { ecb, code, .. } => post::served(t, ecb, code),
        Request::Clear { ecb, .. } => clear::served(t, ecb),
        Request::Getmain {
            caller,
            length,
            subpool,
            conditional,
        } => getmain::served(t, caller, length, subpool, conditional),
        Request::Freemain {
            caller,
            address,
            length,
            subpool,
        } => freemain::served(t, caller, address, length, subpool),
        Request::Dispatch => {
            let n = tasks::choice::dispatched(t.tasks);
            goes(Reply::Dispatched(n), t)
        }
    }
}

// The body, and what its verdict comes to.
#[tactic(auto, using(crate::proofs::Glue::settles_comes))]
fn worked(
    t: AllTables,
    request: Request,
    names: PointedList,
    ecbs: EcbList,
    codes: &mut [u8],
) -> Upshot
    requires { Behind t request (pointed_in names) }
    ensures { record { outcome = replied result.reply result.tables; codes = codes.new }
        ≡ served_in (service_of (all_step_of t) request (pointed_in names) (ecbs_in ecbs) codes.old) }
{
    settled(caller_of(request), served(t, request, names, ecbs, codes))
}

// No names stand beside the request.
fn no_names() -> PointedList
    ensures { pointed_in result ≡ record { count = 0; asks = [] } }
{
    let unused = Pointed {
        exclusive: false,
        name: NameOffset(0),
    };
    PointedList {
        count: 0,
        names: [unused; NameList::MOST],
    }
}

impl Tables {
    // A request that has no names: names can only leave.
    fn unnamed(self, request: Request, names: NameList, ecbs: EcbList, codes: &mut [u8]) -> Answer
        requires { Admits self request (names_in names) × (asks_names request ≡ false) }
        ensures { said_with result codes.new
            ≡ served_by (service_of (step_of self) request (names_in names) (ecbs_in ecbs) codes.old) }
    {
        let k = worked(self.all, request, no_names(), ecbs, codes);
        answering(left(self.all.queue, k.tables, self.names), k.reply)
    }

    // ENQ and DEQ: the names are looked up first, and those that entries are new for stand behind the others.
    fn with_names(
        self,
        request: Request,
        names: NameList,
        ecbs: EcbList,
        codes: &mut [u8],
    ) -> Answer
        requires { Admits self request (names_in names) × (asks_names request ≡ true) }
        ensures { said_with result codes.new
            ≡ served_by (service_of (step_of self) request (names_in names) (ecbs_in ecbs) codes.old) }
    {
        let at = queue::offsets::offsets_of(self.all.queue);
        let p = namearea::points::points_of(&at.of, self.all.queue.count, &self.names.bytes, names);
        let k = worked(self.all, request, p.list, ecbs, codes);
        if self.all.queue.count < k.tables.queue.count {
            return answering(joined(k.tables, self.names, names, p), k.reply);
        }
        answering(left(self.all.queue, k.tables, self.names), k.reply)
    }

    // 100, the gates, the service, its verdict, the names.
    #[tactic(auto, using(crate::proofs::Glue::entry_admits, crate::proofs::Glue::serve_open))]
    pub fn serve(self, request: Request, names: NameList, ecbs: EcbList, codes: &mut [u8]) -> Answer
        ensures { said_with result codes.new
            ≡ served_of self (record {
              request = request;
              names = names_in names;
              ecbs = ecbs_in ecbs;
              area = codes.old;
            }) }
    {
        match entry(self.all, &self.names.bytes, request, names) {
            Err(why) => answering(self, Reply::Refused(why)),
            Ok(()) if asks_names(request) => self.with_names(request, names, ecbs, codes),
            Ok(()) => self.unnamed(request, names, ecbs, codes),
        }
    }

    // A request without names and codes.
    pub(crate) fn plain(self, request: Request, ecbs: EcbList) -> Answer
        ensures { said result
            ≡ answered self (λ s. (service_of s request (names_in no_names) (ecbs_in ecbs) []).outcome) }
    {
        self.serve(request, NameList::none(), ecbs, &mut [])
    }
}
