// Requests, by the first word of their line.
use crate::word::Words;
use crate::{dpmod, number};
use kinds::{Address, DeqRet, EcbNumber, Request, Ret};

pub(crate) fn read(word: &[u8], words: &mut Words) -> Option<Request> {
    match word {
        b"attach" => attach(words),
        b"detach" => detach(words),
        b"end" => end(words),
        b"abend" => abend(words),
        b"enq" => enq(words),
        b"deq" => deq(words),
        b"wait" => wait(words),
        b"post" => post(words),
        b"clear" => clear(words),
        b"getmain" => getmain(words),
        b"freemain" => freemain(words),
        b"dispatch" => Some(Request::Dispatch),
        _ => None,
    }
}

fn attach(words: &mut Words) -> Option<Request> {
    Some(Request::Attach {
        caller: words.task()?,
        lpmod: words.half()?,
        dpmod: dpmod::read(words.word()?)?,
        ecb: attached(words)?,
    })
}

// An ECB, or `-` for none.
fn attached(words: &mut Words) -> Option<Option<EcbNumber>> {
    match words.word()? {
        b"-" => Some(None),
        word => number::ecb(word).map(Some),
    }
}

fn detach(words: &mut Words) -> Option<Request> {
    Some(Request::Detach {
        caller: words.task()?,
        task: words.task()?,
    })
}

fn end(words: &mut Words) -> Option<Request> {
    Some(Request::End {
        caller: words.task()?,
        code: words.half()?,
    })
}

// `step` may end the line.
fn abend(words: &mut Words) -> Option<Request> {
    Some(Request::Abend {
        caller: words.task()?,
        code: words.half()?,
        step: match words.word() {
            None => false,
            Some(b"step") => true,
            Some(_) => return None,
        },
    })
}

fn enq(words: &mut Words) -> Option<Request> {
    Some(Request::Enq {
        caller: words.task()?,
        ret: match words.word()? {
            b"none" => Ret::None,
            b"test" => Ret::Test,
            b"use" => Ret::Use,
            b"have" => Ret::Have,
            b"chng" => Ret::Chng,
            _ => return None,
        },
    })
}

fn deq(words: &mut Words) -> Option<Request> {
    Some(Request::Deq {
        caller: words.task()?,
        ret: match words.word()? {
            b"none" => DeqRet::None,
            b"have" => DeqRet::Have,
            _ => return None,
        },
    })
}

fn wait(words: &mut Words) -> Option<Request> {
    Some(Request::Wait {
        caller: words.task()?,
        count: words.number()?,
    })
}

fn post(words: &mut Words) -> Option<Request> {
    Some(Request::Post {
        caller: words.task()?,
        ecb: words.ecb()?,
        code: words.number()?,
    })
}

fn clear(words: &mut Words) -> Option<Request> {
    Some(Request::Clear {
        caller: words.task()?,
        ecb: words.ecb()?,
    })
}

// `cond` or `uncond` ends the line.
fn getmain(words: &mut Words) -> Option<Request> {
    Some(Request::Getmain {
        caller: words.task()?,
        length: words.number()?,
        subpool: words.byte()?,
        conditional: match words.word()? {
            b"cond" => true,
            b"uncond" => false,
            _ => return None,
        },
    })
}

fn freemain(words: &mut Words) -> Option<Request> {
    Some(Request::Freemain {
        caller: words.task()?,
        address: Address(words.number()?),
        length: words.number()?,
        subpool: words.byte()?,
    })
}
