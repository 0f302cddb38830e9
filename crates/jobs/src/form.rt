// What a line asks for, by its first word. A list, and the length of a codes area before it, are left in the words.
use crate::shows::{Report, Shows};
use crate::sizes::MOST_ROOM;
use crate::turn::What;
use crate::word::Words;
use crate::{poke_form, request};

pub(crate) fn read(words: &mut Words) -> Option<What> {
    match words.word()? {
        b"poke" => poke_form::read(words),
        b"fresh" => Some(What::Fresh {
            limit: words.half()?,
            dispatching: words.half()?,
        }),
        b"dump" => Some(What::Show(Shows::Tables)),
        b"stuck" => report(words, Report::Stuck),
        b"queues" => report(words, Report::Queues),
        word => request::read(word, words).map(What::Request),
    }
}

// A report: the room of its list area.
fn report(words: &mut Words, report: Report) -> Option<What> {
    let room = words.up_to(MOST_ROOM)? as u8;
    Some(What::Show(Shows::Report { report, room }))
}
