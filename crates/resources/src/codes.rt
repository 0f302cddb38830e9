// The codes of ENQ and DEQ: a byte for each name beside a request.
ghost use Rattle.std.specs.Prelude.{◌≡◌, ◌≤◌, length, take};
ghost use Rattle.kinds.specs.Limits.{longest_list};
ghost use Rattle.rules.specs.Codes.{written_on};
ghost use Rattle.rules.specs.Enq.{enq_codes_due};
ghost use Rattle.rules.specs.Deq.{deq_codes_due};
ghost use Rattle.resources.specs.Coding.{code_by};

use kinds::{DeqRet, NameList, Ret};

// Zero past the count.
#[derive(Clone, Copy)]
pub struct Codes {
    pub bytes: [u8; NameList::MOST],
}

// Codes are due of all but NONE.
pub fn enq_codes_due(ret: Ret) -> bool
    ensures { result ≡ enq_codes_due ret }
{
    !matches!(ret, Ret::None)
}

pub fn deq_codes_due(ret: DeqRet) -> bool
    ensures { result ≡ deq_codes_due ret }
{
    matches!(ret, DeqRet::Have)
}

// The code of one name: 8 where the caller has an entry and is to have none, or the other way round; else 0 where no
// other task is in the way, and 4.
pub(crate) fn code(has: bool, wanted: bool, clear: bool) -> u8
    ensures { result ≡ code_by has wanted clear }
{
    if has != wanted {
        8
    } else if clear {
        0
    } else {
        4
    }
}

// The first n codes, at the front of the area and nowhere else.
#[tactic(auto, using(laws::specs::Written::written_all))]
pub fn write(k: Codes, n: u32, area: &mut [u8])
    requires { (n ≤ longest_list) × (n ≤ length area.old) }
    ensures { area.new ≡ written_on (take n k.bytes) area.old }
{
    let n = n as usize;
    area[..n].copy_from_slice(&k.bytes[..n]);
}
