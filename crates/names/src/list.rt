// The names beside a request, and the tests of 101 and 110.
ghost use Rattle.std.specs.Prelude.{◌≡◌, ◌≤◌};
ghost use Rattle.lists.specs.Lists.{distinct};
ghost use Rattle.kinds.specs.Limits.{longest_list};
ghost use Rattle.rules.specs.Names.{names_good, asks_system};
ghost use Rattle.rules.specs.Enq.{asks_shared};
ghost use Rattle.names.specs.Named.{same_wanted, names_in};

use crate::{is_legal, is_system, same_name};
use kinds::{NameList, Ret, Wanted};

// No name is asked for twice, in whatever modes: each against those behind it.
fn all_once(asked: &[Wanted]) -> bool
    ensures { result ≡ distinct same_wanted asked.now }
{
    let mut left = asked;
    // name by name what is behind it, as `distinct` goes: no method of a slice gives both
    while let Some((v, behind)) = left.split_first() {
        if behind.iter().any(|w| same_name(v.name, w.name)) {
            return false;
        }
        left = behind;
    }
    true
}

// The count first: only with a good one are the names within the array.
#[tactic(auto, using(crate::proofs::Listed::count_few))]
pub fn names_good(l: NameList) -> bool
    ensures { result ≡ names_good (names_in l) }
{
    if !NameList::count_good(l.count) {
        return false;
    }
    let asked = &l.names[..l.count as usize];
    asked.iter().all(|w| is_legal(w.name)) && all_once(asked)
}

// CHNG asks for shared.
pub fn asks_shared(ret: Ret, l: NameList) -> bool
    requires { l.count ≤ longest_list }
    ensures { result ≡ asks_shared ret (names_in l) }
{
    matches!(ret, Ret::Chng) && l.names[..l.count as usize].iter().any(|w| !w.exclusive)
}

// 110: some name is a system name, wherever it stands in the list.
pub fn asks_system(l: NameList) -> bool
    requires { l.count ≤ longest_list }
    ensures { result ≡ asks_system (names_in l) }
{
    l.names[..l.count as usize]
        .iter()
        .any(|w| is_system(w.name))
}
