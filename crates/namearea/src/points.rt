// Where the names beside a request lie in the name area, and where those that are new to it come to lie.
ghost use Rattle.std.specs.Prelude.{◌≡◌, true, ◌≤◌, length};
ghost use Rattle.kinds.specs.Limits.{longest_minor, name_area};
ghost use Rattle.rules.specs.Names.{firsts, names_good};
ghost use Rattle.names.specs.Named.{resource_of, names_in};
ghost use Rattle.namearea.specs.Spelling.{needed};
ghost use Rattle.namearea.specs.Scanning.{fits_at};
ghost use Rattle.namearea.specs.Pointing.{InUse, shown_by, place_of, at_shows, stand_of, points_to};

use crate::scanning::spelt_at;
use kinds::{Name, NameList, NameOffset, Pointed, PointedList};

// The offsets of a list's names. The names in use end at `from`, and with the list's at `end`.
#[derive(Clone, Copy)]
pub struct Points {
    pub list: PointedList,
    pub from: usize,
    pub end: usize,
}

// The name at the offset is this one. Lengths first, then the minor parts: most names that differ differ there.
fn shows(bytes: &[u8], at: usize, name: &Name) -> bool
    requires bytes_len_bound { (length bytes.now ≤ name_area) × (fits_at bytes.now at ≡ true) }
    requires length_le_longest_minor { name.now.length ≤ longest_minor }
    ensures { result ≡ at_shows bytes.now at name.now.major name.now.minor name.now.length }
{
    let size = name.length as usize;
    let there = spelt_at(bytes, at);
    there.len() == size + 9
        && lists::same_bytes(&there[9..], &name.minor[..size])
        && lists::same_bytes(&there[..8], &name.major)
}

// Where the name lies if it is in use, in one pass: an offset at the end of the names so far shows a new one, and any
// other a name that was passed. The end runs along, so these are loops and no chains. That `n` stands beside the
// offsets, and they are not cut to it, is the contract of `points_of` (docs/PROMISES).
fn find(ats: &[u16], n: usize, bytes: &[u8], name: Name) -> Option<usize>
    requires in_use { InUse ats.now n bytes.now }
    requires length_le_longest_minor { name.length ≤ longest_minor }
    ensures { result ≡ place_of (shown_by ats.now n bytes.now) (resource_of name) }
{
    let mut at = 0;
    for o in &ats[..n] {
        if *o as usize == at {
            if shows(bytes, at, &name) {
                return Some(at);
            }
            at += spelt_at(bytes, at).len();
        }
    }
    None
}

// Where the names in use end.
fn names_end(ats: &[u16], n: usize, bytes: &[u8]) -> usize
    requires { InUse ats.now n bytes.now }
    ensures value { result ≡ needed (firsts (shown_by ats.now n bytes.now)) }
    ensures upper_bound { result ≤ length bytes.now }
{
    let mut at = 0;
    for o in &ats[..n] {
        if *o as usize == at {
            at += spelt_at(bytes, at).len();
        }
    }
    at
}

// Where a name of a list lies, and where the names end with it. The names of a list differ from each other: one that
// is not in use is new, and comes to the end so far.
fn settle(p: Option<usize>, end: usize, length: u16) -> (usize, usize)
    requires { (end ≤ 65535) × (length ≤ longest_minor) }
    ensures { result ≡ stand_of p end length }
{
    match p {
        Some(at) => (at, end),
        None => (end, end + (length as usize + 9)),
    }
}

// The offset of each name beside a request; a name that is not in use gets the place that it would come to.
#[tactic(auto, using(names::proofs::Listed::good_count))]
pub fn points_of(ats: &[u16], n: usize, bytes: &[u8], l: NameList) -> Points
    requires in_use { InUse ats.now n bytes.now }
    requires l_value { names_good (names_in l) ≡ true }
    ensures { result ≡ points_to (shown_by ats.now n bytes.now) l }
{
    let unused = Pointed {
        exclusive: false,
        name: NameOffset(0),
    };
    let mut names = [unused; NameList::MOST];
    let from = names_end(ats, n, bytes);
    let mut end = from;
    for (i, w) in l.names[..l.count as usize].iter().enumerate() {
        let (at, then) = settle(find(ats, n, bytes, w.name), end, w.name.length);
        names[i] = Pointed {
            exclusive: w.exclusive,
            name: NameOffset(at as u16),
        };
        end = then;
    }
    Points {
        list: PointedList {
            count: l.count,
            names,
        },
        from,
        end,
    }
}
