// The test of the name area, which runs before every request.
ghost use Rattle.std.specs.Prelude.{◌≡◌, true, [], ◌+◌, ◌-◌, ◌≤◌, eqb, length, get_or, take};
ghost use Rattle.lists.specs.Lists.{every, same_bytes};
ghost use Rattle.kinds.specs.Limits.{name_area};
ghost use Rattle.namearea.specs.Firsts.{is_in};
ghost use Rattle.namearea.specs.Spelling.{spelt, name_at};
ghost use Rattle.namearea.specs.Scanning.{names_of, fits_at, scanned};
ghost use Rattle.namearea.specs.Steps.{Walked, next_end};

// A name lies at the offset, within the bytes.
fn fits(bytes: &[u8], o: usize) -> bool
    requires { (length bytes.now ≤ name_area) × (o ≤ name_area) }
    ensures { result ≡ fits_at bytes.now o }
{
    o + 9 <= bytes.len() && o + 9 + bytes[o + 8] as usize <= bytes.len()
}

// The bytes in which the name at the offset is spelt.
pub(crate) fn spelt_at(bytes: &[u8], o: usize) -> &[u8]
    requires { (length bytes.now ≤ name_area) × (fits_at bytes.now o ≡ true) }
    ensures value { result.now ≡ spelt (name_at bytes.now o) }
    ensures size { length result.now ≡ get_or bytes.now (o + 8) 0 + 9 }
    ensures within { o + length result.now ≤ length bytes.now }
{
    let size = bytes[o + 8] as usize + 9;
    &bytes[o..o + size]
}

// The name at the offset is spelt so, with that last byte. It is compared whole only where it has the length and the
// last byte: most names that differ differ there. Names of one kind begin alike, so the first byte comes last.
fn is_spelt(bytes: &[u8], o: usize, name: &[u8], last: u8) -> bool
    requires { (length bytes.now ≤ name_area) × (fits_at bytes.now o ≡ true) × (9 ≤ length name.now)
        × (last ≡ get_or name.now (length name.now - 1) 0) }
    ensures { result ≡ same_bytes name.now (spelt (name_at bytes.now o)) }
{
    let end = name.len() - 1;
    bytes[o + 8] as usize + 8 == end && bytes[o + end] == last && is_same(name, spelt_at(bytes, o))
}

// Two spellings are the same. The last byte but one is looked at first, since names of one kind differ near their
// ends, and the first one last, since they begin alike.
fn is_same(a: &[u8], b: &[u8]) -> bool
    ensures { result ≡ same_bytes a.now b.now }
{
    match (a, b) {
        ([.., v, _], [.., w, _]) => v == w && same_from_second(a, b),
        _ => a == b,
    }
}

fn same_from_second(a: &[u8], b: &[u8]) -> bool
    ensures { result ≡ same_bytes a.now b.now }
{
    match (a, b) {
        ([x, a @ ..], [y, b @ ..]) => a == b && x == y,
        _ => a.len() == b.len(),
    }
}

// One of the first n offsets shows the name that lies at `at`.
fn named_before(ats: &[u16], n: usize, bytes: &[u8], at: usize) -> bool
    requires n_in_bounds { (n ≤ length ats.now) × (length bytes.now ≤ name_area) }
    requires at_value { (fits_at bytes.now at ≡ true) × (every (fits_at bytes.now) (take n ats.now) ≡ true) }
    ensures { result
        ≡ is_in (name_at bytes.now at) (names_of bytes.now (take n ats.now)) }
{
    let sought = spelt_at(bytes, at);
    let last = sought[sought.len() - 1];
    ats[..n]
        .iter()
        .any(|o| is_spelt(bytes, *o as usize, sought, last))
}

// Where the names end after one entry more, which points to o, behind the first i; None if it fails. All earlier
// offsets are below `at`, so that they are searched only for one that is not at the end of the names so far.
fn next_end(ats: &[u16], i: usize, bytes: &[u8], at: usize, o: u16) -> Option<usize>
    requires i_in_bounds { (i ≤ length ats.now) × (length bytes.now ≤ name_area) }
    requires walked { Walked bytes.now (take i ats.now) at }
    ensures { result ≡ next_end bytes.now (take i ats.now) at o }
{
    if o as usize != at {
        return ats[..i].contains(&o).then_some(at);
    }
    if !fits(bytes, at) || named_before(ats, i, bytes, at) {
        return None;
    }
    Some(at + spelt_at(bytes, at).len())
}

// All bytes are zero. The fold has no exit before the end, so that many bytes are taken at once.
fn rest_zero(rest: &[u8]) -> bool
    ensures { result ≡ every (eqb 0) rest.now }
{
    rest.iter().fold(true, |zero, b| zero & (0 == *b))
}

// The area holds exactly the names that the first n offsets show.
pub fn scan(ats: &[u16], n: usize, bytes: &[u8]) -> bool
    requires { (n ≤ length ats.now) × (length bytes.now ≤ 16384) }
    ensures { result ≡ scanned bytes.now [] 0 (take n ats.now) }
{
    let mut at = 0;
    for (i, o) in ats[..n].iter().enumerate() {
        let Some(end) = next_end(ats, i, bytes, at, *o) else {
            return false;
        };
        at = end;
    }
    rest_zero(&bytes[at..])
}
