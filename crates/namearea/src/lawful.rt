// The names that offsets show are lawful.
ghost use Rattle.std.specs.Prelude.{◌≡◌, true, ◌≤◌, length, take};
ghost use Rattle.lists.specs.Lists.{every};
ghost use Rattle.kinds.specs.Limits.{name_area};
ghost use Rattle.rules.specs.Names.{lawful};
ghost use Rattle.namearea.specs.Spelling.{name_at};
ghost use Rattle.namearea.specs.Scanning.{names_of, fits_at};

use kinds::Name;

// The name at the offset is lawful.
fn lawful_at(bytes: &[u8], o: usize) -> bool
    requires { (length bytes.now ≤ name_area) × (fits_at bytes.now o ≡ true) }
    ensures { result ≡ lawful (name_at bytes.now o) }
{
    Name::minor_good(bytes[o + 8] as u16) && !bytes[o..].starts_with(&Name::SYSTEM)
}

// Every name that the first n offsets show is lawful: its minor part is neither empty nor too long, and it is no
// system name.
pub fn names_lawful(ats: &[u16], n: usize, bytes: &[u8]) -> bool
    requires { (n ≤ length ats.now) × (length bytes.now ≤ name_area)
        × (every (fits_at bytes.now) (take n ats.now) ≡ true) }
    ensures { result ≡ every lawful (names_of bytes.now (take n ats.now)) }
{
    ats[..n].iter().all(|o| lawful_at(bytes, *o as usize))
}
