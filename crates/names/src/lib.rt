// Names as bytes: what a name's struct shows, and the tests of it.
#![tactic(auto)]

pub mod list;

ghost use Rattle.std.specs.Prelude.{◌≡◌, min};
ghost use Rattle.kinds.specs.Limits.{longest_minor};
ghost use Rattle.rules.specs.Names.{same_name, legal, is_system};
ghost use Rattle.names.specs.Named.{resource_of};

use kinds::Name;

// How many bytes of the array stand for a minor part of that length.
fn used(length: u16) -> usize
    ensures { result ≡ min length longest_minor }
{
    Name::LONGEST.min(length as usize)
}

// Lengths first, then the minor parts: most names that differ differ there.
pub fn same_name(a: Name, b: Name) -> bool
    ensures { result ≡ same_name (resource_of a) (resource_of b) }
{
    let n = used(a.length);
    a.length == b.length
        && lists::same_bytes(&a.minor[..n], &b.minor[..n])
        && lists::same_bytes(&a.major, &b.major)
}

// The major part is as long as its array, so only the minor part's length is to be tested.
pub fn is_legal(n: Name) -> bool
    ensures { result ≡ legal (resource_of n) }
{
    Name::minor_good(n.length)
}

// The major part begins as the system's own do.
pub fn is_system(n: Name) -> bool
    ensures { result ≡ is_system (resource_of n) }
{
    n.major.starts_with(&Name::SYSTEM)
}
