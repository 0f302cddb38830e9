// The names that are new to the name area, behind those in use.
ghost use Rattle.std.specs.Prelude.{◌≡◌, true, ◌+◌, ◌≤◌, length};
ghost use Rattle.lists.specs.Lists.{every};
ghost use Rattle.kinds.specs.Limits.{longest_list, longest_minor, name_area};
ghost use Rattle.rules.specs.Names.{legal, names_of};
ghost use Rattle.names.specs.Named.{resource_of, names_in};
ghost use Rattle.namearea.specs.Spelling.{spelt, size_of, spelling};
ghost use Rattle.namearea.specs.Pointing.{overlaid, new_names};

use crate::points::Points;
use kinds::{Name, NameList};

// A name is spelt at the place: the major part, the minor part's length, the minor part.
fn spell(bytes: &mut [u8], at: usize, name: Name) -> usize
    requires bytes_len { (length bytes.old ≡ name_area) × (name.length ≤ longest_minor) }
    requires name_bound { at + size_of (resource_of name) ≤ name_area }
    ensures bytes_after { bytes.new ≡ overlaid at bytes.old (spelt (resource_of name)) }
    ensures value { result ≡ at + size_of (resource_of name) }
{
    let size = name.length as usize;
    bytes[at..at + 8].copy_from_slice(&name.major);
    bytes[at + 8] = name.length as u8;
    bytes[at + 9..at + (size + 9)].copy_from_slice(&name.minor[..size]);
    at + (size + 9)
}

// Each name that is new is written at the end of those before it.
pub fn append(bytes: &mut [u8], l: NameList, p: Points)
    requires bytes_len { (length bytes.old ≡ name_area) × (l.count ≤ longest_list) }
    requires l_value { every legal (names_of (names_in l)) ≡ true }
    requires l_bound { p.from + length (spelling (new_names p l)) ≤ name_area }
    ensures { bytes.new ≡ overlaid p.from bytes.old (spelling (new_names p l)) }
{
    let mut at = p.from;
    for (i, w) in l.names[..l.count as usize].iter().enumerate() {
        if p.from <= p.list.names[i].name.0 as usize {
            at = spell(bytes, at, w.name);
        }
    }
}
