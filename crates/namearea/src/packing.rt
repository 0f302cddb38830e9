// The names that offsets still show, packed anew.
ghost use Rattle.std.specs.Prelude.{◌≡◌, ◌+◌, ◌≤◌, ◌<◌, length, replicate};
ghost use Rattle.namearea.specs.There.{FirstOf};
ghost use Rattle.namearea.specs.Scanning.{area_for, points_for, names_of};
ghost use Rattle.namearea.specs.Packing.{Clear, Laid};

use crate::scanning::spelt_at;

// The place of the first of n offsets that is o.
fn first_of(ats: &[u16], n: usize, o: u16) -> Option<usize>
    requires { n ≤ length ats.now }
    ensures { FirstOf ats.now n o result }
{
    ats[..n].iter().position(|x| o == *x)
}

// One offset more: where its name stands already, or at the end of the names so far, where it is put.
fn lay(ats: &[u16], i: usize, old: &[u8], to: &mut [u16], new: &mut [u8], at: usize) -> usize
    requires clear { Clear 16384 old.now ats.now × (length old.now ≤ 16384) × (i < length ats.now) }
    requires laid { Laid 16384 old.now ats.now i to.old new.old at }
    ensures { Laid 16384 old.now ats.now (i + 1) to.new new.new result }
{
    let o = ats[i];
    if let Some(j) = first_of(ats, i, o) {
        to[i] = to[j];
        return at;
    }
    let name = spelt_at(old, o as usize);
    let end = at + name.len();
    new[at..end].copy_from_slice(name);
    to[i] = at as u16;
    end
}

// The names that the offsets show, packed anew in the order of first entries, and the offsets that they then have.
pub fn repack(ats: &[u16], old: &[u8], to: &mut [u16], new: &mut [u8])
    requires { Clear 16384 old.now ats.now × (length old.now ≤ 16384)
        × (length to.old ≡ length ats.now) × (new.old ≡ replicate 16384 0) }
    ensures { (to.new ≡ points_for (names_of old.now ats.now))
        × (new.new ≡ area_for 16384 (names_of old.now ats.now)) }
{
    let mut at = 0;
    for i in 0..ats.len() {
        at = lay(ats, i, old, to, new, at);
    }
}
