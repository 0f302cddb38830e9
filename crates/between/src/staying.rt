// What stays of a packed table.
ghost use Rattle.std.specs.Prelude.{◌≡◌, Bool, ◌≤◌, length};
ghost use Rattle.between.specs.Staying.{Staying};

// Of the rows of a table, those that stay go to the front of `kept`, in their order. How many they are.
pub(crate) fn staying<T: Copy, F: Fn(&T) -> bool>(rows: &[T], kept: &mut [T], stays: F) -> usize
    requires room { length rows.now ≤ length kept.old }
    requires callable { F.IsAlwaysCallable stays }
    ensures { (p : T → Bool) → ((x : _) (b : Bool) → F.post stays x b → b ≡ p x.now)
        → Staying p rows.now kept.old kept.new result }
{
    let mut n = 0;
    for x in rows {
        if stays(x) {
            kept[n] = *x;
            n += 1;
        }
    }
    n
}
