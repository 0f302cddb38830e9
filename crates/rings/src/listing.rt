// The list of a report, as it grows item by item, and how it gets to a list area.
ghost use Rattle.std.specs.Prelude.{◌≡◌, [], ◌+◌, ◌<◌, ◌≤◌, length};
ghost use Rattle.kinds.specs.Limits.{most_entries};
ghost use Rattle.rings.specs.Listings.{most_bytes, stored_items, items_in, with_item};
ghost use Rattle.rings.specs.Listings.{report_reply, report_written};

use kinds::{Refusal, Reply, Slot};

// The bytes of the items one after the other, and zero past the count.
#[derive(Clone, Copy)]
pub struct Listing {
    pub bytes: [u8; Listing::BYTES],
    pub count: usize,
    pub items: u8,
}

impl Listing {
    // Two bytes for each entry; a report with three for each task needs fewer.
    pub const BYTES: usize = 2 * Slot::PLACES;

    pub(crate) fn empty() -> Listing
        ensures { result ≡ stored_items (record { items = 0; bytes = [] }) }
    {
        Listing {
            bytes: [0; Listing::BYTES],
            count: 0,
            items: 0,
        }
    }

    // One item more.
    pub(crate) fn push(&mut self, item: &[u8])
        requires { (self.old.count + length item.now ≤ most_bytes) × (self.old.items < most_entries) }
        ensures { self.new ≡ with_item self.old item.now }
    {
        let end = self.count + item.len();
        self.bytes[self.count..end].copy_from_slice(item);
        self.count = end;
        self.items += 1;
    }
}

// The list at the front of the area and nowhere else, or no byte of it where the area is too short.
pub(crate) fn written(l: &Listing, area: &mut [u8]) -> Reply
    requires { l.now.count ≤ most_bytes }
    ensures value { result ≡ report_reply (items_in l.now) (length area.old) }
    ensures area_after { area.new ≡ report_written (items_in l.now) area.old }
{
    let bytes = &l.bytes[..l.count];
    if area.len() < bytes.len() {
        return Reply::Refused(Refusal::ShortArea);
    }
    area[..bytes.len()].copy_from_slice(bytes);
    Reply::Counted(l.items)
}
