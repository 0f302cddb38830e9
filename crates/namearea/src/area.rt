// The name area's struct.
ghost use Rattle.std.specs.Prelude.{◌≡◌, []};
ghost use Rattle.namearea.specs.Areas.{area_of};

// The names in use, each once, packed, in the order of first entries: 8 bytes, a length byte, the minor part. Behind
// the last all is zero.
#[derive(Clone, Copy)]
pub struct NameArea {
    pub bytes: [u8; NameArea::BYTES],
}

impl NameArea {
    pub const BYTES: usize = 16384;

    // No name is in use.
    pub fn empty() -> NameArea
        ensures { result ≡ area_of [] }
    {
        NameArea {
            bytes: [0u8; NameArea::BYTES],
        }
    }
}
