// Writing the table of contents that opens a file, for files of any number of bodies.
ghost use Rattle.std.specs.Prelude.{◌≡◌, ◌++◌, ◌+◌, ◌≤◌, length};
ghost use Rattle.std.proofs.lemmas.List.Edits.{sets};
ghost use Rattle.wire.specs.Bytes.{bytes16, bytes32};
ghost use Rattle.contents.specs.Contents.{contents_bytes};
ghost use Rattle.areas.specs.Tables.{WritableTable, tags_of, lengths_of};

use wire::numbers::{put16, put32};

// A body of a file, as its entry in the table of contents has it.
#[derive(Clone, Copy)]
pub struct Body {
    pub tag: u16,
    pub length: u32,
}

impl Body {
    // Stores the entry of the body, which starts at start; the entry's first byte has index at.
    fn put_entry(self, area: &mut [u8], at: usize, start: u32)
        requires { at + 10 ≤ length area.old }
        ensures { area.new ≡ sets area.old at (bytes16 self.tag ++ (bytes32 start ++ bytes32 self.length)) }
    {
        put16(area, at, self.tag);
        put32(area, at + 2, start);
        put32(area, at + 6, self.length);
    }
}

// Stores the table of contents of these bodies at the front of the area.
pub fn write_contents(area: &mut [u8], bodies: &[Body])
    requires { WritableTable bodies.now (length area.old) }
    ensures { area.new ≡ sets area.old 0 (contents_bytes (tags_of bodies.now) (lengths_of bodies.now)) }
{
    put16(area, 0, bodies.len() as u16);
    let mut start = 2 + 10 * (bodies.len() as u32);
    for (i, body) in bodies.iter().enumerate() {
        body.put_entry(area, 2 + 10 * i, start);
        start += body.length;
    }
}
