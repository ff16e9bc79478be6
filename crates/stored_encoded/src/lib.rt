// The bytes of a header, a vertex and a record of any format, each in an array with room for the widest. What stands past the width means nothing.
#![tactic(auto)]

ghost use Rattle.std.specs.Prelude.{◌≡◌, ◌+◌, ◌≤◌, length, take};
ghost use Rattle.std.proofs.lemmas.List.Edits.{sets};
ghost use Rattle.stored.specs.Layout.{
  u32_bytes,
  stored_or_none,
  header_width,
  header_bytes,
  vertex_width,
  vertex_bytes,
  record_width,
  record_bytes,
};

use stored::{Format, Header, Record, Vertex};

// A number's four bytes, whatever its width: what is put after it stands over those that it doesn't have.
fn put(bytes: &mut [u8], at: usize, n: u32)
    requires { at + 4 ≤ length bytes.old }
    ensures { bytes.new ≡ sets bytes.old at (u32_bytes n) }
{
    let [first, second, third, fourth] = n.to_le_bytes();
    bytes[at] = first;
    bytes[at + 1] = second;
    bytes[at + 2] = third;
    bytes[at + 3] = fourth;
}

pub fn header_bytes(format: Format, h: Header) -> [u8; stored::WIDEST_HEADER]
    ensures { take (header_width format) result ≡ header_bytes format h }
{
    let wide = stored::number_width(format);
    let mut bytes = [0; stored::WIDEST_HEADER];
    bytes[0] = b'T';
    bytes[1] = b'M';
    bytes[2] = b'B';
    put(&mut bytes, 3, stored::version_of(format));
    put(&mut bytes, 5, h.job);
    put(&mut bytes, 9, h.round);
    put(&mut bytes, 11, h.base_vertices);
    put(&mut bytes, 11 + wide, h.vertices);
    put(&mut bytes, 11 + wide * 2, h.base_records);
    put(&mut bytes, 11 + wide * 3, h.records);
    bytes[11 + wide * 4] = 0;
    bytes
}

// How a vertex or record number, which may be none, is stored.
#[tactic(auto, unfolding(stored::specs::Layout::stored_or_none))]
fn stored_or_none(format: Format, n: u32) -> u32
    ensures { result ≡ stored_or_none format n }
{
    if n == stored::NONE {
        stored::stored_none(format)
    } else {
        n
    }
}

pub fn vertex_bytes(format: Format, v: Vertex) -> [u8; stored::WIDEST_VERTEX]
    ensures { take (vertex_width format) result ≡ vertex_bytes format v }
{
    let mut bytes = [0; stored::WIDEST_VERTEX];
    put(&mut bytes, 0, (u32::from(v.place.x) + grid::SHIFT) % 65536);
    put(&mut bytes, 2, (u32::from(v.place.y) + grid::SHIFT) % 65536);
    put(&mut bytes, 4, (u32::from(v.place.z) + grid::SHIFT) % 65536);
    put(&mut bytes, 6, stored_or_none(format, v.p));
    put(
        &mut bytes,
        6 + stored::number_width(format),
        stored_or_none(format, v.q),
    );
    bytes
}

pub fn record_bytes(format: Format, r: Record) -> [u8; stored::WIDEST_RECORD]
    ensures { take (record_width format) result ≡ record_bytes format r }
{
    let wide = stored::number_width(format);
    let at = stored::edge_at(format);
    let mut bytes = [0; stored::WIDEST_RECORD];
    put(&mut bytes, 0, stored_or_none(format, r.piece.corners[0]));
    put(&mut bytes, wide, stored_or_none(format, r.piece.corners[1]));
    put(
        &mut bytes,
        wide * 2,
        stored_or_none(format, r.piece.corners[2]),
    );
    put(
        &mut bytes,
        wide * 3,
        stored_or_none(format, r.piece.corners[3]),
    );
    bytes[at] = r.piece.edge;
    bytes[at + 1] = r.piece.marks[0];
    bytes[at + 2] = r.piece.marks[1];
    bytes[at + 3] = r.piece.marks[2];
    bytes[at + 4] = r.piece.marks[3];
    bytes[at + 5] = r.piece.flag;
    bytes[at + 6] = r.piece.generation;
    put(&mut bytes, at + 7, stored_or_none(format, r.first_child));
    bytes[at + 7 + wide] = r.piece.material;
    bytes
}
