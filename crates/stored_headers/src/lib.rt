// A stored mesh's header, and its length.
#![tactic(auto, unfolding(stored::specs::Layout::marked, stored::specs::Layout::right_mark, stored::specs::Layout::header_from, stored::specs::Layout::right_length))]

ghost use Rattle.std.specs.Prelude.{◌≡◌, ◌+◌, ◌*◌, ◌<◌};
ghost use Rattle.stored.specs.Layout.{
  number_at,
  vertex_width,
  record_width,
  marked,
  right_mark,
  header_from,
  round_after,
  next_round,
  mesh_length,
  base_length,
  grown_length,
  right_length,
};

use stored::{Format, Header, Kind};

// Whether the first bytes are `TM`, this letter and this version: a mesh's mark, and a selection's.
pub fn marked_with(s: &[u8], letter: u8, version: u32) -> bool
    ensures { result ≡ marked letter version s.now }
{
    slices::byte(s, 0) == b'T'
        && slices::byte(s, 1) == b'M'
        && slices::byte(s, 2) == letter
        && slices::two(s, 3) == version
}

pub fn right_mark(format: Format, mesh: &[u8]) -> bool
    ensures { result ≡ right_mark format mesh.now }
{
    marked_with(mesh, b'B', stored::version_of(format))
        && slices::byte(mesh, 11 + stored::number_width(format) * 4) == 0
}

// A vertex or record number.
pub fn number_at(format: Format, s: &[u8], at: usize) -> u32
    ensures { result ≡ number_at format s.now at }
{
    if format.wide {
        slices::four(s, at)
    } else {
        slices::two(s, at)
    }
}

pub fn header_from(format: Format, mesh: &[u8]) -> Header
    ensures { result ≡ header_from format mesh.now }
{
    let wide = stored::number_width(format);
    Header {
        job: slices::four(mesh, 5),
        round: slices::two(mesh, 9),
        base_vertices: number_at(format, mesh, 11),
        vertices: number_at(format, mesh, 11 + wide),
        base_records: number_at(format, mesh, 11 + wide * 2),
        records: number_at(format, mesh, 11 + wide * 3),
    }
}

fn round_after(round: u32) -> u32
    ensures { result ≡ round_after round }
{
    if round < stored::LAST_ROUND {
        round + 1
    } else {
        0
    }
}

// "The round rises by 1."
pub fn next_round(h: Header) -> Header
    ensures { result ≡ next_round h }
{
    Header {
        round: round_after(h.round),
        ..h
    }
}

// The bytes of so many vertices and so many records.
fn tables_length(format: Format, vertices: u32, records: u32) -> usize
    ensures value { result ≡ vertex_width format * vertices + record_width format * records }
    ensures upper_bound { result < 18446744073709551000 }
{
    stored::vertex_width(format) * (vertices as usize)
        + stored::record_width(format) * (records as usize)
}

pub fn mesh_length(format: Format, vertices: u32, records: u32) -> usize
    ensures { result ≡ mesh_length format vertices records }
{
    stored::header_width(format) + tables_length(format, vertices, records)
}

pub fn base_length(k: Kind, h: Header) -> usize
    ensures { result ≡ base_length k h }
{
    let vertices = stored::in_base(k.two, h.base_vertices, h.vertices);
    let records = stored::in_base(k.two, h.base_records, h.records);
    mesh_length(k.format, vertices, records)
}

pub fn grown_length(k: Kind, h: Header) -> usize
    ensures { result ≡ grown_length k h }
{
    let vertices = stored::in_growth(k.two, h.base_vertices, h.vertices);
    let records = stored::in_growth(k.two, h.base_records, h.records);
    tables_length(k.format, vertices, records)
}

pub fn right_length<'a>(k: Kind, base: &'a [u8], grown: &'a [u8]) -> bool
    ensures { result ≡ right_length k base.now grown.now }
{
    if base.len() < stored::header_width(k.format) {
        return false;
    }
    let h = header_from(k.format, base);
    grown.len() == grown_length(k, h) && base.len() == base_length(k, h)
}
