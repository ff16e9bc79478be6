// Vertices and records written into tables, and whole meshes assembled from tables. Past the end nothing is written.
#![tactic(auto)]

ghost use Rattle.std.specs.Prelude.{◌≡◌, ◌+◌};
ghost use Rattle.std.proofs.lemmas.List.Edits.{sets};
ghost use Rattle.stored.specs.Layout.{
  base_into,
  grown_into,
  header_bytes,
  vertex_bytes,
  record_bytes,
  mesh_length,
  vertex_part,
  record_part,
  assembled,
};

use stored::{Format, Header, Layout, Record, Table, Vertex};

// An entry's bytes, written from the table's beginning and the entry's place on.
#[tactic(auto, using(laws::specs::Lists::sets_out))]
fn put_from(s: &mut [u8], from: usize, at: usize, bytes: &[u8])
    ensures { s.new ≡ sets s.old (from + at) bytes.now }
{
    if from < s.len() && at < s.len() - from {
        slices_written::put(s, from + at, bytes);
    }
}

// Entry i of a table, in the slice that holds it.
// Kept two slices: a struct that holds both for writing would have each function promise as well that it keeps the same two and the layout.
fn put_held(t: Table, base: &mut [u8], grown: &mut [u8], i: usize, bytes: &[u8])
    ensures base_after { base.new ≡ base_into t base.old i bytes.now }
    ensures grown_after { grown.new ≡ grown_into t grown.old i bytes.now }
{
    let wide = t.width as usize;
    if t.end as usize <= i {
        return;
    }
    if i < t.count as usize {
        put_from(base, t.base, wide * i, bytes);
        return;
    }
    put_from(grown, t.grown, wide * (i - t.count as usize), bytes);
}

pub fn put_vertex(l: Layout, base: &mut [u8], grown: &mut [u8], i: usize, v: Vertex)
    ensures base_after { base.new ≡ base_into l.vertices base.old i (vertex_bytes l.format v) }
    ensures grown_after { grown.new ≡ grown_into l.vertices grown.old i (vertex_bytes l.format v) }
{
    let width = stored::vertex_width(l.format);
    let bytes = stored_encoded::vertex_bytes(l.format, v);
    put_held(l.vertices, base, grown, i, &bytes[..width]);
}

pub fn put_record(l: Layout, base: &mut [u8], grown: &mut [u8], i: usize, r: Record)
    ensures base_after { base.new ≡ base_into l.records base.old i (record_bytes l.format r) }
    ensures grown_after { grown.new ≡ grown_into l.records grown.old i (record_bytes l.format r) }
{
    let width = stored::record_width(l.format);
    let bytes = stored_encoded::record_bytes(l.format, r);
    put_held(l.records, base, grown, i, &bytes[..width]);
}

// The header, as many vertices as it says and then as many records, each from the beginning of its own slice.
pub fn put_mesh(format: Format, out: &mut [u8], h: Header, vertices: &[u8], records: &[u8])
    ensures { out.new ≡ sets out.old 0 (assembled format h vertices.now records.now) }
{
    let width = stored::header_width(format);
    let vertex_bytes = stored::vertex_width(format) * (h.vertices as usize);
    let record_bytes = stored::record_width(format) * (h.records as usize);
    let header = stored_encoded::header_bytes(format, h);
    let first = slices::part(vertices, 0, vertex_bytes);
    let then = slices::part(records, 0, record_bytes);
    slices_written::put(out, 0, &header[..width]);
    put_from(out, width, 0, first);
    put_from(out, width, first.len(), then);
}

// A mesh that is written entry by entry: its header, one vertex more behind the header and so many vertices, one record more behind so many
// vertices and so many records.
pub fn put_header(format: Format, out: &mut [u8], h: Header)
    ensures { out.new ≡ sets out.old 0 (header_bytes format h) }
{
    let width = stored::header_width(format);
    let bytes = stored_encoded::header_bytes(format, h);
    slices_written::put(out, 0, &bytes[..width]);
}

pub fn append_vertex(format: Format, out: &mut [u8], vertices: u32, v: Vertex)
    ensures { out.new ≡ sets out.old (mesh_length format vertices 0) (vertex_bytes format v) }
{
    let from = stored::header_width(format);
    let width = stored::vertex_width(format);
    let bytes = stored_encoded::vertex_bytes(format, v);
    put_from(out, from, width * (vertices as usize), &bytes[..width]);
}

pub fn append_record(format: Format, out: &mut [u8], vertices: u32, records: u32, r: Record)
    ensures { out.new ≡ sets out.old (mesh_length format vertices records) (record_bytes format r) }
{
    let from = stored::header_width(format) + stored::vertex_width(format) * (vertices as usize);
    let width = stored::record_width(format);
    let bytes = stored_encoded::record_bytes(format, r);
    put_from(out, from, width * (records as usize), &bytes[..width]);
}

// The vertices and the records of a stored mesh, each copied to the beginning of a slice of its own.
pub fn copy_tables(format: Format, mesh: &[u8], h: Header, base: &mut [u8], grown: &mut [u8])
    ensures base_after { base.new ≡ sets base.old 0 (vertex_part format h mesh.now) }
    ensures grown_after { grown.new ≡ sets grown.old 0 (record_part format h mesh.now) }
{
    let from = stored::header_width(format);
    let vertex_bytes = stored::vertex_width(format) * (h.vertices as usize);
    let record_bytes = stored::record_width(format) * (h.records as usize);
    let vertices = slices::part(mesh, from, vertex_bytes);
    let records = slices::part(mesh, from + vertex_bytes, record_bytes);
    slices_written::put(base, 0, vertices);
    slices_written::put(grown, 0, records);
}
