// The stored mesh and the selection, in every version. Only this crate and those that read and write for it (`stored_…`) know an offset, a
// width, a stride or a limit.
//
// In memory every number is a u32, a coordinate is its place, and no parent and no child are `NONE`. A mesh is handed on as a layout, which
// says where its two tables stand, and two slices: a base slice and a growth slice. No reader and no writer asks anything of its slices:
// past the end a byte reads as 0, and nothing is written there.
#![tactic(auto)]

ghost use Rattle.std.specs.Prelude.{◌≡◌, ◌≤◌};
ghost use Rattle.stored.specs.Layout.{
  number_width,
  header_width,
  vertex_width,
  record_width,
  edge_at,
  version_of,
  stored_none,
  version1,
  limits,
  kind1,
  in_base,
  in_growth,
  layout_of,
  working,
  numbers_reach,
};

use grid::Place;
use piece::Piece;

// The bytes of a header, a vertex and a record of version 1, and the most that any version has.
const HEADER_WIDTH: usize = 20;

const VERTEX_WIDTH: usize = 10;

const RECORD_WIDTH: usize = 17;

pub const WIDEST_HEADER: usize = 28;

pub const WIDEST_VERTEX: usize = 14;

pub const WIDEST_RECORD: usize = 28;

// "At most 1,024 vertices and 3,072 records."
pub const VERTICES: usize = 1024;

pub const RECORDS: usize = 3072;

// How many bytes so many vertices and so many records have, and with a header: "The largest mesh is 62,484 bytes."
pub const VERTEX_BYTES: usize = VERTICES * VERTEX_WIDTH;

pub const RECORD_BYTES: usize = RECORDS * RECORD_WIDTH;

pub const LARGEST: usize = HEADER_WIDTH + VERTEX_BYTES + RECORD_BYTES;

// To work on: one vertex and two records more, so that a cut that exceeds the limits has room too.
pub const WORKING_VERTICES: usize = VERTICES + 1;

pub const WORKING_VERTEX_BYTES: usize = WORKING_VERTICES * VERTEX_WIDTH;

pub const WORKING_RECORD_BYTES: usize = (RECORDS + 2) * RECORD_WIDTH;

// "the round is 65,535"
pub const LAST_ROUND: u32 = 65535;

// In memory, for no parent and for no child: no vertex and no record of any version has this number.
// Kept: a number and no Option, since `uncut`, `or_none` and the demands' pages speak of `none`, and a record stays plain numbers.
pub const NONE: u32 = 4294967295;

// How none is stored where numbers have two bytes. Where they have four, it is stored as it is.
pub const STORED_NONE: u32 = 65535;

// How many vertices, records and base records there may be at most.
#[derive(Clone, Copy)]
pub struct Limits {
    pub vertices: u32,
    pub records: u32,
    pub base_records: u32,
}

// What an entry's bytes are: whether a vertex or record number has four bytes and not two, and whether a record has a material.
#[derive(Clone, Copy)]
pub struct Format {
    pub wide: bool,
    pub material: bool,
}

// A kind of mesh: what its bytes are, how much there may be, and whether it stands in two buffers and not in one.
#[derive(Clone, Copy)]
pub struct Kind {
    pub format: Format,
    pub limits: Limits,
    pub two: bool,
}

// Where a table's entries of so many bytes each stand: the first `count` from `base` on in the base slice, the others from `grown` on in the
// growth slice; there are `end` in all.
#[derive(Clone, Copy)]
pub struct Table {
    pub width: u32,
    pub count: u32,
    pub end: u32,
    pub base: usize,
    pub grown: usize,
}

#[derive(Clone, Copy)]
pub struct Layout {
    pub format: Format,
    pub vertices: Table,
    pub records: Table,
}

#[derive(Clone, Copy)]
pub struct Header {
    pub job: u32,
    pub round: u32,
    pub base_vertices: u32,
    pub vertices: u32,
    pub base_records: u32,
    pub records: u32,
}

#[derive(Clone, Copy)]
pub struct Vertex {
    pub place: Place,
    pub p: u32,
    pub q: u32,
}

#[derive(Clone, Copy)]
pub struct Record {
    pub piece: Piece,
    pub first_child: u32,
}

// A selection's heading.
#[derive(Clone, Copy)]
pub struct Selection {
    pub job: u32,
    pub round: u32,
    pub count: u32,
}

// How many bytes a vertex or record number has.
pub fn number_width(f: Format) -> usize
    ensures value { result ≡ number_width f }
    ensures upper_bound { result ≤ 4 }
{
    if f.wide { 4 } else { 2 }
}

pub fn header_width(f: Format) -> usize
    ensures value { result ≡ header_width f }
    ensures upper_bound { result ≤ 28 }
{
    12 + number_width(f) * 4
}

pub fn vertex_width(f: Format) -> usize
    ensures value { result ≡ vertex_width f }
    ensures upper_bound { result ≤ 14 }
{
    6 + number_width(f) * 2
}

pub fn record_width(f: Format) -> usize
    ensures value { result ≡ record_width f }
    ensures upper_bound { result ≤ 28 }
{
    number_width(f) * 5 + 7 + usize::from(f.material)
}

// Where a record's fields begin after its corners.
pub fn edge_at(f: Format) -> usize
    ensures value { result ≡ edge_at f }
    ensures upper_bound { result ≤ 16 }
{
    number_width(f) * 4
}

pub fn version_of(f: Format) -> u32
    ensures { result ≡ version_of f }
{
    if f.wide {
        3
    } else if f.material {
        2
    } else {
        1
    }
}

pub fn version_1() -> Format
    ensures { result ≡ version1 }
{
    Format {
        wide: false,
        material: false,
    }
}

pub fn limits_of_version_1() -> Limits
    ensures { result ≡ limits }
{
    Limits {
        vertices: VERTICES as u32,
        records: RECORDS as u32,
        base_records: RECORDS as u32,
    }
}

pub fn kind_1() -> Kind
    ensures { result ≡ kind1 }
{
    Kind {
        format: version_1(),
        limits: limits_of_version_1(),
        two: false,
    }
}

// How none is stored.
pub fn stored_none(f: Format) -> u32
    ensures { result ≡ stored_none f }
{
    if f.wide { NONE } else { STORED_NONE }
}

// Whether the numbers of a kind reach as far as its limits do, with the one vertex and the two records more that a cut can make.
#[tactic(auto, unfolding(crate::specs::Layout::numbers_reach))]
pub fn numbers_reach(k: Kind) -> bool
    ensures { result ≡ numbers_reach k }
{
    let most = k.limits;
    let none = stored_none(k.format) as usize;
    most.vertices as usize + 1 < none && most.records as usize + 2 < none
}

// How many of so many in all, the first of them in the base, stand in the base slice, and how many in the growth slice.
pub fn in_base(two: bool, base: u32, all: u32) -> u32
    ensures { result ≡ in_base two base all }
{
    if two { base } else { all }
}

pub fn in_growth(two: bool, base: u32, all: u32) -> u32
    ensures { result ≡ in_growth two base all }
{
    if two { all.saturating_sub(base) } else { 0 }
}

// Where the tables of a stored mesh with this header stand: after the header all vertices, and all records after them; of a mesh in two
// buffers those of the base, and the others in the same order in the growth slice.
pub fn layout_of(k: Kind, h: Header) -> Layout
    ensures { result ≡ layout_of k h }
{
    let format = k.format;
    let wide = vertex_width(format);
    let first = in_base(k.two, h.base_vertices, h.vertices);
    let vertices = Table {
        width: wide as u32,
        count: first,
        end: h.vertices,
        base: header_width(format),
        grown: 0,
    };
    let records = Table {
        width: record_width(format) as u32,
        count: in_base(k.two, h.base_records, h.records),
        end: h.records,
        base: header_width(format) + wide * (first as usize),
        grown: wide * (in_growth(k.two, h.base_vertices, h.vertices) as usize),
    };
    Layout {
        format,
        vertices,
        records,
    }
}

// Tables to work on, with room for so many vertices, alone in the base slice, and so many records, alone in the growth slice.
pub fn working_layout(format: Format, vertices: u32, records: u32) -> Layout
    ensures { result ≡ working format vertices records }
{
    let wide = vertex_width(format);
    let in_base_slice = Table {
        width: wide as u32,
        count: vertices,
        end: vertices,
        base: 0,
        grown: 0,
    };
    let in_growth_slice = Table {
        width: record_width(format) as u32,
        count: 0,
        end: records,
        base: wide * (vertices as usize),
        grown: 0,
    };
    Layout {
        format,
        vertices: in_base_slice,
        records: in_growth_slice,
    }
}
