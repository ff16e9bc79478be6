// The vertices and records of a mesh's tables in every format, read one by one: whole, or one field alone.
#![tactic(auto, using(laws::specs::Numbers::number_two), unfolding(stored::specs::Layout::or_none, stored::specs::Layout::vertex_from, stored::specs::Layout::record_from, stored::specs::Layout::vertex_in, stored::specs::Layout::record_in))]

ghost use Rattle.std.specs.Prelude.{◌≡◌, ◌+◌, ◌*◌, ◌≤◌, ◌<◌, [], ◌∷◌, length, get_or, take, drop};
ghost use Rattle.piece.specs.Shape.{shape_of, mark};
ghost use Rattle.piece.specs.Ends.{corner_at};
ghost use Rattle.stored.specs.Layout.{
  version1,
  byte_at,
  u16_at,
  u32_at,
  number_width,
  number_at,
  vertex_width,
  record_width,
  place_of,
  or_none,
  held_in,
  vertex_from,
  parents_of,
  edge_at,
  corners_from,
  marks_from,
  material_from,
  record_from,
};
ghost use Rattle.stored_entries.specs.Mesh.{vertex_read, record_read};

use grid::Place;
use piece::{Ends, Piece};
use stored::{Format, Header, Layout, Record, Table, Vertex};

// Entry i of the entries of one width that begin at from, as far as it is there.
fn entry_from(s: &[u8], from: usize, wide: usize, i: usize) -> &[u8]
    requires { (wide < 4294967296) × (i < 4294967295) }
    ensures { result.now ≡ take wide (drop (wide * i) (drop from s.now)) }
{
    if s.len() < from {
        return &s[..0];
    }
    let table = &s[from..];
    let at = wide * i;
    let to = at + wide;
    if to <= table.len() {
        return &table[at..to];
    }
    slices::after(table, at)
}

// The part of the base slice or of the growth slice that holds entry i, chosen by its number against the count; past the end nothing.
pub fn held<'a>(t: Table, base: &'a [u8], grown: &'a [u8], i: usize) -> &'a [u8]
    ensures { result.now ≡ held_in t base.now grown.now i }
{
    if t.end as usize <= i {
        return &base[..0];
    }
    if i < t.count as usize {
        return entry_from(base, t.base, t.width as usize, i);
    }
    let j = i - t.count as usize;
    entry_from(grown, t.grown, t.width as usize, j)
}

// The number of two bytes that are there, with no test.
fn two_of(s: &[u8], at: usize) -> u32
    requires { at + 1 < length s.now }
    ensures value { result ≡ u16_at s.now at }
    ensures upper_bound { result < 65536 }
{
    slices::pair(s[at], s[at + 1])
}

// That of four bytes that are there.
fn four_of(s: &[u8], at: usize) -> u32
    requires { at + 3 < length s.now }
    ensures { result ≡ u32_at s.now at }
{
    u32::from_le_bytes([s[at], s[at + 1], s[at + 2], s[at + 3]])
}

// A coordinate, as its place.
fn place_of(n: u32) -> u16
    requires { n < 65536 }
    ensures { result ≡ place_of n }
{
    ((n + grid::SHIFT) % 65536) as u16
}

fn place(s: &[u8], at: usize) -> u16
    ensures { result ≡ place_of (u16_at s.now at) }
{
    place_of(slices::two(s, at))
}

// A vertex or record number of two bytes, which may be none.
fn or_none(n: u32) -> u32
    ensures { result ≡ or_none version1 n }
{
    if n == stored::STORED_NONE {
        stored::NONE
    } else {
        n
    }
}

// Where a vertex stands, in every format alike, whose bytes may end early: coordinate by coordinate.
// Kept: here and below what may end early has one reader and what is all there another, for speed: an entry's length is tested once
// (docs/requests/14-quicker-closing.md).
fn short_place(entry: &[u8]) -> Place
    ensures { result ≡ (vertex_from version1 entry.now).place }
{
    Place {
        x: place(entry, 0),
        y: place(entry, 2),
        z: place(entry, 4),
    }
}

// The same where the three coordinates are all there.
fn whole_place(entry: &[u8]) -> Place
    requires { 6 ≤ length entry.now }
    ensures { result ≡ (vertex_from version1 entry.now).place }
{
    Place {
        x: place_of(two_of(entry, 0)),
        y: place_of(two_of(entry, 2)),
        z: place_of(two_of(entry, 4)),
    }
}

fn place_from(entry: &[u8]) -> Place
    ensures { result ≡ (vertex_from version1 entry.now).place }
{
    if entry.len() < 6 {
        return short_place(entry);
    }
    whole_place(entry)
}

// Corners of two bytes each that are all there.
fn narrow_corners(entry: &[u8]) -> [u32; 4]
    requires { 8 ≤ length entry.now }
    ensures { result ≡ corners_from version1 entry.now }
{
    [
        or_none(two_of(entry, 0)),
        or_none(two_of(entry, 2)),
        or_none(two_of(entry, 4)),
        or_none(two_of(entry, 6)),
    ]
}

// Corners of four bytes each that are all there, as they are.
fn wide_corners(entry: &[u8]) -> [u32; 4]
    requires { 16 ≤ length entry.now }
    ensures { result ≡ u32_at entry.now 0 ∷ u32_at entry.now 4 ∷ u32_at entry.now 8 ∷ u32_at entry.now 12 ∷ [] }
{
    [
        four_of(entry, 0),
        four_of(entry, 4),
        four_of(entry, 8),
        four_of(entry, 12),
    ]
}

// The bytes of a vertex or of a record, as far as they are there, and the format that they are read in.
#[derive(Clone, Copy)]
struct Entry<'a> {
    format: Format,
    bytes: &'a [u8],
}

impl<'a> Entry<'a> {
    // A vertex or record number of the format: of four bytes it is read as it is, none or not.
    fn number_or_none(&self, at: usize) -> u32
        ensures { result ≡ or_none self.now.format (number_at self.now.format self.now.bytes.now at) }
    {
        if self.format.wide {
            return slices::four(self.bytes, at);
        }
        or_none(slices::two(self.bytes, at))
    }

    // The same where its bytes are all there, with no test.
    fn whole_number(&self, at: usize) -> u32
        requires { at + number_width self.now.format ≤ length self.now.bytes.now }
        ensures { result ≡ or_none self.now.format (number_at self.now.format self.now.bytes.now at) }
    {
        if self.format.wide {
            return four_of(self.bytes, at);
        }
        or_none(two_of(self.bytes, at))
    }

    // A vertex whose bytes may end early, field by field.
    fn short_vertex(&self) -> Vertex
        ensures { result ≡ vertex_from self.now.format self.now.bytes.now }
    {
        Vertex {
            place: short_place(self.bytes),
            p: self.number_or_none(6),
            q: self.number_or_none(6 + stored::number_width(self.format)),
        }
    }

    // Parents that are all there.
    fn whole_parents(&self) -> Ends
        requires { vertex_width self.now.format ≤ length self.now.bytes.now }
        ensures { result ≡ parents_of (vertex_from self.now.format self.now.bytes.now) }
    {
        if self.format.wide {
            return Ends {
                lower: four_of(self.bytes, 6),
                higher: four_of(self.bytes, 10),
            };
        }
        Ends {
            lower: or_none(two_of(self.bytes, 6)),
            higher: or_none(two_of(self.bytes, 8)),
        }
    }

    // A vertex that is all there.
    fn whole_vertex(&self) -> Vertex
        requires { vertex_width self.now.format ≤ length self.now.bytes.now }
        ensures { result ≡ vertex_from self.now.format self.now.bytes.now }
    {
        let parents = self.whole_parents();
        Vertex {
            place: whole_place(self.bytes),
            p: parents.lower,
            q: parents.higher,
        }
    }

    fn vertex(&self) -> Vertex
        ensures { result ≡ vertex_from self.now.format self.now.bytes.now }
    {
        if self.bytes.len() < stored::vertex_width(self.format) {
            return self.short_vertex();
        }
        self.whole_vertex()
    }

    // Parents alone.
    fn parents(&self) -> Ends
        ensures { result ≡ parents_of (vertex_from self.now.format self.now.bytes.now) }
    {
        Ends {
            lower: self.number_or_none(6),
            higher: self.number_or_none(6 + stored::number_width(self.format)),
        }
    }

    // The corners of a record whose bytes may end early, one by one.
    fn short_corners(&self) -> [u32; 4]
        ensures { result ≡ corners_from self.now.format self.now.bytes.now }
    {
        let wide = stored::number_width(self.format);
        [
            self.number_or_none(0),
            self.number_or_none(wide),
            self.number_or_none(wide * 2),
            self.number_or_none(wide * 3),
        ]
    }

    fn whole_corners(&self) -> [u32; 4]
        requires { edge_at self.now.format ≤ length self.now.bytes.now }
        ensures { result ≡ corners_from self.now.format self.now.bytes.now }
    {
        if self.format.wide {
            return wide_corners(self.bytes);
        }
        narrow_corners(self.bytes)
    }

    fn corners(&self) -> [u32; 4]
        ensures { result ≡ corners_from self.now.format self.now.bytes.now }
    {
        if self.bytes.len() < stored::edge_at(self.format) {
            return self.short_corners();
        }
        self.whole_corners()
    }

    // The byte that stands so far behind a record's corners.
    fn byte(&self, k: usize) -> u8
        requires { k < 16 }
        ensures { result ≡ byte_at self.now.bytes.now (edge_at self.now.format + k) }
    {
        slices::byte(self.bytes, stored::edge_at(self.format) + k)
    }

    // The corner in slot k, alone.
    fn corner(&self, k: u8) -> u32
        requires { k < 4 }
        ensures { result ≡ get_or (corners_from self.now.format self.now.bytes.now) k 0 }
    {
        self.number_or_none(stored::number_width(self.format) * (k as usize))
    }

    fn marks(&self) -> [u8; 4]
        ensures { result ≡ marks_from self.now.format self.now.bytes.now }
    {
        [self.byte(1), self.byte(2), self.byte(3), self.byte(4)]
    }

    // The material, 0 where the format has none.
    fn short_material(&self) -> u8
        ensures { result ≡ material_from self.now.format self.now.bytes.now }
    {
        if self.format.material {
            return self.byte(7 + stored::number_width(self.format));
        }
        0
    }

    // The same of a record that is all there.
    fn whole_material(&self) -> u8
        requires { record_width self.now.format ≤ length self.now.bytes.now }
        ensures { result ≡ material_from self.now.format self.now.bytes.now }
    {
        if self.format.material {
            return self.bytes[stored::edge_at(self.format)
                + (7 + stored::number_width(self.format))];
        }
        0
    }

    // A record whose bytes may end early, field by field.
    fn short_record(&self) -> Record
        ensures { result ≡ record_from self.now.format self.now.bytes.now }
    {
        let piece = Piece {
            corners: self.short_corners(),
            edge: self.byte(0),
            marks: self.marks(),
            flag: self.byte(5),
            generation: self.byte(6),
            material: self.short_material(),
        };
        Record {
            piece,
            first_child: self.first_child(),
        }
    }

    // A record that is all there.
    fn whole_record(&self) -> Record
        requires { record_width self.now.format ≤ length self.now.bytes.now }
        ensures { result ≡ record_from self.now.format self.now.bytes.now }
    {
        let at = stored::edge_at(self.format);
        let piece = Piece {
            corners: self.whole_corners(),
            edge: self.bytes[at],
            marks: [
                self.bytes[at + 1],
                self.bytes[at + 2],
                self.bytes[at + 3],
                self.bytes[at + 4],
            ],
            flag: self.bytes[at + 5],
            generation: self.bytes[at + 6],
            material: self.whole_material(),
        };
        Record {
            piece,
            first_child: self.whole_number(at + 7),
        }
    }

    fn record(&self) -> Record
        ensures { result ≡ record_from self.now.format self.now.bytes.now }
    {
        if self.bytes.len() < stored::record_width(self.format) {
            return self.short_record();
        }
        self.whole_record()
    }

    // The first child alone.
    fn first_child(&self) -> u32
        ensures { result ≡ (record_from self.now.format self.now.bytes.now).first_child }
    {
        self.number_or_none(stored::edge_at(self.format) + 7)
    }
}

// A mesh as it is read: its header, where its tables stand, and the base slice and the growth slice that hold them.
#[derive(Clone, Copy)]
pub struct Mesh<'a> {
    pub header: Header,
    pub layout: Layout,
    pub base: &'a [u8],
    pub grown: &'a [u8],
}

impl<'a> Mesh<'a> {
    fn vertex_held(&self, i: usize) -> Entry<'a>
        ensures format { result.format ≡ self.now.layout.format }
        ensures bytes { result.bytes.now ≡ held_in self.now.layout.vertices self.now.base.now self.now.grown.now i }
    {
        Entry {
            format: self.layout.format,
            bytes: held(self.layout.vertices, self.base, self.grown, i),
        }
    }

    fn record_held(&self, i: usize) -> Entry<'a>
        ensures format { result.format ≡ self.now.layout.format }
        ensures bytes { result.bytes.now ≡ held_in self.now.layout.records self.now.base.now self.now.grown.now i }
    {
        Entry {
            format: self.layout.format,
            bytes: held(self.layout.records, self.base, self.grown, i),
        }
    }

    pub fn vertex(&self, i: usize) -> Vertex
        ensures { result ≡ vertex_read self.now i }
    {
        self.vertex_held(i).vertex()
    }

    // Where a vertex stands, alone.
    pub fn place(&self, i: usize) -> Place
        ensures { result ≡ (vertex_read self.now i).place }
    {
        place_from(self.vertex_held(i).bytes)
    }

    // A vertex's parents alone, for searches.
    pub fn parents(&self, i: usize) -> Ends
        ensures { result ≡ parents_of (vertex_read self.now i) }
    {
        self.vertex_held(i).parents()
    }

    pub fn record(&self, i: usize) -> Record
        ensures { result ≡ record_read self.now i }
    {
        self.record_held(i).record()
    }

    // A record's fields, each alone: its corners, one of them, its refinement edge, its marks, one of them, flag, generation and first child.
    pub fn corners(&self, i: usize) -> [u32; 4]
        ensures { result ≡ (record_read self.now i).piece.corners }
    {
        self.record_held(i).corners()
    }

    pub fn corner(&self, i: usize, k: u8) -> u32
        ensures { result ≡ corner_at (record_read self.now i).piece k }
    {
        if k < 4 {
            return self.record_held(i).corner(k);
        }
        0
    }

    pub fn edge(&self, i: usize) -> u8
        ensures { result ≡ (record_read self.now i).piece.edge }
    {
        self.record_held(i).byte(0)
    }

    pub fn marks(&self, i: usize) -> [u8; 4]
        ensures { result ≡ (record_read self.now i).piece.marks }
    {
        self.record_held(i).marks()
    }

    pub fn mark(&self, i: usize, j: u8) -> u8
        ensures { result ≡ mark (shape_of (record_read self.now i).piece) j }
    {
        if j < 4 {
            return self.record_held(i).byte(1 + usize::from(j));
        }
        0
    }

    pub fn flag(&self, i: usize) -> u8
        ensures { result ≡ (record_read self.now i).piece.flag }
    {
        self.record_held(i).byte(5)
    }

    pub fn generation(&self, i: usize) -> u8
        ensures { result ≡ (record_read self.now i).piece.generation }
    {
        self.record_held(i).byte(6)
    }

    pub fn first_child(&self, i: usize) -> u32
        ensures { result ≡ (record_read self.now i).first_child }
    {
        self.record_held(i).first_child()
    }
}
