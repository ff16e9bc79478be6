// List: writes the whole listing of a stored mesh.
#![tactic(auto)]

ghost use Rattle.std.specs.Prelude.{◌≡◌, cond, ℕ, ◌+◌, ◌≤◌, ◌<◌, ◌^◌, length, eqb};
ghost use Rattle.stored.specs.Layout.{stored1, header_of};
ghost use Rattle.stored_entries.specs.Mesh.{record_read};
ghost use Rattle.mesh_tables.specs.Tables.{tables_of};
ghost use Rattle.check_refusals.specs.Check.{check_of};
ghost use Rattle.list_lines.specs.Lines.{line_room, refused_line, heading_line, leaf_line};
ghost use Rattle.list_service.specs.Listing.{leaf_lines, judged_lines, text_of, ListOutcomeIs};
ghost use Rattle.list_service.specs.Putting.{leaf_text, ListingPut, followed};

use check_refusals::Report;
use piece::Piece;
use stored::Header;
use stored_entries::Mesh;

// What list returns: a refusal's number or 0, and how long the text is that the buffer holds.
#[repr(C)]
#[derive(Clone, Copy)]
pub struct Listed {
    pub number: u64,
    pub length: u64,
}

// So many bytes hold any listing: a line for each record that there may be, and the heading.
pub const LARGEST: usize = list_lines::LINE * (stored::RECORDS + 1);

// The text so far: its lines are put into a buffer one behind the other, as far as there is room. Its length counts on, also beyond the buffer's end.
#[derive(Drop)]
struct Text<'a> {
    out: &'a mut [u8],
    length: usize,
}

impl<'a> Text<'a> {
    fn put_line(&mut self, line: &[u8])
        requires { self.old.length + length line.now < 2 ^ 64 }
        ensures { self.new ≡ followed self.old line.now }
    {
        slices_written::put(&mut *self.out, self.length, line);
        self.length += line.len();
    }

    fn put_refused(&mut self, number: u64)
        requires { self.old.length + line_room < 2 ^ 64 }
        ensures { self.new ≡ followed self.old (refused_line number) }
    {
        let mut line = [0u8; list_lines::LINE];
        let length = list_lines::set_refused(&mut line, number);
        self.put_line(slices::part(&line, 0, length));
    }

    fn put_heading(&mut self, h: Header, report: Report)
        requires fits { length (heading_line h report) ≤ line_room }
        requires room { self.old.length + line_room < 2 ^ 64 }
        ensures { self.new ≡ followed self.old (heading_line h report) }
    {
        let mut line = [0u8; list_lines::LINE];
        let length = list_lines::set_heading(&mut line, h, report);
        self.put_line(slices::part(&line, 0, length));
    }

    fn put_leaf(&mut self, n: usize, p: Piece)
        requires fits { length (leaf_line n p) ≤ line_room }
        requires room { self.old.length + line_room < 2 ^ 64 }
        ensures { self.new ≡ followed self.old (leaf_line n p) }
    {
        let mut line = [0u8; list_lines::LINE];
        let length = list_lines::set_leaf(&mut line, n, p);
        self.put_line(slices::part(&line, 0, length));
    }

    // Record n's line, if it is a leaf.
    fn put_record(&mut self, mesh: &Mesh, n: usize)
        requires fits { length (leaf_line n (record_read mesh.now n).piece) ≤ line_room }
        requires room { self.old.length + line_room < 2 ^ 64 }
        ensures { self.new ≡ followed self.old (leaf_text (record_read mesh.now n) n) }
    {
        if mesh_tables::is_leaf(mesh, n) {
            self.put_leaf(n, mesh.record(n).piece);
        }
    }

    // "then each leaf in rising record number"
    fn put_leaves(&mut self, mesh: &[u8], h: Header)
        requires { (self.old.length ≤ line_room) × (h ≡ header_of (stored1 mesh.now)) }
        ensures { self.new ≡ followed self.old (text_of (leaf_lines (tables_of (stored1 mesh.now)) h.records)) }
    {
        let read = Mesh {
            header: h,
            layout: stored::layout_of(stored::kind_1(), h),
            base: mesh,
            grown: &mesh[..0],
        };
        let count = h.records as usize;
        for n in 0..count {
            self.put_record(&read, n);
        }
    }

    // "Refused: one line"; "else one heading line [..], then each leaf".
    fn put_judged(&mut self, mesh: &[u8], report: Report)
        requires { (self.old.length ≡ 0) × (report ≡ check_of (stored1 mesh.now)) }
        ensures { self.new ≡ followed self.old (text_of (judged_lines (tables_of (stored1 mesh.now)) report)) }
    {
        // Kept: C's struct holds the number.
        if report.number != 0 {
            self.put_refused(report.number);
        } else {
            let h = stored_headers::header_from(stored::version_1(), mesh);
            self.put_heading(h, report);
            self.put_leaves(mesh, h);
        }
    }
}

// The mesh's own number, and how long the whole listing is; it is put as far as there is room.
fn put_listing(out: &mut [u8], mesh: &[u8]) -> Listed
    ensures { ListingPut mesh.now out.old out.new result }
{
    let mut text = Text { out, length: 0 };
    let number = if stored::LARGEST < mesh.len() {
        text.put_refused(1);
        1
    } else {
        let report = check_service::check(mesh);
        text.put_judged(mesh, report);
        report.number
    };
    Listed {
        number,
        length: text.length as u64,
    }
}

// 20: "the output buffer is shorter than the result". Kept: C's struct holds the number.
fn too_short(number: u64) -> u64
    ensures { result ≡ cond {A = ℕ} (eqb number 0) 20 number }
{
    if number == 0 { 20 } else { number }
}

pub fn list(mesh: &[u8], out: &mut [u8]) -> Listed
    ensures { ListOutcomeIs mesh.now (length out.old) result out.new }
{
    out.fill(0);
    let whole = put_listing(out, mesh);
    if (out.len() as u64) < whole.length {
        out.fill(0);
        return Listed {
            number: too_short(whole.number),
            length: 0,
        };
    }
    whole
}
