// The listing's lines, each set in a line buffer from its start, as far as there is room. The place behind the line is handed back.
#![tactic(auto)]

ghost use Rattle.std.specs.Prelude.{◌≡◌};
ghost use Rattle.list_text.specs.Line.{line, put};
ghost use Rattle.list_text.specs.Text.{figures};
ghost use Rattle.list_writer.specs.Written.{written};
ghost use Rattle.list_lines.specs.Lines.{refused_line, count_figures, check_figures, heading_line, corner_figures, edge_figures, leaf_line};

use check_refusals::Report;
use list_writer::Writer;
use piece::Piece;
use stored::Header;

// "Each line is set in a 128-byte line buffer before it is written."
pub const LINE: usize = 128;

pub fn set_refused(buffer: &mut [u8], number: u64) -> usize
    ensures { line buffer.new result ≡ put (refused_line number) (line buffer.old 0) }
{
    let mut w = Writer::new(buffer);
    w.figure(b"refused ", number);
    w.end();
    w.at
}

fn put_counts(w: &mut Writer, h: Header)
    ensures { w.new ≡ written w.old (figures (count_figures h)) }
{
    w.figure(b"job ", h.job as u64);
    w.figure(b" round ", h.round as u64);
    w.figure(b" vertices ", h.vertices as u64);
    w.figure(b" records ", h.records as u64);
}

fn put_figures(w: &mut Writer, report: Report)
    ensures { w.new ≡ written w.old (figures (check_figures report)) }
{
    w.figure(b" leaves ", report.leaves);
    w.figure(b" deepest ", report.deepest);
    w.figure(b" sixfold ", report.sixfold);
}

pub fn set_heading(buffer: &mut [u8], h: Header, report: Report) -> usize
    ensures { line buffer.new result ≡ put (heading_line h report) (line buffer.old 0) }
{
    let mut w = Writer::new(buffer);
    put_counts(&mut w, h);
    put_figures(&mut w, report);
    w.end();
    w.at
}

fn put_corners(w: &mut Writer, n: usize, p: Piece)
    ensures { w.new ≡ written w.old (figures (corner_figures n p)) }
{
    w.figure(b"", n as u64);
    w.figure(b" ", p.corners[0] as u64);
    w.figure(b" ", p.corners[1] as u64);
    w.figure(b" ", p.corners[2] as u64);
    w.figure(b" ", p.corners[3] as u64);
}

fn put_edge(w: &mut Writer, p: Piece)
    ensures { w.new ≡ written w.old (figures (edge_figures p)) }
{
    let ends = piece::ends_of(p, p.edge);
    w.figure(b" edge ", ends.lower as u64);
    w.figure(b" ", ends.higher as u64);
    w.figure(b" gen ", p.generation as u64);
}

pub fn set_leaf(buffer: &mut [u8], n: usize, p: Piece) -> usize
    ensures { line buffer.new result ≡ put (leaf_line n p) (line buffer.old 0) }
{
    let mut w = Writer::new(buffer);
    put_corners(&mut w, n, p);
    put_edge(&mut w, p);
    w.end();
    w.at
}
