// "A piece worked by hand": K and the cube are built, refined and checked, row by row, and what the services answer is printed. Each output
// buffer is as long as the result.
#![tactic(auto)]

use check_refusals::Refusal;
use std::io;
use stored_entries::Mesh;

fn print_record(rt: &impl Print, mesh: &Mesh, n: usize) -> io::Result<()> {
    let p = mesh.record(n).piece;
    let ends = mesh_tables::refinement_ends(mesh, n);
    let [a, b, c, d] = p.corners;
    let [one, two, three, four] = p.marks;
    let edge = p.edge;
    let lower = ends.lower;
    let higher = ends.higher;
    let sixfold = check_figures::sixfold_at(mesh, n);
    print!(rt;
        "  record {n} corners {a} {b} {c} {d} edge {edge} marks {one} {two} {three} {four}"
    )?;
    println!(rt; " cut next at {lower}-{higher} sixfold {sixfold}")
}

fn print_leaves(rt: &impl Print, mesh: &[u8]) -> io::Result<()> {
    let k = stored::kind_1();
    let h = stored_headers::header_from(k.format, mesh);
    let read = Mesh {
        header: h,
        layout: stored::layout_of(k, h),
        base: mesh,
        grown: &mesh[..0],
    };
    for n in 0..h.records as usize {
        if mesh_tables::is_leaf(&read, n) {
            print_record(rt, &read, n)?;
        }
    }
    Ok(())
}

// What build or refine gave, and what check says of the output.
fn shown(
    rt: &impl Print,
    service: &str,
    outcome: Result<(), Refusal>,
    out: &[u8],
) -> io::Result<()> {
    print!(rt; ": {service} {}", check_refusals::outcome_number(outcome))?;
    if outcome.is_err() {
        return println!(rt; "");
    }
    let h = stored_headers::header_from(stored::version_1(), out);
    print!(rt;
        ", round {}, vertices {}, records {}",
        h.round, h.vertices, h.records
    )?;
    let report = check_service::check(out);
    print!(rt; ", check {}, leaves {}", report.number, report.leaves)?;
    println!(rt; ", deepest {}, sixfold {}", report.deepest, report.sixfold)?;
    print_leaves(rt, out)
}

fn built(
    rt: &impl Print,
    row: &str,
    coordinates: &[i16],
    corners: &[u16],
    out: &mut [u8],
) -> io::Result<()> {
    print!(rt; "{row}")?;
    let outcome = build_service::build(7, coordinates, corners, out);
    shown(rt, "build", outcome, out)
}

fn refined(
    rt: &impl Print,
    row: &str,
    mesh: &[u8],
    selection: &[u8],
    out: &mut [u8],
) -> io::Result<()> {
    print!(rt; "{row}")?;
    let outcome = refine_service::refine(mesh, selection, out);
    shown(rt, "refine", outcome, out)
}

// From K cut into four, with its seven records.
fn then(rt: &impl Print, quarters: &[u8]) -> io::Result<()> {
    let mut some = [0u8; 287];
    let select_4 = b"TMS\x01\0\x07\0\0\0\x02\0\x01\0\x04\0";
    refined(
        rt,
        "From there select 4 alone",
        quarters,
        select_4,
        &mut some,
    )?;
    let mut eighths = [0u8; 375];
    let select_3_to_6 = b"TMS\x01\0\x07\0\0\0\x02\0\x04\0\x03\0\x04\0\x05\0\x06\0";
    refined(
        rt,
        "Select 3 to 6 instead",
        quarters,
        select_3_to_6,
        &mut eighths,
    )
}

// Selections of round 0, with K in round 1.
fn expired(rt: &impl Print, halves: &[u8]) -> io::Result<()> {
    let mut out = [0u8; stored::LARGEST];
    let round_0 = b"TMS\x01\0\x07\0\0\0\0\0\x01\0\x01\0";
    refined(
        rt,
        "Selection of round 0 on a mesh of round 1",
        halves,
        round_0,
        &mut out,
    )?;
    let job_8 = b"TMS\x01\0\x08\0\0\0\0\0\x01\0\x01\0";
    refined(rt, "With the job wrong too", halves, job_8, &mut out)
}

fn k_rows(rt: &impl Print) -> io::Result<()> {
    let mut k = [0u8; 77];
    let coordinates: [i16; 12] = [0, 0, 0, 64, 0, 0, 64, 64, 0, 64, 64, 64];
    let corners: [u16; 4] = [0, 1, 2, 3];
    built(rt, "K", &coordinates, &corners, &mut k)?;

    let select_0 = b"TMS\x01\0\x07\0\0\0\0\0\x01\0\0\0";
    let mut halves = [0u8; 121];
    refined(rt, "K, select 0", &k, select_0, &mut halves)?;
    let mut short = [0u8; 120];
    refined(rt, "An output buffer of 120", &k, select_0, &mut short)?;

    let select_1_and_2 = b"TMS\x01\0\x07\0\0\0\x01\0\x02\0\x01\0\x02\0";
    let mut quarters = [0u8; 209];
    refined(
        rt,
        "Then select 1 and 2",
        &halves,
        select_1_and_2,
        &mut quarters,
    )?;
    then(rt, &quarters)?;

    let select_none = b"TMS\x01\0\x07\0\0\0\0\0\0\0";
    let mut again = [0u8; 77];
    refined(rt, "Empty selection on K", &k, select_none, &mut again)?;
    expired(rt, &halves)
}

// "The cube of side 64 as six pieces round the diagonal".
fn cube_rows(rt: &impl Print) -> io::Result<()> {
    let coordinates: [i16; 24] = [
        // vertices 0 to 3
        0, 0, 0, 64, 0, 0, 0, 64, 0, 64, 64, 0,
        // vertices 4 to 7
        0, 0, 64, 64, 0, 64, 0, 64, 64, 64, 64, 64,
    ];
    let corners: [u16; 24] = [
        0, 1, 3, 7, 0, 1, 5, 7, 0, 2, 3, 7, 0, 2, 6, 7, 0, 4, 5, 7, 0, 4, 6, 7,
    ];
    let mut cube = [0u8; 202];
    built(rt, "The cube", &coordinates, &corners, &mut cube)?;
    let select_0 = b"TMS\x01\0\x07\0\0\0\0\0\x01\0\0\0";
    let mut out = [0u8; 416];
    refined(rt, "Select one", &cube, select_0, &mut out)
}

// A piece whose first vertex has that coordinate.
fn coordinate_row(rt: &impl Print, row: &str, x: i16) -> io::Result<()> {
    let coordinates: [i16; 12] = [x, 0, 0, 64, 0, 0, 64, 64, 0, 64, 64, 64];
    let corners: [u16; 4] = [0, 1, 2, 3];
    let mut out = [0u8; 77];
    built(rt, row, &coordinates, &corners, &mut out)
}

fn main(rt: HostRuntime) -> io::Result<()> {
    k_rows(&rt)?;
    cube_rows(&rt)?;
    coordinate_row(&rt, "Base coordinate 32,736", 32736)?;
    coordinate_row(&rt, "Base coordinate 16", 16)?;
    coordinate_row(&rt, "Base coordinate -32,768", -32768)
}
