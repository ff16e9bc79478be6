// Refine's passes: "Pass one cuts the selected records; each later pass cuts every leaf that has a hanging edge when the pass begins; it
// ends when there is none. Within a pass records go in rising number."
//
// The vertex with a parent pair is found along links, which are filled once when the passes begin; a vertex that a cut appends is put into them.
#![tactic(auto)]

ghost use Rattle.std.specs.Prelude.{◌≡◌, true, ◌≤◌, ◌<◌, length};
ghost use Rattle.laws.specs.Counts.{marked};
ghost use Rattle.chains.specs.Held.{SameSlices, AsLong};
ghost use Rattle.stored.specs.Layout.{numbers_reach, selection_in, named_in};
ghost use Rattle.mesh_tables.specs.Tables.{tables_read, tables, leaf_hangs};
ghost use Rattle.mesh_parents.specs.Pairs.{Linked};
ghost use Rattle.refine_selection.specs.Selected.{is_named};
ghost use Rattle.refine_cut.specs.Slices.{slices, cut_put};
ghost use Rattle.refine_pass.specs.Passes.{exceeds};
ghost use Rattle.refine_pass.specs.Puts.{turn_put, pass_put, closing_put, refined_put, too_short, refined_within};
ghost use Rattle.refine_pass.specs.Chosen.{table_of, Chosen};
ghost use Rattle.refine_pass.specs.Linked.{Linking, AtWork};

use chains::{Links, ReadLinks};
use mesh_parents::LinkedMesh;
use stored::{Format, Header, Kind, Layout, Limits};
use stored_entries::Mesh;

// Whether there are more vertices or more records than there may be.
#[tactic(auto, unfolding(crate::specs::Passes::exceeds))]
pub fn exceeds(most: Limits, h: Header) -> bool
    ensures { result ≡ exceeds most h }
{
    most.vertices < h.vertices || most.records < h.records
}

// Record n is cut at the vertex with its refinement edge's ends for parents, which is looked for along the links.
// Kept: what it asks of the links stands here and not in a `LinkedMesh`, which holds slices that are read, and these are written.
// Kept two slices: a struct that holds both for writing would have each function promise as well that it keeps the same two and the layout.
fn cut(
    h: Header,
    l: Layout,
    base: &mut [u8],
    grown: &mut [u8],
    links: &ReadLinks,
    n: usize,
) -> Header
    requires { Linked (tables h l base.old grown.old) links.now.heads.now links.now.nexts.now }
    ensures { slices result base.new grown.new ≡ cut_put l (slices h base.old grown.old) n }
{
    let mesh = Mesh {
        header: h,
        layout: l,
        base: &*base,
        grown: &*grown,
    };
    let ends = mesh_tables::refinement_ends(&mesh, n);
    let w = mesh_parents::first_with(&mesh, links, ends);
    refine_cut::cut_at(h, l, base, grown, n, w as u32)
}

// A vertex more than there were is put into the links.
fn link_fresh(was: u32, mesh: &Mesh, links: &mut Links)
    requires { Linking (tables_read mesh.now) was links.old.heads.now links.old.nexts.now }
    ensures linked { Linked (tables_read mesh.now) links.new.heads.now links.new.nexts.now }
    ensures as_long { length links.new.nexts.now ≡ length links.old.nexts.now }
{
    if was < mesh.header.vertices {
        mesh_parents::link_vertex(mesh, links, was as usize);
    }
}

// The turn of a record that is chosen.
fn turn(
    most: Limits,
    h: Header,
    l: Layout,
    base: &mut [u8],
    grown: &mut [u8],
    links: &mut Links,
    n: usize,
) -> Header
    requires at_work { AtWork most l (slices h base.old grown.old) links.old.heads.now links.old.nexts.now }
    requires n_lt_records { n < h.records }
    ensures grown_after { slices result base.new grown.new ≡ turn_put most l true n (slices h base.old grown.old) }
    ensures at_work_after { AtWork most l (slices result base.new grown.new) links.new.heads.now links.new.nexts.now }
{
    if exceeds(most, h) {
        return h;
    }
    let with = cut(h, l, base, grown, &links.read(), n);
    let mesh = Mesh {
        header: with,
        layout: l,
        base: &*base,
        grown: &*grown,
    };
    link_fresh(h.vertices, &mesh, links);
    with
}

// One more at each number that the selection names, in a table that is empty at first, whatever stood in it.
pub fn choose_named(format: Format, chosen: &mut [u16], selection: &[u8], count: usize)
    ensures { chosen.new ≡ table_of (length chosen.old) (selection_in format selection.now) count }
{
    chosen.fill(0);
    for i in 0..count {
        chains::count(
            chosen,
            stored_selections::named_in(format, selection, i) as usize,
        );
    }
}

// Every leaf that has a hanging edge is chosen in the table, and no other record; whether there is one.
fn choose_hanging(linked: &LinkedMesh, chosen: &mut [u16]) -> bool
    requires { linked.now.mesh.now.header.records ≤ length chosen.old }
    ensures { Chosen (leaf_hangs (tables_read linked.now.mesh.now)) linked.now.mesh.now.header.records chosen.new result }
{
    let records = linked.mesh.header.records as usize;
    let mut some = false;
    for n in 0..records {
        let hangs = mesh_hanging::leaf_hangs(linked.mesh, &linked.links, n);
        chosen[n] = u16::from(hangs);
        some |= hangs;
    }
    some
}

// Whether the table has chosen record n.
fn is_chosen(chosen: &[u16], n: usize) -> bool
    ensures { result ≡ marked chosen.now n }
{
    chains::at(chosen, n) != 0
}

// One pass: of the records that are there when it begins, in rising number, those that the table has chosen.
fn pass(
    most: Limits,
    h: Header,
    l: Layout,
    base: &mut [u8],
    grown: &mut [u8],
    links: &mut Links,
    chosen: &[u16],
) -> Header
    requires { AtWork most l (slices h base.old grown.old) links.old.heads.now links.old.nexts.now }
    ensures grown_after { slices result base.new grown.new ≡ pass_put most l (marked chosen.now) (slices h base.old grown.old) }
    ensures at_work { AtWork most l (slices result base.new grown.new) links.new.heads.now links.new.nexts.now }
{
    let records = h.records as usize;
    let mut with = h;
    for n in 0..records {
        if is_chosen(chosen, n) {
            with = turn(most, with, l, base, grown, links, n);
        }
    }
    with
}

// The later passes, until none hangs or the tables exceed their limits.
fn close(
    most: Limits,
    h: Header,
    l: Layout,
    base: &mut [u8],
    grown: &mut [u8],
    links: &mut Links,
    chosen: &mut [u16],
) -> Header
    requires at_work { AtWork most l (slices h base.old grown.old) links.old.heads.now links.old.nexts.now }
    requires records_in_bounds { most.records ≤ length chosen.old }
    ensures { slices result base.new grown.new ≡ closing_put most l most.records (slices h base.old grown.old) }
{
    let mut with = h;
    for _ in 0..most.records {
        if exceeds(most, with) {
            return with;
        }
        let mesh = Mesh {
            header: with,
            layout: l,
            base: &*base,
            grown: &*grown,
        };
        let linked = LinkedMesh {
            mesh: &mesh,
            links: links.read(),
        };
        if !choose_hanging(&linked, chosen) {
            return with;
        }
        with = pass(most, with, l, base, grown, links, chosen);
    }
    with
}

// Pass one, and those after it, by one table, which has a place for each possible record.
fn passes(
    most: Limits,
    h: Header,
    l: Layout,
    base: &mut [u8],
    grown: &mut [u8],
    links: &mut Links,
    chosen: &mut [u16],
    selection: &[u8],
    count: usize,
) -> Header
    requires at_work { AtWork most l (slices h base.old grown.old) links.old.heads.now links.old.nexts.now }
    requires records_in_bounds { h.records ≤ length chosen.old }
    requires limits_in_bounds { most.records ≤ length chosen.old }
    ensures { slices result base.new grown.new ≡ refined_put most l (is_named count (named_in (selection_in l.format selection.now))) (slices h base.old grown.old) }
{
    choose_named(l.format, chosen, selection, count);
    let with = pass(most, h, l, base, grown, links, chosen);
    close(most, with, l, base, grown, links, chosen)
}

// The same of a kind whose numbers reach far enough, with the links in two lists: who lends them keeps both, each as long as it was.
fn refined_within(
    k: Kind,
    h: Header,
    base: &mut [u8],
    grown: &mut [u8],
    heads: &mut [u16],
    nexts: &mut [u16],
    chosen: &mut [u16],
    selection: &[u8],
    count: usize,
) -> Header
    requires { numbers_reach k ≡ true }
    ensures { slices result base.new grown.new ≡ refined_within k (too_short k.limits heads.old nexts.old chosen.old) (is_named count (named_in (selection_in k.format selection.now))) (slices h base.old grown.old) }
{
    let links = &mut Links { heads, nexts };
    let most = k.limits;
    let format = k.format;
    if exceeds(most, h) {
        return h;
    }
    if base.len() < stored::vertex_width(format) * (most.vertices as usize + 1) {
        return h;
    }
    if grown.len() < stored::record_width(format) * (most.records as usize + 2) {
        return h;
    }
    if links.is_short(most.vertices as usize + 1) {
        return h;
    }
    if chosen.len() < most.records as usize {
        return h;
    }
    let l = stored::working_layout(format, most.vertices + 1, most.records + 2);
    let mesh = Mesh {
        header: h,
        layout: l,
        base: &*base,
        grown: &*grown,
    };
    mesh_parents::link_pairs(&mesh, links);
    passes(most, h, l, base, grown, links, chosen, selection, count)
}

// All passes on tables to work on, with lists that are lent for the links and for the chosen records, whatever stands in them. Where the kind's
// numbers don't reach far enough, the slices don't have the tables, the lists are too short, or there are more vertices or records than there may be, nothing is cut.
pub fn refined(
    k: Kind,
    h: Header,
    base: &mut [u8],
    grown: &mut [u8],
    links: &mut Links,
    chosen: &mut [u16],
    selection: &[u8],
    count: usize,
) -> Header
    ensures value { slices result base.new grown.new ≡ refined_within k (too_short k.limits links.old.heads.now links.old.nexts.now chosen.old) (is_named count (named_in (selection_in k.format selection.now))) (slices h base.old grown.old) }
    ensures same { SameSlices links.old links.new }
    ensures as_long { AsLong links.old links.new }
{
    if !stored::numbers_reach(k) {
        return h;
    }
    refined_within(
        k,
        h,
        base,
        grown,
        links.heads,
        links.nexts,
        chosen,
        selection,
        count,
    )
}
