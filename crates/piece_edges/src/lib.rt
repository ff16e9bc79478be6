// Slots, edge codes and faces of the marked piece, each as a table by its code.
#![tactic(auto)]

ghost use Rattle.std.specs.Prelude.{◌≡◌};
ghost use Rattle.piece_edges.specs.Edges.{low_slot, high_slot, has_slot, other_end, edge_between, on_face, opposite_on, shared_slot};

// The first slot of an edge code.
pub fn low_slot(e: u8) -> u8
    ensures { result ≡ low_slot e }
{
    match e {
        0 | 1 | 2 => 0,
        3 | 4 => 1,
        5 => 2,
        _ => 0,
    }
}

// The second slot of an edge code.
pub fn high_slot(e: u8) -> u8
    ensures { result ≡ high_slot e }
{
    match e {
        0 => 1,
        1 | 3 => 2,
        2 | 4 | 5 => 3,
        _ => 0,
    }
}

// Whether slot k is an end of edge e.
fn has_slot(e: u8, k: u8) -> bool
    ensures { result ≡ has_slot e k }
{
    low_slot(e) == k || high_slot(e) == k
}

// Of an edge and one of its ends, the other end.
pub fn other_end(e: u8, k: u8) -> u8
    ensures { result ≡ other_end e k }
{
    let low = low_slot(e);
    if low == k { high_slot(e) } else { low }
}

// The code of the edge between two slots, and 6 where there is none.
// Kept a number: 6, and 4 for no slot below, are what the definitions say, which the theorems on all shapes compute.
pub fn edge_between(j: u8, k: u8) -> u8
    ensures { result ≡ edge_between j k }
{
    match j {
        0 => match k {
            1 => 0,
            2 => 1,
            3 => 2,
            _ => 6,
        },
        1 => match k {
            0 => 0,
            2 => 3,
            3 => 4,
            _ => 6,
        },
        2 => match k {
            0 => 1,
            1 => 3,
            3 => 5,
            _ => 6,
        },
        3 => match k {
            0 => 2,
            1 => 4,
            2 => 5,
            _ => 6,
        },
        _ => 6,
    }
}

// Whether edge e is an edge of face i, the face without slot i.
pub fn on_face(e: u8, i: u8) -> bool
    ensures { result ≡ on_face e i }
{
    e < 6 && !has_slot(e, i)
}

// The edge of face i opposite slot k: the one with neither of them. Where i is k, or one of them is no slot, it is the first such edge.
pub fn opposite_on(i: u8, k: u8) -> u8
    ensures { result ≡ opposite_on i k }
{
    match i {
        0 => match k {
            1 => 5,
            2 => 4,
            _ => 3,
        },
        1 => match k {
            0 => 5,
            2 => 2,
            _ => 1,
        },
        2 => match k {
            0 => 4,
            1 => 2,
            _ => 0,
        },
        _ => match k {
            0 => 3,
            1 => 1,
            _ => 0,
        },
    }
}

// The slot that two edges share, and 4 where there is none: an end of the one that is an end of the other.
pub fn shared_slot(e: u8, f: u8) -> u8
    ensures { result ≡ shared_slot e f }
{
    let low = low_slot(e);
    if has_slot(f, low) {
        return low;
    }
    let high = high_slot(e);
    if has_slot(f, high) {
        return high;
    }
    4
}
