// The selection: its mark, its length, its heading and the record numbers that it names. Its format is that of the mesh it belongs to.
#![tactic(auto, unfolding(stored::specs::Layout::right_selection_mark, stored::specs::Layout::right_selection_length, stored::specs::Layout::selection_of, stored::specs::Layout::named_in))]

ghost use Rattle.std.specs.Prelude.{◌≡◌};
ghost use Rattle.stored.specs.Layout.{selection_in, right_selection_mark, right_selection_length, selection_of, named_in};

use stored::{Format, Selection};

pub fn right_selection_mark(format: Format, selection: &[u8]) -> bool
    ensures { result ≡ right_selection_mark (selection_in format selection.now) }
{
    let version = if format.wide { 2 } else { 1 };
    stored_headers::marked_with(selection, b'S', version)
}

pub fn right_selection_length(format: Format, selection: &[u8]) -> bool
    ensures { result ≡ right_selection_length (selection_in format selection.now) }
{
    let wide = stored::number_width(format);
    if selection.len() < 11 + wide {
        return false;
    }
    let count = stored_headers::number_at(format, selection, 11);
    selection.len() == 11 + wide + wide * (count as usize)
}

pub fn selection_of(format: Format, selection: &[u8]) -> Selection
    ensures { result ≡ selection_of (selection_in format selection.now) }
{
    Selection {
        job: slices::four(selection, 5),
        round: slices::two(selection, 9),
        count: stored_headers::number_at(format, selection, 11),
    }
}

// Kept: a line for each width, so that `entry` divides by a number that is known.
pub fn named_in(format: Format, selection: &[u8], i: usize) -> u32
    ensures { result ≡ named_in (selection_in format selection.now) i }
{
    if format.wide {
        return slices::four(slices::entry(slices::after(selection, 15), i, 4), 0);
    }
    slices::two(slices::entry(slices::after(selection, 13), i, 2), 0)
}
