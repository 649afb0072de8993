//! Lines that stand in the order of their files and numbers.
ghost use Rattle.std.specs.Prelude.{true, ◌≡◌, ◌<◌, ◌≤◌, ◌&&◌, ℕ, [], nat_eq, length, slice_index};
ghost use Rattle.std.specs.Option.{option_map_or};
ghost use Rattle.source_lines.specs.Order.{rank as rank_of, ranks, IsAscending};
ghost use Rattle.source_lines.specs.Text.{line_text};

use iasl_messages::place::{Line, Place};
use iasl_ports::list::Text;

// Where a line stands among all: by its file, and then by its number.
fn rank(file: u32, number: u32) -> u64
    ensures { result ≡ rank_of file number }
{
    u64::from(file) * 4294967296 + u64::from(number)
}

fn is_at(line: &Line, place: Place) -> bool
    ensures { result ≡ (nat_eq line.now.file place.file && nat_eq line.now.number place.line) }
{
    line.file == place.file && line.number == place.line
}

/// Whether each line stands before those behind it.
pub(crate) fn ascends(lines: &[Line]) -> bool
    ensures { result ≡ true → IsAscending lines.now }
{
    let mut count = 1;
    while count < lines.len() {
        let last = &lines[count - 1];
        let line = &lines[count];
        if rank(line.file, line.number) <= rank(last.file, last.number) {
            return false;
        }
        count += 1;
    }
    true
}

// How many lines stand before a place.
fn count_before(lines: &[Line], place: Place) -> usize
    requires { IsAscending lines.now }
    ensures within { result ≤ length lines.now }
    ensures before { (k : ℕ) → k < result → slice_index (ranks lines.now) k < rank_of place.file place.line }
    ensures behind { (k : ℕ) → result ≤ k → k < length lines.now → rank_of place.file place.line ≤ slice_index (ranks lines.now) k }
{
    let sought = rank(place.file, place.line);
    let mut low = 0;
    let mut high = lines.len();
    while low < high {
        let middle = low + (high - low) / 2;
        let line = &lines[middle];
        if rank(line.file, line.number) < sought {
            low = middle + 1;
        } else {
            high = middle;
        }
    }
    low
}

// Where the line of a place stands if no line behind it was left out: most directives stand at a source's head.
fn guess(lines: &[Line], place: Place) -> usize {
    match lines.last() {
        Some(last) => lines
            .len()
            .saturating_sub(1 + last.number.saturating_sub(place.line) as usize),
        None => 0,
    }
}

// The one index at which the line of a place may stand.
fn index_of(lines: &[Line], place: Place) -> usize
    requires { IsAscending lines.now }
    ensures { (k : ℕ) → k < length lines.now → slice_index (ranks lines.now) k ≡ rank_of place.file place.line → k ≡ result }
{
    let index = guess(lines, place);
    if index < lines.len() && is_at(&lines[index], place) {
        index
    } else {
        count_before(lines, place)
    }
}

/// The text of the line that has the place's file and line; none where there is no such line.
pub(crate) fn text_in_order(lines: &[Line], place: Place) -> Option<&Text>
    requires { IsAscending lines.now }
    ensures { option_map_or (λ text. text.now) result [] ≡ line_text lines.now place }
{
    let index = index_of(lines, place);
    if index < lines.len() && is_at(&lines[index], place) {
        Some(&lines[index].text)
    } else {
        None
    }
}
