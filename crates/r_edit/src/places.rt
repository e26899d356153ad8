//! Lists from which some elements go, by index.

ghost use Rattle.std.specs.Prelude.{◌≡◌, ◌≤◌, ◌∷◌, true, take, length};
ghost use Rattle.r_edit.specs.Places.{stays_at, kept, place_after};

use g_graph::Origin;
use smallvec::SmallVec;

/// Keeps in a list what stays, in its order; what no test speaks of stays. It takes time linear in
/// the list.
pub fn keep<T: Copy>(items: &mut Vec<T>, stays: &[bool])
    ensures { items.new.items ≡ kept stays.now items.old.items }
{
    let len = move_kept(items.as_mut_slice(), stays);
    items.truncate(len);
}

/// As `keep`, where the first of the list stays and the tests begin after it.
pub fn keep_after_first<T: Copy>(items: &mut Vec<T>, stays: &[bool])
    ensures { items.new.items ≡ kept (true ∷ stays.now) items.old.items }
{
    let len = move_kept_after_first(items.as_mut_slice(), stays);
    items.truncate(len);
}

/// As `keep`, for the inputs of a node.
pub fn keep_inputs(inputs: &mut SmallVec<Origin, 4>, stays: &[bool])
    ensures { inputs.new.items ≡ kept stays.now inputs.old.items }
{
    let len = move_kept(inputs.as_mut_slice(), stays);
    inputs.truncate(len);
}

/// As `keep_after_first`, for the inputs of a node.
pub fn keep_inputs_after_first(inputs: &mut SmallVec<Origin, 4>, stays: &[bool])
    ensures { inputs.new.items ≡ kept (true ∷ stays.now) inputs.old.items }
{
    let len = move_kept_after_first(inputs.as_mut_slice(), stays);
    inputs.truncate(len);
}

fn move_kept_after_first<T: Copy>(items: &mut [T], stays: &[bool]) -> usize
    ensures { take result items.new ≡ kept (true ∷ stays.now) items.old }
{
    if items.is_empty() {
        return 0;
    }
    move_kept(&mut items[1..], stays) + 1
}

// Moves what stays to the front, and answers how much that is.
fn move_kept<T: Copy>(items: &mut [T], stays: &[bool]) -> usize
    ensures value { take result items.new ≡ kept stays.now items.old }
    ensures bound { result ≤ length items.old }
{
    let mut to = 0;
    for from in 0..items.len() {
        if stays_at(stays, from) {
            items[to] = items[from];
            to += 1;
        }
    }
    to
}

/// Whether what stands at an index stays.
pub fn stays_at(stays: &[bool], index: usize) -> bool
    ensures { result ≡ stays_at stays.now index }
{
    match stays.get(index) {
        Some(stays) => *stays,
        None => true,
    }
}

/// The place afterwards of what stays at a place. It takes time linear in the place.
pub fn place_after(stays: &[bool], place: u32) -> u32
    ensures { result ≡ place_after stays.now place }
{
    let mut rest = place;
    let mut after = 0;
    for test in stays {
        if rest == 0 {
            return after;
        }
        rest -= 1;
        if *test {
            after += 1;
        }
    }
    after + rest
}
