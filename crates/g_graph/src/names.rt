//! The function `main` among the names of a program.

ghost use Rattle.std.specs.Prelude.{◌≡◌};
ghost use Rattle.g_graph.specs.Program.{main_name, same_bytes, name_index};

use base::Name;

fn same_bytes(xs: &[u8], ys: &[u8]) -> bool
    ensures { result ≡ same_bytes xs.now ys.now }
{
    match (xs.split_first(), ys.split_first()) {
        (Some((x, xs)), Some((y, ys))) => *x == *y && same_bytes(xs, ys),
        (None, None) => true,
        _ => false,
    }
}

/// The index of the name `main`, if it is there.
pub fn main_index(names: &[Name]) -> Option<usize>
    ensures { result ≡ name_index main_name names.now }
{
    for (i, name) in names.iter().enumerate() {
        if same_bytes(name.as_slice(), b"main") {
            return Some(i);
        }
    }
    None
}
