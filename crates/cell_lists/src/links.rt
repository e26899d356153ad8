//! What is stored of a cell and of a list, and how one of them changes.

ghost use Rattle.std.specs.Prelude.{◌≡◌, ◌+◌, ◌-◌, ◌^◌, ◌<◌, ◌≤◌};
ghost use Rattle.cell_lists.specs.Lists.{fall};
ghost use Rattle.cell_lists.specs.Linked.{IsCell, after_set, before_set, with_last, with_other, without_cell};

/// The list of a cell and its neighbours there. Of a cell in no list it says nothing.
#[derive(Clone, Copy, Drop)]
pub(crate) struct Link {
    pub list: usize,
    pub before: Option<usize>,
    pub after: Option<usize>,
}

/// A list: its first and last cell, its number of cells, and how many of them follow a greater one.
#[derive(Clone, Copy, Drop)]
pub(crate) struct Ends {
    pub first: Option<usize>,
    pub last: Option<usize>,
    pub len: usize,
    pub falls: usize,
}

/// The cell, if there is one, gets the neighbour `after`.
pub(crate) fn set_after(links: &mut Vec<Link>, cell: Option<usize>, after: Option<usize>)
    requires { IsCell links.old.items cell }
    ensures { links.new.items ≡ after_set links.old.items cell after }
{
    if let Some(cell) = cell {
        let link = &mut links[cell];
        link.after = after;
    }
}

/// The cell, if there is one, gets the neighbour `before`.
pub(crate) fn set_before(links: &mut Vec<Link>, cell: Option<usize>, before: Option<usize>)
    requires { IsCell links.old.items cell }
    ensures { links.new.items ≡ before_set links.old.items cell before }
{
    if let Some(cell) = cell {
        let link = &mut links[cell];
        link.before = before;
    }
}

/// A list to which a cell is added at the end.
pub(crate) fn with_last(ends: Ends, cell: usize) -> Ends
    requires room { ends.len + 1 < 2 ^ 64 }
    requires few { ends.falls ≤ ends.len }
    ensures { result ≡ with_last ends cell }
{
    Ends {
        first: ends.first.or(Some(cell)),
        last: Some(cell),
        len: ends.len + 1,
        falls: ends.falls + fall(ends.last, Some(cell)),
    }
}

/// A list from which a cell with these neighbours goes.
pub(crate) fn without_cell(ends: Ends, cell: usize, link: Link) -> Ends
    requires some { 0 < ends.len }
    requires falls { fall link.before (Some cell) + fall (Some cell) link.after ≤ ends.falls }
    ensures { result ≡ without_cell ends cell link }
{
    Ends {
        first: match link.before {
            None => link.after,
            Some(_) => ends.first,
        },
        last: match link.after {
            None => link.before,
            Some(_) => ends.last,
        },
        len: ends.len - 1,
        falls: ends.falls - fall(link.before, Some(cell)) - fall(Some(cell), link.after)
            + fall(link.before, link.after),
    }
}

/// A list in which another cell stands for one with these neighbours.
pub(crate) fn with_other(ends: Ends, cell: usize, other: usize, link: Link) -> Ends
    requires falls { fall link.before (Some cell) + fall (Some cell) link.after ≤ ends.falls }
    requires room { ends.falls + 2 < 2 ^ 64 }
    ensures { result ≡ with_other ends cell other link }
{
    let others = ends.falls - fall(link.before, Some(cell)) - fall(Some(cell), link.after);
    Ends {
        first: match link.before {
            None => Some(other),
            Some(_) => ends.first,
        },
        last: match link.after {
            None => Some(other),
            Some(_) => ends.last,
        },
        len: ends.len,
        falls: others + fall(link.before, Some(other)) + fall(Some(other), link.after),
    }
}

// 1 where the second cell is less than the first, else 0.
fn fall(before: Option<usize>, after: Option<usize>) -> usize
    ensures value { result ≡ fall before after }
    ensures most { result ≤ 1 }
{
    match before {
        None => 0,
        Some(before) => match after {
            None => 0,
            Some(after) => if after < before { 1 } else { 0 },
        },
    }
}
