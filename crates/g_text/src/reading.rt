//! The reading of a lambda, line by line. What is read is written again and compared, so a line
//! need only be read as what it can be.

ghost use Rattle.std.specs.Prelude.{◌≡◌, IfOk};
ghost use Rattle.g_text.specs.Texts.{lambda_text};

use crate::ops::{binary_named, unary_named};
use crate::writing::write_lambda;
use base::{Name, NoMemory};
use g_graph::{Kind, Lambda, Node, Object, Op, Origin, Region};
use smallvec::SmallVec;
use std::alloc::{AllocError, Global};
use std::str::SplitWhitespace;
use val_core::Leaf;

/// A function and its name.
#[derive(Drop)]
pub struct Named {
    pub name: Name,
    pub lambda: Lambda,
}

/// Why a text is not read.
#[derive(Debug, Drop)]
pub enum ReadFault {
    /// The line of this number, from 1, cannot stand where it does.
    Line(u32),
    /// It ends before the function does.
    Short,
    /// It is not as the function that it tells of is written.
    Other,
    /// There is no memory.
    NoMemory,
}

impl From<NoMemory> for ReadFault {
    fn from(_fault: NoMemory) -> ReadFault {
        ReadFault::NoMemory
    }
}

impl From<AllocError> for ReadFault {
    fn from(_fault: AllocError) -> ReadFault {
        ReadFault::NoMemory
    }
}

// The first line of a function.
#[derive(Drop)]
struct Head {
    number: u32,
    name: Name,
    params: u32,
    next: u32,
}

// What the lines so far say: the regions that have no results yet, outermost first, and the body,
// once it has.
#[derive(Drop)]
struct Reader {
    alloc: Global,
    head: Option<Head>,
    objects: Vec<Object>,
    open: Vec<Region>,
    body: Option<Region>,
}

fn next_number(words: &mut SplitWhitespace<'_>) -> Option<u32> {
    words.next()?.parse::<u32>().ok()
}

// The number after this word.
fn number_after(words: &mut SplitWhitespace<'_>, word: &str) -> Option<u32> {
    if words.next()? == word {
        next_number(words)
    } else {
        None
    }
}

fn head_of(alloc: Global, words: &mut SplitWhitespace<'_>) -> Result<Option<Head>, NoMemory> {
    let Some(number) = next_number(words) else {
        return Ok(None);
    };
    let Some(name) = words.next() else {
        return Ok(None);
    };
    let name = Name::from_slice(alloc, name.as_bytes())?;
    let Some(params) = number_after(words, "params") else {
        return Ok(None);
    };
    let Some(_values) = number_after(words, "values") else {
        return Ok(None);
    };
    let Some(next) = number_after(words, "next") else {
        return Ok(None);
    };
    Ok(Some(Head {
        number,
        name,
        params,
        next,
    }))
}

fn leaf_of(word: &str) -> Option<Leaf> {
    let (offset, width) = word.split_once(':')?;
    Some(Leaf {
        offset: offset.parse::<u32>().ok()?,
        width: width.parse::<u8>().ok()?,
    })
}

fn object_of(alloc: Global, words: &mut SplitWhitespace<'_>) -> Result<Option<Object>, NoMemory> {
    let Some(_index) = next_number(words) else {
        return Ok(None);
    };
    let Some(size) = number_after(words, "size") else {
        return Ok(None);
    };
    let mut leaves = Vec::new(alloc);
    for word in words {
        if let Some(leaf) = leaf_of(word) {
            leaves.push(leaf)?;
        }
    }
    Ok(Some(Object { size, leaves }))
}

fn kind_of(letter: char) -> Option<Kind> {
    match letter {
        'v' => Some(Kind::Value),
        'm' => Some(Kind::Memory),
        'i' => Some(Kind::Io),
        _ => None,
    }
}

// The region that begins with a line of these words.
fn region_of(alloc: Global, words: &mut SplitWhitespace<'_>) -> Result<Region, NoMemory> {
    let mut args = Vec::new(alloc);
    for letter in words.next().unwrap_or("").chars() {
        if let Some(kind) = kind_of(letter) {
            args.push(kind)?;
        }
    }
    Ok(Region {
        args,
        nodes: Vec::new(alloc),
        results: Vec::new(alloc),
    })
}

fn out_of(text: &str) -> Option<Origin> {
    let (node, port) = text.split_once('.').unwrap_or((text, "0"));
    Some(Origin::Out {
        node: node.parse::<u32>().ok()?,
        port: port.parse::<u32>().ok()?,
    })
}

/// The origin of this text, as `a2`, `n7` or `n7.1`; none of other texts. The text of a number may
/// have zeros or a sign before it.
pub fn origin_named(word: &str) -> Option<Origin> {
    match word.strip_prefix('a') {
        Some(index) => Some(Origin::Arg(index.parse::<u32>().ok()?)),
        None => out_of(word.strip_prefix('n')?),
    }
}

fn op_of(word: &str, words: &mut SplitWhitespace<'_>) -> Option<Op> {
    match word {
        "Const" => Some(Op::Const(next_number(words)?)),
        "Undef" => Some(Op::Undef),
        "Local" => Some(Op::Local(next_number(words)?)),
        "Delta" => Some(Op::Delta(next_number(words)?)),
        "Load" => Some(Op::Load(words.next()?.parse::<u8>().ok()?)),
        "Store" => Some(Op::Store(words.next()?.parse::<u8>().ok()?)),
        "Clear" => Some(Op::Clear(next_number(words)?)),
        "PtrEq" => Some(Op::PtrEq),
        "Apply" => Some(Op::Apply(next_number(words)?)),
        "Put" => Some(Op::Put),
        "Exit" => Some(Op::Exit),
        "Get" => Some(Op::Get),
        "Gamma" => Some(Op::Gamma),
        "Theta" => Some(Op::Theta),
        _ => operation_of(word),
    }
}

fn operation_of(word: &str) -> Option<Op> {
    match binary_named(word) {
        Some(op) => Some(Op::Bin(op)),
        None => Some(Op::Un(unary_named(word)?)),
    }
}

// The node whose line begins with its number and a colon.
fn node_of(
    alloc: Global,
    word: &str,
    words: &mut SplitWhitespace<'_>,
) -> Result<Option<Node>, NoMemory> {
    let Some(id) = id_of(word) else {
        return Ok(None);
    };
    let Some(op) = op_of(words.next().unwrap_or(""), words) else {
        return Ok(None);
    };
    let mut inputs = SmallVec::new(alloc);
    for word in words {
        if let Some(origin) = origin_named(word.trim_matches(['(', ')'])) {
            inputs.push(origin)?;
        }
    }
    Ok(Some(Node {
        id,
        op,
        inputs,
        regions: Vec::new(alloc),
    }))
}

fn id_of(word: &str) -> Option<u32> {
    word.strip_suffix(':')?.parse::<u32>().ok()
}

impl Reader {
    fn new(alloc: Global) -> Reader {
        Reader {
            alloc,
            head: None,
            objects: Vec::new(alloc),
            open: Vec::new(alloc),
            body: None,
        }
    }

    // Takes the next line, and says whether it can stand there.
    fn take(&mut self, line: &str) -> Result<bool, NoMemory> {
        let mut words = line.split_whitespace();
        match words.next().unwrap_or("") {
            "function" => self.take_head(&mut words),
            "object" => self.take_object(&mut words),
            "args" => self.begin_region(&mut words),
            "region" => Ok(true),
            "results" => self.end_region(&mut words),
            word => self.take_node(word, &mut words),
        }
    }

    fn take_head(&mut self, words: &mut SplitWhitespace<'_>) -> Result<bool, NoMemory> {
        self.head = head_of(self.alloc, words)?;
        Ok(self.head.is_some())
    }

    fn take_object(&mut self, words: &mut SplitWhitespace<'_>) -> Result<bool, NoMemory> {
        match object_of(self.alloc, words)? {
            Some(object) => {
                self.objects.push(object)?;
                Ok(true)
            }
            None => Ok(false),
        }
    }

    fn begin_region(&mut self, words: &mut SplitWhitespace<'_>) -> Result<bool, NoMemory> {
        self.open.push(region_of(self.alloc, words)?)?;
        Ok(true)
    }

    // The node is one of the region that is open.
    fn take_node(&mut self, word: &str, words: &mut SplitWhitespace<'_>) -> Result<bool, NoMemory> {
        let Some(node) = node_of(self.alloc, word, words)? else {
            return Ok(false);
        };
        match self.open.last_mut() {
            Some(region) => {
                region.nodes.push(node)?;
                Ok(true)
            }
            None => Ok(false),
        }
    }

    // The region that is open is the body, or one of the last node before it.
    fn end_region(&mut self, words: &mut SplitWhitespace<'_>) -> Result<bool, NoMemory> {
        let Some(mut region) = self.open.pop() else {
            return Ok(false);
        };
        for word in words {
            if let Some(origin) = origin_named(word) {
                region.results.push(origin)?;
            }
        }
        match self.open.last_mut() {
            Some(around) => nest(around, region),
            None => {
                self.body = Some(region);
                Ok(true)
            }
        }
    }

    // The function of all lines; none where a part of it is lacking.
    fn finish(self) -> Option<Named> {
        let Reader {
            alloc: _,
            head,
            objects,
            open: _,
            body,
        } = self;
        let Head {
            number,
            name,
            params,
            next,
        } = head?;
        Some(Named {
            name,
            lambda: Lambda {
                number,
                params,
                objects,
                body: body?,
                next,
            },
        })
    }
}

// Makes a region one of the last node of another.
fn nest(around: &mut Region, region: Region) -> Result<bool, NoMemory> {
    match around.nodes.last_mut() {
        Some(node) => {
            node.regions.push(region)?;
            Ok(true)
        }
        None => Ok(false),
    }
}

fn read_lines(alloc: Global, text: &str) -> Result<Named, ReadFault> {
    let mut reader = Reader::new(alloc);
    for (number, line) in (1u32..).zip(text.lines()) {
        if !reader.take(line)? {
            return Err(ReadFault::Line(number));
        }
    }
    reader.finish().ok_or(ReadFault::Short)
}

/// The function of which this is the text, with its name. `NoMemory` only where the allocator has
/// none. It takes time as `write_lambda`.
pub fn read(alloc: Global, text: &str) -> Result<Named, ReadFault>
    ensures { IfOk result (λ read. text.now ≡ lambda_text read.name read.lambda) }
{
    let found = read_lines(alloc, text)?;
    let mut again = Vec::new(alloc);
    write_lambda(&mut again, found.name.as_slice(), &found.lambda)?;
    if again.as_slice() == text.as_bytes() {
        Ok(found)
    } else {
        Err(ReadFault::Other)
    }
}
