//! A row: what its commands are given, what was said of them, and what is wanted.

use base::NoMemory;
use std::alloc::Global;

/// A file that commands are given.
#[derive(Drop)]
pub struct Named {
    pub name: String,
    pub bytes: Vec<u8>,
}

/// A row of the table.
#[derive(Drop)]
pub struct Row {
    pub alloc: Global,
    pub name: String,
    /// The files that commands are given, of which the last of a name counts. They stay for the
    /// rows that follow.
    pub files: Vec<Named>,
    /// What commands are given on the input.
    pub input: Vec<u8>,
    /// Which calls on the files, the input, the output and the report fail: four lists of numbers,
    /// with blanks between them.
    pub failing: String,
    /// The name of the file that OUT is held against.
    pub whole: String,
    pub said: String,
    pub wanted: String,
}

impl Row {
    /// A row of which nothing is told.
    pub fn new(alloc: Global) -> Row {
        Row {
            alloc,
            name: String::new(alloc),
            files: Vec::new(alloc),
            input: Vec::new(alloc),
            failing: String::new(alloc),
            whole: String::new(alloc),
            said: String::new(alloc),
            wanted: String::new(alloc),
        }
    }

    /// Forgets what was told, but for the files.
    pub fn begin(&mut self) {
        self.name.clear();
        self.input.clear();
        self.failing.clear();
        self.whole.clear();
        self.said.clear();
        self.wanted.clear();
    }

    /// Puts a file there.
    pub fn put_file(&mut self, name: &str, bytes: Vec<u8>) -> Result<(), NoMemory> {
        let name = String::from_str(self.alloc, name)?;
        Ok(self.files.push(Named { name, bytes })?)
    }

    /// The content of the file of this name, or nothing.
    pub fn content(&self, name: &str) -> &[u8] {
        for file in self.files.iter().rev() {
            if file.name.as_str() == name {
                return &file.bytes;
            }
        }
        b""
    }

    /// Takes a line that is wanted.
    pub fn want(&mut self, line: &str) -> Result<(), NoMemory> {
        self.wanted.push_str(line)?;
        Ok(self.wanted.push('\n')?)
    }

    /// Says a line.
    pub fn say(&mut self, line: &str) -> Result<(), NoMemory> {
        self.said.push_str(line)?;
        Ok(self.said.push('\n')?)
    }
}

/// The first word, and what stands behind it.
pub fn split(words: &str) -> (&str, &str) {
    words.split_once(' ').unwrap_or((words, ""))
}

/// The numbers of a list that is told, with commas between them; none of a word that is no number.
pub fn listed(alloc: Global, words: &str) -> Result<Vec<u64>, NoMemory> {
    let mut numbers = Vec::new(alloc);
    for word in words.split(',') {
        if let Ok(number) = word.parse::<u64>() {
            numbers.push(number)?;
        }
    }
    Ok(numbers)
}

fn digit(letter: u8) -> u8 {
    match letter {
        b'0'..=b'9' => letter.wrapping_sub(b'0'),
        _ => letter.wrapping_sub(b'A').wrapping_add(10),
    }
}

/// The bytes that a text stands for, in which `%` and two hexadecimal digits are a byte.
pub fn bytes_of(alloc: Global, text: &str) -> Result<Vec<u8>, NoMemory> {
    let mut bytes = Vec::new(alloc);
    for (i, part) in text.split('%').enumerate() {
        let part = part.as_bytes();
        if i == 0 {
            bytes.extend_from_slice(part)?;
        } else if let [high, low, rest @ ..] = part {
            bytes.push(digit(*high).wrapping_mul(16).wrapping_add(digit(*low)))?;
            bytes.extend_from_slice(rest)?;
        }
    }
    Ok(bytes)
}

/// Says bytes: as a text, or as numbers where they are none, and of more than 1,000 how many they
/// are.
pub fn say_bytes(said: &mut String, bytes: &[u8]) -> Result<(), NoMemory> {
    if bytes.len() > 1000 {
        return Ok(write!(said, "{} bytes", bytes.len())?);
    }
    match str::from_utf8(bytes) {
        Ok(text) => Ok(write!(said, "{text:?}")?),
        Err(_) => Ok(write!(said, "{bytes:?}")?),
    }
}
