//! The texts that runs read.

use plan_io::SureShelf;
use std::alloc::Global;

/// A text and its name.
#[derive(Drop)]
struct Text {
    name: String,
    bytes: String,
}

/// Texts by name.
#[derive(Drop)]
pub(crate) struct Texts {
    texts: Vec<Text>,
}

/// Adds a line so many times, each with its number, from 0 on, in the place of a `#`.
fn push_copies(text: &mut String, line: &str, count: u32) -> Option<()> {
    let (front, rest) = line.split_once('#').unwrap_or((line, ""));
    let has_number = front.len() < line.len();
    for number in 0..count {
        text.push_str(front).ok()?;
        if has_number {
            write!(text, "{number}").ok()?;
        }
        text.push_str(rest).ok()?;
        text.push_str("\n").ok()?;
    }
    Some(())
}

impl Texts {
    /// No text.
    pub(crate) fn new(alloc: Global) -> Texts {
        let texts = Vec::new(alloc);
        Texts { texts }
    }

    /// Adds a text of this name.
    pub(crate) fn add(&mut self, alloc: Global, name: &str, bytes: &str) -> Option<()> {
        let name = String::from_str(alloc, name).ok()?;
        let bytes = String::from_str(alloc, bytes).ok()?;
        self.texts.push(Text { name, bytes }).ok()
    }

    /// The text of this name: of two, the first. None where there is none.
    pub(crate) fn find(&self, name: &str) -> Option<&str> {
        for text in self.texts.iter() {
            if text.name.as_str() == name {
                return Some(text.bytes.as_str());
            }
        }
        None
    }

    /// The texts of these two names, which a blank parts.
    pub(crate) fn find_two(&self, names: &str) -> Option<(&[u8], &[u8])> {
        let (first, second) = names.split_once(' ')?;
        Some((self.find(first)?.as_bytes(), self.find(second)?.as_bytes()))
    }

    /// Adds a text like the one of this base, in which a part stands in the place of another.
    pub(crate) fn change(
        &mut self,
        alloc: Global,
        name: &str,
        base: &str,
        part: &str,
        other: &str,
    ) -> Option<()> {
        let (front, rest) = self.find(base)?.split_once(part)?;
        let bytes = format!(in alloc; "{front}{other}{rest}").ok()?;
        self.add(alloc, name, bytes.as_str())
    }

    /// Adds a text of these lines, where one that begins with `*` stands so many times.
    pub(crate) fn repeat(
        &mut self,
        alloc: Global,
        name: &str,
        count: u32,
        lines: &str,
    ) -> Option<()> {
        let mut bytes = String::new(alloc);
        for line in lines.lines() {
            match line.strip_prefix("*") {
                Some(line) => push_copies(&mut bytes, line, count)?,
                None => push_copies(&mut bytes, line, 1)?,
            }
        }
        self.add(alloc, name, bytes.as_str())
    }

    /// The texts with their names.
    pub(crate) fn named(&self, alloc: Global) -> Option<Vec<(&str, &[u8])>> {
        let mut named = Vec::new(alloc);
        for text in self.texts.iter() {
            named
                .push((text.name.as_str(), text.bytes.as_str().as_bytes()))
                .ok()?;
        }
        Some(named)
    }

    /// A shelf of the texts, each call of which succeeds.
    pub(crate) fn shelf(&self, alloc: Global) -> Option<SureShelf> {
        let named = self.named(alloc)?;
        SureShelf::new(alloc, named.as_slice()).ok()
    }
}
