//! A case: a command, a text, and an edit of it, as they stand in a line.

use std::alloc::{AllocError, Global};
use x_text::Edit;

/// What a line asks for.
#[derive(Clone, Copy)]
pub(crate) struct Case<'c> {
    pub(crate) command: &'c str,
    text: &'c str,
    start: usize,
    end: usize,
    insert: &'c str,
}

impl<'c> Case<'c> {
    /// Reads `COMMAND "TEXT"`, whose edit leaves the text as it is, or `COMMAND "TEXT" START END "INSERT"`.
    pub(crate) fn read(line: &'c str) -> Option<Case<'c>> {
        let (command, left) = line.split_once(" \"")?;
        let (text, left) = left.split_once('"')?;
        let mut case = Case {
            command,
            text,
            start: 0,
            end: 0,
            insert: "",
        };
        if !left.is_empty() {
            let (start, left) = left.strip_prefix(' ')?.split_once(' ')?;
            let (end, left) = left.split_once(" \"")?;
            case.start = start.parse().ok()?;
            case.end = end.parse().ok()?;
            case.insert = left.strip_suffix('"')?;
        }
        Some(case)
    }

    /// The bytes of its texts, in which `\n` stands for a line feed.
    pub(crate) fn change(&self, alloc: Global) -> Result<Change, AllocError> {
        let text = self.text.replace(alloc, "\\n", "\n")?;
        let insert = self.insert.replace(alloc, "\\n", "\n")?;
        Ok(Change {
            text,
            start: self.start,
            end: self.end,
            insert,
        })
    }
}

/// A text and an edit of it.
#[derive(Drop)]
pub(crate) struct Change {
    text: String,
    start: usize,
    end: usize,
    insert: String,
}

impl Change {
    pub(crate) fn text(&self) -> &[u8] {
        self.text.as_bytes()
    }

    pub(crate) fn edit(&self) -> Edit<'_> {
        Edit {
            start: self.start,
            end: self.end,
            insert: self.insert.as_bytes(),
        }
    }

    /// The edit of the text that the edit leaves which takes it back.
    pub(crate) fn back(&self) -> Edit<'_> {
        Edit {
            start: self.start,
            end: self.start.saturating_add(self.insert.len()),
            insert: self.text().get(self.start..self.end).unwrap_or_default(),
        }
    }
}
