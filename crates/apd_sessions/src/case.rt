//! A case as it stands in its file.
//!
//! | A line that begins with | is |
//! |---|---|
//! | `= ` | a new case, and its title |
//! | `: ` | the names of its configuration files, with a blank between; without one there is the built-in configuration |
//! | `> ` | a line of its script |
//! | `#`, or that is empty | passed over |
//! | something else | a line that it has to print, also `! ` and why it ended, where it doesn't end well |

use std::alloc::{AllocError, Global};

/// A script, and what it has to print.
#[derive(Drop)]
pub struct Case<'t> {
    pub title: &'t str,
    pub files: Vec<&'t str>,
    pub script: String,
    pub wanted: String,
}

/// Adds a line to a text.
fn add(text: &mut String, line: &str) -> Result<(), AllocError> {
    text.push_str(line)?;
    text.push('\n')
}

/// Adds the names of files that a text has.
fn add_names<'t>(files: &mut Vec<&'t str>, names: &'t str) -> Result<(), AllocError> {
    for name in names.split_whitespace() {
        files.push(name)?;
    }
    Ok(())
}

/// A text without the blank that it may begin with.
fn without_blank(text: &str) -> &str {
    text.strip_prefix(" ").unwrap_or(text)
}

impl<'t> Case<'t> {
    /// A case of which the title is read.
    pub fn new(alloc: Global, title: &'t str) -> Case<'t> {
        Case {
            title,
            files: Vec::new(alloc),
            script: String::new(alloc),
            wanted: String::new(alloc),
        }
    }

    /// Reads another of its lines.
    pub fn read(&mut self, line: &'t str) -> Result<(), AllocError> {
        if let Some(names) = line.strip_prefix(": ") {
            return add_names(&mut self.files, names);
        }
        if let Some(script) = line.strip_prefix(">") {
            return add(&mut self.script, without_blank(script));
        }
        if line.is_empty() || line.starts_with("#") {
            return Ok(());
        }
        add(&mut self.wanted, line)
    }
}
