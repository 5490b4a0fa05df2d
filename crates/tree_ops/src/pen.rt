//! What a task has used of its limits.
ghost use Rattle.std.specs.Prelude.{◌≡◌, ◌<◌, ◌^◌};

use crate::entry::Label;
use crate::text;
use br_path::Path;

/// What a task writes with: its number, and what it has drawn and written so far over its four trees.
///
/// Labels and bytes never fall; names and the bytes of their paths' texts are those that stand now, without the
/// roots. A path's text has a `/` before each name.
#[derive(Clone, Copy, Debug, PartialEq, Eq)]
pub struct Pen {
    pub task: u32,
    /// The number of the task's next label, which is how many it has drawn.
    pub next: u32,
    /// Bytes written.
    pub bytes: u64,
    pub names: u32,
    pub path_bytes: u32,
    /// Bytes of shared files that were copied before their first change here.
    pub copied: u64,
}

impl Pen {
    ghost use Rattle.tree_ops.specs.Pen.{new_pen, counts_of, with_counts, is_within_limits, within_limits};
    ghost use Rattle.tree_ops.specs.Change.{next_label, named, labelled, unnamed, charged, count_if, counted_anew};

    pub const LABEL_LIMIT: u32 = 4_294_967_295;

    pub const BYTE_LIMIT: u64 = 4_194_304;

    pub const NAME_LIMIT: u32 = 16_384;

    pub const PATH_BYTE_LIMIT: u32 = 1_048_576;

    /// The pen of a task that has done nothing yet.
    pub fn new(task: u32) -> Pen
        ensures { result ≡ new_pen task }
    {
        Pen {
            task,
            next: 0,
            bytes: 0,
            names: 0,
            path_bytes: 0,
            copied: 0,
        }
    }

    /// The label that is drawn next.
    pub fn next_label(&self) -> Label
        ensures { result ≡ next_label (counts_of self.now) }
    {
        Label {
            task: self.task,
            number: self.next,
        }
    }

    /// The pen with one more name, unless a count passes its limit.
    pub fn with_name(&self, at: &Path) -> Option<Pen>
        ensures { result ≡ within_limits (with_counts self.now (named (counts_of self.now) at.now)) }
    {
        let pen = Pen {
            names: self.names.checked_add(1)?,
            path_bytes: self.path_bytes.checked_add(text::rooted_length(at) as u32)?,
            ..*self
        };
        pen.if_within_limits()
    }

    /// The pen with one more label, which stands for these bytes, unless a count passes its limit.
    pub fn with_label(&self, bytes: &[u8]) -> Option<Pen>
        ensures { result ≡ within_limits (with_counts self.now (labelled (counts_of self.now) bytes.now)) }
    {
        let pen = Pen {
            next: self.next.checked_add(1)?,
            bytes: self.bytes.checked_add(bytes.len() as u64)?,
            ..*self
        };
        pen.if_within_limits()
    }

    /// The pen with one more name, and one more label that stands for these bytes, unless a count passes its limit.
    pub fn with_file(&self, at: &Path, bytes: &[u8]) -> Option<Pen>
        ensures { result ≡ within_limits (with_counts self.now (labelled (named (counts_of self.now) at.now) bytes.now)) }
    {
        let pen = Pen {
            names: self.names.checked_add(1)?,
            path_bytes: self.path_bytes.checked_add(text::rooted_length(at) as u32)?,
            next: self.next.checked_add(1)?,
            bytes: self.bytes.checked_add(bytes.len() as u64)?,
            ..*self
        };
        pen.if_within_limits()
    }

    /// The pen, unless a count of it is past its limit.
    pub fn if_within_limits(self) -> Option<Pen>
        ensures { result ≡ within_limits self }
    {
        let fits = self.next <= Pen::LABEL_LIMIT
            && self.bytes <= Pen::BYTE_LIMIT
            && self.names <= Pen::NAME_LIMIT
            && self.path_bytes <= Pen::PATH_BYTE_LIMIT;
        fits.then_some(self)
    }

    /// The pen with one name less.
    pub fn without_name(&self, at: &Path) -> Option<Pen>
        ensures { result ≡ within_limits (with_counts self.now (unnamed (counts_of self.now) at.now)) }
    {
        let pen = Pen {
            names: self.names.saturating_sub(1),
            path_bytes: self
                .path_bytes
                .saturating_sub(text::rooted_length(at) as u32),
            ..*self
        };
        pen.if_within_limits()
    }

    /// The pen with a label more, where one is drawn, and bytes written, unless a count passes its limit.
    pub fn charged(&self, draws: bool, bytes: usize) -> Option<Pen>
        ensures { result ≡ within_limits (with_counts self.now (charged (counts_of self.now) (count_if draws 1) bytes)) }
    {
        let labels = if draws { 1 } else { 0 };
        let pen = Pen {
            next: self.next.checked_add(labels)?,
            bytes: self.bytes.checked_add(bytes as u64)?,
            ..*self
        };
        pen.if_within_limits()
    }

    /// The pen where so many names, with so many bytes of texts, stand in place of others, unless a count passes its limit.
    pub fn counted_anew(&self, old: (usize, u128), new: (usize, u128)) -> Option<Pen>
        requires { new.1 < 2 ^ 127 }
        ensures { result ≡ within_limits (with_counts self.now (counted_anew (counts_of self.now) old new)) }
    {
        let names = (self.names as u128 + new.0 as u128).saturating_sub(old.0 as u128);
        let path_bytes = (self.path_bytes as u128 + new.1).saturating_sub(old.1);
        if names > Pen::NAME_LIMIT as u128 || path_bytes > Pen::PATH_BYTE_LIMIT as u128 {
            return None;
        }
        let pen = Pen {
            names: names as u32,
            path_bytes: path_bytes as u32,
            ..*self
        };
        pen.if_within_limits()
    }
}
