//! What a command finds at a place.

use tree_ops::Label;

/// What stands at a place. A file of the input has no label.
#[derive(Clone, Copy, PartialEq, Eq)]
pub enum Kind {
    Dir(u16),
    Link,
    File(Option<Label>),
}
