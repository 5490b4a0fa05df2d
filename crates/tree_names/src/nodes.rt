//! Whether two trees have the same at a path.
ghost use Rattle.std.specs.Prelude.{◌≡◌};
ghost use Rattle.tree_ops.specs.Tree.{node_at, entry_at, text_at};
ghost use Rattle.tree_names.specs.Changes.{is_node};
ghost use Rattle.std.specs.Option.{option_copied};
ghost use Rattle.tree_names.specs.Parts as parts;

use br_path::Path;
use tree_ops::{Entry, TreeOps};

/// Whether two trees have the same at a path: nothing, folders of one mode, links of one text, or files of one label.
pub(crate) fn is_same_node<T: TreeOps>(one: &T, other: &T, at: &Path) -> bool
    ensures { result ≡ is_node (node_at (T.tree one.now) at.now) (node_at (T.tree other.now) at.now) }
{
    let entry = one.lookup(at);
    let other_entry = other.lookup(at);
    let text = link_text(one, entry, at);
    let other_text = link_text(other, other_entry, at);
    are_parts(entry, other_entry, text, other_text)
}

/// The text of the link at a path, if a link stands there: nothing else is looked up twice.
fn link_text<'t, T: TreeOps>(tree: &'t T, entry: Option<Entry>, at: &Path) -> Option<&'t [u8]>
    requires { entry ≡ entry_at (T.tree tree.now) at.now }
    ensures { option_copied result ≡ text_at (T.tree tree.now) at.now }
{
    match entry {
        Some(Entry::Link) => tree.text(at),
        _ => None,
    }
}

fn are_parts(
    one: Option<Entry>,
    other: Option<Entry>,
    text: Option<&[u8]>,
    other_text: Option<&[u8]>,
) -> bool
    ensures { result ≡ parts.are_parts one other (option_copied text.entry) (option_copied other_text.entry) }
{
    match (one, other) {
        (None, None) => true,
        (Some(Entry::Dir(mode)), Some(Entry::Dir(other))) => mode == other,
        (Some(Entry::Link), Some(Entry::Link)) => text == other_text,
        (Some(Entry::File(label)), Some(Entry::File(other))) => {
            label.task == other.task && label.number == other.number
        }
        _ => false,
    }
}
