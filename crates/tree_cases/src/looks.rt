//! What a tree has at one path, and where a walk leads.
ghost use Rattle.tree_ops.specs.Tree.{IsTree};

use crate::act::Look;
use crate::faults::print_change;
use crate::shows::{put_bytes, put_label, put_mode, put_rooted};
use crate::text::is_walk;
use br_path::Path;
use case_text::{Page, Stopped};
use tree_ops::{Entry, TreeOps};

/// Prints what a tree has at a path.
pub(crate) fn look<T: TreeOps>(
    page: &mut Page,
    tree: &T,
    look: Look,
    at: &Path,
) -> Result<(), Stopped> {
    match look {
        Look::Lookup => lookup(page, tree.lookup(at)),
        Look::Mode => mode(page, tree.mode(at)),
        Look::Text => text(page, tree.text(at)),
        Look::Bytes => bytes(page, tree.bytes(at)),
        Look::Children => children(page, tree, at),
    }
}

fn lookup(page: &mut Page, entry: Option<Entry>) -> Result<(), Stopped> {
    match entry {
        None => page.line(b"= none", b""),
        Some(Entry::Link) => page.line(b"= link", b""),
        Some(Entry::Dir(mode)) => {
            page.put(b"= dir")?;
            put_mode(page, mode)?;
            page.end()
        }
        Some(Entry::File(label)) => {
            page.put(b"= file")?;
            put_label(page, label)?;
            page.end()
        }
    }
}

fn mode(page: &mut Page, mode: Option<u16>) -> Result<(), Stopped> {
    match mode {
        None => page.line(b"= none", b""),
        Some(mode) => {
            page.put(b"=")?;
            put_mode(page, mode)?;
            page.end()
        }
    }
}

fn text(page: &mut Page, text: Option<&[u8]>) -> Result<(), Stopped> {
    match text {
        None => page.line(b"= none", b""),
        Some(text) => {
            page.put(b"= \"")?;
            page.line(text, b"\"")
        }
    }
}

fn bytes(page: &mut Page, bytes: Option<&[u8]>) -> Result<(), Stopped> {
    match bytes {
        None => page.line(b"= none", b""),
        Some(bytes) => {
            page.put(b"= ")?;
            put_bytes(page, bytes)?;
            page.end()
        }
    }
}

fn children<T: TreeOps>(page: &mut Page, tree: &T, at: &Path) -> Result<(), Stopped> {
    let names = tree.children(page.alloc(), at)?;
    page.number(b"= names ", names.items.len() as u64)?;
    for name in &names.items {
        page.line(b"  ", name.as_slice())?;
    }
    Ok(())
}

/// Prints where a walk leads.
pub(crate) fn walk<T: TreeOps>(
    page: &mut Page,
    tree: &T,
    walk: &[u8],
    follow: bool,
) -> Result<(), Stopped>
    requires sound { IsTree (T.tree tree.now) }
{
    if !is_walk(walk) {
        return Err(Stopped);
    }
    match tree.resolve(page.alloc(), walk, follow) {
        Err(fault) => print_change(page, Err(fault)),
        Ok(place) => {
            page.put(b"= ")?;
            put_rooted(page, &place)?;
            page.end()
        }
    }
}
