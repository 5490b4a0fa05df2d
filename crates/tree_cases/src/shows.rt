//! Whole trees, the counts of a pen, and what a world may read.
ghost use Rattle.tree_ops.specs.Held.{IsSealed};

use br_path::Path;
use case_text::{Page, Stopped};
use tree_ops::{Entry, Label, Pen, TreeOps};
use tree_worlds::World;

/// Prints all that stands in a tree, each folder before what is below it.
pub(crate) fn show<T: TreeOps>(page: &mut Page, tree: &T) -> Result<(), Stopped> {
    let mut left = Vec::new(page.alloc());
    left.push(Path::root(page.alloc()))?;
    for _ in 0..=Pen::NAME_LIMIT {
        match left.pop() {
            None => return Ok(()),
            Some(at) => {
                put_entry(page, tree, &at)?;
                push_children(page, tree, &at, &mut left)?;
            }
        }
    }
    Ok(())
}

/// Puts what stands directly below a path before all that is left, the first name last.
fn push_children<T: TreeOps>(
    page: &mut Page,
    tree: &T,
    at: &Path,
    left: &mut Vec<Path>,
) -> Result<(), Stopped> {
    let names = tree.children(page.alloc(), at)?;
    for name in names.items.iter().rev() {
        left.push(at.child(page.alloc(), name.as_slice())?)?;
    }
    Ok(())
}

fn put_entry<T: TreeOps>(page: &mut Page, tree: &T, at: &Path) -> Result<(), Stopped> {
    page.put(b"  ")?;
    put_rooted(page, at)?;
    match tree.lookup(at) {
        None => Err(Stopped),
        Some(Entry::Dir(mode)) => {
            put_mode(page, mode)?;
            page.end()
        }
        Some(Entry::Link) => page.line(b" -> ", tree.text(at).ok_or(Stopped)?),
        Some(Entry::File(label)) => put_file(page, tree, at, label),
    }
}

fn put_file<T: TreeOps>(page: &mut Page, tree: &T, at: &Path, label: Label) -> Result<(), Stopped> {
    put_mode(page, tree.mode(at).ok_or(Stopped)?)?;
    put_label(page, label)?;
    page.put(b" ")?;
    put_bytes(page, tree.bytes(at).ok_or(Stopped)?)?;
    page.end()
}

/// Puts the bytes of a file in quotes, each that isn't printable, and `{`, as a line writes it.
pub(crate) fn put_bytes(page: &mut Page, bytes: &[u8]) -> Result<(), Stopped> {
    page.put(b"\"")?;
    for byte in bytes {
        put_byte(page, *byte)?;
    }
    page.put(b"\"")
}

fn put_byte(page: &mut Page, byte: u8) -> Result<(), Stopped> {
    if byte >= 32 && byte <= 126 && byte != b'{' {
        return page.put(&[byte]);
    }
    let spelled = format!(in page.alloc(); "{{0x{byte:02x}}}")?;
    page.put(spelled.as_bytes())
}

/// Puts a path with a `/` before each name.
pub(crate) fn put_rooted(page: &mut Page, at: &Path) -> Result<(), Stopped> {
    page.put(b"/")?;
    page.put_path(at)
}

pub(crate) fn put_mode(page: &mut Page, mode: u16) -> Result<(), Stopped> {
    let digits = format!(in page.alloc(); " {mode:04o}")?;
    page.put(digits.as_bytes())
}

/// Puts a label: its task, a dot and its number.
pub(crate) fn put_label(page: &mut Page, label: Label) -> Result<(), Stopped> {
    page.put(b" ")?;
    page.put_number(u64::from(label.task))?;
    page.put(b".")?;
    page.put_number(u64::from(label.number))
}

/// Prints the counts of a pen.
pub(crate) fn counts(page: &mut Page, pen: &Pen) -> Result<(), Stopped> {
    page.number(b"= task ", u64::from(pen.task))?;
    page.number(b"  labels ", u64::from(pen.next))?;
    page.number(b"  bytes ", pen.bytes)?;
    page.number(b"  names ", u64::from(pen.names))?;
    page.number(b"  path bytes ", u64::from(pen.path_bytes))
}

/// Prints the readable trees of a world.
pub(crate) fn readable<T: TreeOps>(page: &mut Page, world: &World<T>) -> Result<(), Stopped> {
    for shown in &world.shown.items {
        page.number(b"= build tree of task ", u64::from(shown.task))?;
        show(page, &shown.tree)?;
    }
    Ok(())
}

/// Prints a copy of a tree, and whether it is sealed.
pub(crate) fn copied<T: TreeOps>(page: &mut Page, tree: &T) -> Result<(), Stopped>
    requires sealed { IsSealed (T.tree tree.now) (T.sealed tree.now) }
{
    let copy = tree.copy(page.alloc())?;
    page.whether(b"= sealed ", copy.is_sealed())?;
    show(page, &copy)
}
