//! The names of what may be wrong with a line.
use root_image::ImageKind;

pub(crate) fn kind_name(kind: ImageKind) -> &'static [u8] {
    match kind {
        ImageKind::Cut => b"cut",
        ImageKind::Form => b"form",
        ImageKind::Order => b"order",
        ImageKind::Parent => b"parent",
        ImageKind::Group => b"group",
        ImageKind::Size => b"size",
        ImageKind::Count => b"count",
        ImageKind::After => b"after",
    }
}
