//! The words that begin a line, and what a line does.

/// What a line does.
#[derive(Clone, Copy)]
pub(crate) enum Act {
    Begin,
    Path(PathAct),
    File(FileAct),
    Feed(FeedAct),
    Sink(SinkAct),
}

/// A question about paths.
#[derive(Clone, Copy)]
pub(crate) enum PathAct {
    Parse,
    Child,
    Parent,
    Prefix,
    Copy,
    Compare,
    StartsWith,
}

/// What is done with the files.
#[derive(Clone, Copy)]
pub(crate) enum FileAct {
    Add,
    Get,
    IsDir,
    Clashes,
    Children,
    Len,
}

/// What is done with a feed.
#[derive(Clone, Copy)]
pub(crate) enum FeedAct {
    File,
    Files,
    Begin,
    Next,
    Read,
}

/// What is done with a sink.
#[derive(Clone, Copy)]
pub(crate) enum SinkAct {
    Begin,
    Put,
    Held,
}

pub(crate) const ACTS: [(&[u8], Act); 22] = [
    (b"case", Act::Begin),
    (b"parse", Act::Path(PathAct::Parse)),
    (b"child", Act::Path(PathAct::Child)),
    (b"parent", Act::Path(PathAct::Parent)),
    (b"prefix", Act::Path(PathAct::Prefix)),
    (b"copy", Act::Path(PathAct::Copy)),
    (b"compare", Act::Path(PathAct::Compare)),
    (b"starts-with", Act::Path(PathAct::StartsWith)),
    (b"add", Act::File(FileAct::Add)),
    (b"get", Act::File(FileAct::Get)),
    (b"is-dir", Act::File(FileAct::IsDir)),
    (b"clashes", Act::File(FileAct::Clashes)),
    (b"children", Act::File(FileAct::Children)),
    (b"len", Act::File(FileAct::Len)),
    (b"file", Act::Feed(FeedAct::File)),
    (b"files", Act::Feed(FeedAct::Files)),
    (b"feed", Act::Feed(FeedAct::Begin)),
    (b"next", Act::Feed(FeedAct::Next)),
    (b"read", Act::Feed(FeedAct::Read)),
    (b"sink", Act::Sink(SinkAct::Begin)),
    (b"put", Act::Sink(SinkAct::Put)),
    (b"held", Act::Sink(SinkAct::Held)),
];
