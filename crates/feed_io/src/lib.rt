//! Where the input comes from and where the output goes.
//!
//! A feed gives the files of the input one by one, and a sink takes the bytes of an output piece by piece. Each
//! has a count of its faults, so that a caller's contract can say that a fault it answers was the feed's or the
//! sink's. Those in memory tell what they hold; those over real files and streams tell nothing.
//!
//! `read_all` takes the files of a feed into the map that the rest works on. It allows 65,536 files with 67,108,864
//! bytes of contents together, and takes time in proportion to the contents and to the files times the logarithm of
//! their number.
#![tactic(auto)]

mod feed;
mod file_sink;
mod folder_feed;
mod listed;
mod memory_feed;
mod memory_sink;
mod read;
mod sink;
mod stream_sink;
mod walk;

pub use feed::{Feed, FeedError, FeedFile};
pub use file_sink::FileSink;
pub use folder_feed::FolderFeed;
pub use memory_feed::{FeedFiles, MemoryFeed};
pub use memory_sink::MemorySink;
pub use read::{ReadFault, one_reading, read_all};
pub use sink::{Sink, SinkError};
pub use stream_sink::StreamSink;
