//! What a run does that a trace can't say.

/// Why a call of the run is in no line of the trace, or what isn't known of one that is.
#[derive(Clone, Copy, PartialEq, Eq)]
pub enum Skip {
    /// It changes nothing that a trace says. This alone isn't told.
    Quiet,
    /// It speaks with a socket, or makes one.
    Socket,
    /// It shares memory in a way of which its calls don't tell the flow.
    Memory,
    /// It moves bytes by a queue that its calls don't show.
    Queue,
    /// It moves bytes from or to a device that keeps or brings some.
    Device,
    /// It changes where names begin.
    Root,
    /// It uses a descriptor of which nothing is known, or one too many.
    Descriptor,
    /// It names a FIFO for which no process has a descriptor left.
    Fifo,
    /// There are more files than a store may have.
    Files,
    /// It goes beyond the size of a file in a store.
    Size,
    /// It waits for a process that the trace hasn't as its child.
    Child,
    /// The text doesn't have all bytes that it moved.
    Bytes,
    /// It is a program, and what loads it can't be found out any more.
    Loader,
    /// The file was read in part, so whether it changed since the store has it isn't known.
    Part,
    /// A file was known by the name of a link before a call told of that, in the run or in the store.
    Link,
    /// The text was written without `-y`: folders, links and descriptors that were given are known by their spelling alone.
    Paths,
    /// Two calls on the file overlapped, of which one changed it: which one came first isn't known.
    OverlapFile,
    /// The same of a name.
    OverlapName,
    /// The same of two that read the pipe, or two that wrote to it; or a read ended before the write whose bytes it took.
    OverlapPipe,
}

impl Skip {
    /// The word by which the reason is told.
    pub fn word(&self) -> &'static str {
        match self {
            Skip::Quiet => "quiet",
            Skip::Socket => "socket",
            Skip::Memory => "memory",
            Skip::Queue => "queue",
            Skip::Device => "device",
            Skip::Root => "root",
            Skip::Descriptor => "descriptor",
            Skip::Fifo => "fifo",
            Skip::Files => "files",
            Skip::Size => "size",
            Skip::Child => "child",
            Skip::Bytes => "bytes",
            Skip::Loader => "loader",
            Skip::Part => "part",
            Skip::Link => "link",
            Skip::Paths => "paths",
            Skip::OverlapFile => "overlap-file",
            Skip::OverlapName => "overlap-name",
            Skip::OverlapPipe => "overlap-pipe",
        }
    }
}
