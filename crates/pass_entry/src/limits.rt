//! The limits of this project's formats, each in one place; POSIX leaves their values open.

/// The size of a file's block, in bytes.
pub const BLOCK_SIZE: u64 = 4_096;

/// The greatest number of blocks of a file.
pub const BLOCK_COUNT: u32 = 1_024;

/// The greatest size of a file, in bytes: all its blocks.
pub const FILE_LIMIT: u64 = 4_194_304;

/// The greatest number of files of a store, and that of its applications' objects.
pub const KIND_LIMIT: u32 = 1_024;

/// The numbers of objects and of their versions are below this one.
pub const NUMBER_LIMIT: u64 = 1 << 48;

/// The greatest number of bytes that a pipe holds.
pub const PIPE_CAPACITY: usize = 65_536;

/// The greatest number of bytes that one call reads or writes.
pub const TRANSFER_LIMIT: usize = 4_096;

/// The greatest number of bytes of a name.
pub const NAME_LIMIT: usize = 255;

/// The greatest number of bytes of a line of text.
pub const LINE_LIMIT: usize = 1_024;
