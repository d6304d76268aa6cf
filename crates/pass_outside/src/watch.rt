//! A disk whose writes somebody watches, by which tests hold a write back.
ghost use Rattle.std.specs.Prelude.{◌≡◌};

use crate::{Area, Disk, Failed};

/// Is told of each write before it is made. It answers nothing and has no faults.
pub trait Watch {
    /// Called before bytes are written to an area at that place.
    fn before(&self, area: Area, at: u64);
}

/// A disk that hands each call on to another, and tells a watch of each write before.
#[derive(Drop)]
pub struct WatchDisk<D, W> {
    inner: D,
    watch: W,
}

impl<D: Disk, W: Watch + Drop> WatchDisk<D, W> {
    /// Watches the writes of a disk.
    pub fn new(inner: D, watch: W) -> WatchDisk<D, W>
        ensures { result.inner ≡ inner }
    {
        WatchDisk { inner, watch }
    }

    /// The disk that was watched.
    pub fn into_inner(self) -> D
        ensures { result ≡ self.inner }
    {
        self.inner
    }
}

impl<D: Disk, W: Watch> Disk for WatchDisk<D, W> {
    ghost view = { λ d. D.view d.inner };

    ghost reads_one = { λ d. D.reads_one d.inner };

    ghost counts_more = { λ d. D.counts_more d.inner };

    ghost counts_now = { λ d. D.counts_now d.inner };

    fn len(&mut self, area: Area) -> Result<u64, Failed> {
        self.inner.len(area)
    }

    fn read(&mut self, area: Area, at: u64, into: &mut [u8]) -> Result<usize, Failed> {
        self.inner.read(area, at, into)
    }

    fn write_at(&mut self, area: Area, at: u64, bytes: &[u8]) -> Result<(), Failed> {
        self.watch.before(area, at);
        self.inner.write_at(area, at, bytes)
    }

    fn cut(&mut self, area: Area, len: u64) -> Result<(), Failed> {
        self.inner.cut(area, len)
    }

    fn sync(&mut self, area: Area) -> Result<(), Failed> {
        self.inner.sync(area)
    }

    fn calls(&self) -> u64 {
        self.inner.calls()
    }

    fn faults(&self) -> u64 {
        self.inner.faults()
    }
}
