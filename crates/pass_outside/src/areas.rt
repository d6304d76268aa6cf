//! The bytes of both areas in memory.
use crate::Area;
use crate::content::Content;
use std::alloc::{AllocError, Global};
use std::marker::Model;

/// Both areas of a disk in memory.
#[derive(Drop)]
pub struct Areas {
    log: Content,
    store: Content,
}

impl Model for Areas {
    ghost use Rattle.pass_outside.specs.Areas.{Image};
    ghost use Rattle.pass_outside.specs.Codes.{image_code};

    ghost Value = { Image };

    ghost coded = { image_code };

    ghost view = { λ a. record { log = a.log; store = a.store } };
}

impl Areas {
    ghost use Rattle.std.specs.Prelude.{◌≡◌, ◌-◌, ◌++◌, ◌≤◌, length, take, drop, min, IfOk, OnOk, OnErr};
    ghost use Rattle.pass_outside.specs.Areas.{area_of, with_area, written};

    pub fn of(alloc: Global, log: &[u8], store: &[u8]) -> Result<Areas, AllocError>
        ensures { IfOk result (λ a. a ≡ record { log = log.now; store = store.now }) }
    {
        let log = Content::of(alloc, log)?;
        let store = Content::of(alloc, store)?;
        Ok(Areas { log, store })
    }

    pub fn copy(&self, alloc: Global) -> Result<Areas, AllocError>
        ensures { IfOk result (λ a. a ≡ self.now) }
    {
        let log = self.log.copy(alloc)?;
        let store = self.store.copy(alloc)?;
        Ok(Areas { log, store })
    }

    pub fn len(&self, area: Area) -> usize
        ensures { result ≡ length (area_of area self.now) }
    {
        match area {
            Area::Log => self.log.len(),
            Area::Store => self.store.len(),
        }
    }

    pub fn to_vec(&self, alloc: Global, area: Area) -> Result<Vec<u8>, AllocError>
        ensures { IfOk result (λ v. v.items ≡ area_of area self.now) }
    {
        match area {
            Area::Log => self.log.to_vec(alloc),
            Area::Store => self.store.to_vec(alloc),
        }
    }

    pub fn read_into(&self, area: Area, at: u64, into: &mut [u8]) -> usize
        ensures within { result ≤ length into.old }
        ensures count { result ≡ min (length into.old) (length (area_of area self.now) - at) }
        ensures bytes { into.new ≡ take result (drop at (area_of area self.now)) ++ drop result into.old }
    {
        match area {
            Area::Log => self.log.read_into(at, into),
            Area::Store => self.store.read_into(at, into),
        }
    }

    pub fn write(
        &mut self,
        alloc: Global,
        area: Area,
        at: u64,
        bytes: &[u8],
    ) -> Result<(), AllocError>
        ensures ok { OnOk result (self.new ≡ with_area area (written (area_of area self.old) at bytes.now) self.old) }
        ensures err { OnErr result (self.new ≡ self.old) }
    {
        match area {
            Area::Log => self.log.write(alloc, at, bytes),
            Area::Store => self.store.write(alloc, at, bytes),
        }
    }

    pub fn cut(&mut self, area: Area, len: u64)
        ensures { self.new ≡ with_area area (take len (area_of area self.old)) self.old }
    {
        match area {
            Area::Log => self.log.cut(len),
            Area::Store => self.store.cut(len),
        }
    }
}
