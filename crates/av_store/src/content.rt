ghost use Rattle.std.specs.Prelude.{◌≡◌, ◌≤◌, ◌<◌, ◌^◌, [], IfOk, OnOk, OnErr, length, take};
ghost use Rattle.av_base.specs.Overwrite.{overwritten};

use av_base::ByteList;
use std::alloc::{AllocError, Global};
use std::marker::Model;
use std::sync::Arc;

/// The bytes of a stream, which its copies share until one is written to. Contracts see their list.
#[derive(Debug, Drop)]
pub struct Content {
    bytes: Arc<ByteList, Global>,
    // How many of them are the stream's: a cut takes no memory.
    count: usize,
    alloc: Global,
}

impl Model for Content {
    ghost use Rattle.std.specs.Prelude.{◌≤◌, List, ℕ, length, take};
    ghost use Rattle.std.specs.Arc.{arc_value};

    ghost Value = { List ℕ };

    ghost view = { λ c. take c.count (arc_value c.bytes) };

    ghost invariant = { λ c. c.count ≤ length (arc_value c.bytes) };
}

impl Content {
    /// No bytes.
    pub fn empty(alloc: Global) -> Result<Content, AllocError>
        ensures { IfOk result (λ c. c ≡ []) }
    {
        Content::of(alloc, ByteList::from_vec(Vec::new(alloc)))
    }

    // These bytes, which nobody shares.
    fn of(alloc: Global, bytes: ByteList) -> Result<Content, AllocError>
        ensures { IfOk result (λ c. c ≡ bytes) }
    {
        let count = bytes.len();
        match Arc::new(alloc, bytes) {
            Ok(bytes) => Ok(Content {
                bytes,
                count,
                alloc,
            }),
            Err(_) => Err(AllocError),
        }
    }

    /// The bytes.
    pub fn as_slice(&self) -> &[u8]
        ensures { result.now ≡ self.now }
    {
        &self.bytes.as_slice()[..self.count]
    }

    /// How many there are.
    pub fn len(&self) -> usize
        ensures len { result ≡ length self.now }
        ensures small { result < 2 ^ 63 }
    {
        self.as_slice().len()
    }

    /// Writes bytes over those from `offset` on, in place unless they are shared. Where memory is refused all stays.
    pub fn overwrite(&mut self, offset: usize, bytes: &[u8]) -> Result<(), AllocError>
        requires { offset ≤ length self.old }
        ensures ok { OnOk result (self.new ≡ overwritten self.old offset bytes.now) }
        ensures err { OnErr result (self.new ≡ self.old) }
    {
        self.own()?;
        let count = self.count;
        let Some(own) = Arc::get_mut(&mut self.bytes) else {
            return Err(AllocError);
        };
        own.truncate(count);
        own.overwrite(offset, bytes)?;
        self.count = own.len();
        Ok(())
    }

    // Has the bytes alone: copied, where they are shared.
    fn own(&mut self) -> Result<(), AllocError>
        ensures { self.new ≡ self.old }
    {
        if Arc::strong_count(&self.bytes) > 1 {
            let copy = ByteList::copied(self.alloc, self.as_slice())?;
            *self = Content::of(self.alloc, copy)?;
        }
        Ok(())
    }

    /// Keeps the first bytes alone.
    pub fn truncate(&mut self, count: usize)
        ensures { self.new ≡ take count self.old }
    {
        self.count = self.count.min(count);
    }
}

impl Clone for Content {
    ghost use Rattle.std.specs.Prelude.{◌≡◌};

    ghost is_clone = { λ v w. w ≡ v };

    fn clone(&self) -> Result<Content, AllocError> {
        Ok(Content {
            bytes: Arc::try_clone(&self.bytes)?,
            count: self.count,
            alloc: self.alloc,
        })
    }
}
