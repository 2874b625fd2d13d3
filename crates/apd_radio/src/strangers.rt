//! Who sent to a port and wasn't heard.
ghost use Rattle.std.specs.Prelude.{◌≡◌};

use std::alloc::{AllocError, Global};
use std::sync::Arc;
use std::sync::atomic::{AtomicU64, Ordering};

/// A count that threads share: how many datagrams were passed over so far, since they came from elsewhere. A clone is
/// another handle of the same count.
#[derive(Clone, Drop)]
pub struct Strangers {
    count: Arc<AtomicU64, Global>,
}

// Takes what threads may share, and nothing else.
fn shareable<T: Send + Sync>(shared: T) -> T
    ensures { result ≡ shared }
{
    shared
}

impl Strangers {
    /// None was passed over.
    ///
    /// Errors: memory runs out.
    pub(crate) fn new(alloc: Global) -> Result<Strangers, AllocError> {
        Ok(shareable(Strangers {
            count: Arc::new(alloc, AtomicU64::new(0))?,
        }))
    }

    /// How many datagrams were passed over. It takes no memory.
    pub fn count(&self) -> u64 {
        self.count.load(Ordering::SeqCst)
    }

    /// One more was. Behind the greatest number comes 0.
    pub(crate) fn pass_over(&self) {
        self.count.fetch_add(1, Ordering::SeqCst);
    }
}
