//! Access to a core by who brings its batches to the device.
ghost use Rattle.std.specs.Prelude.{◌≡◌, IfErr};
ghost use Rattle.apd_steps.specs.Calls.{FailTells, Made, PublishTells, TakeTells, exactly, refused_by};

use apd_core::{Core, PublishFault};
use apd_journal::Batch;
use apd_store::Receipt;
use std::alloc::AllocError;

/// A core that gives batches away and settles them: the core itself, or one that others call in between. What a call
/// does is said once, here; how much of it is known of the core before and after, by `made`.
pub trait Settles {
    /// That a call was made by which a core went so.
    ghost made: { Made Self };

    /// The core's `take`.
    fn take(&mut self) -> Result<Option<Batch>, AllocError>
        ensures { made (TakeTells result) self.old self.new };

    /// The core's `publish`.
    fn publish(&mut self, receipt: Receipt) -> Result<(), (Receipt, PublishFault)>
        ensures told { made (PublishTells (refused_by result) receipt) self.old self.new }
        ensures back { IfErr result (λ back. back.0 ≡ receipt) };

    /// The core's `fail`.
    fn fail(&mut self)
        ensures { made FailTells self.old self.new };
}

// Of the core itself all is known.
impl Settles for Core {
    ghost made = { exactly };

    #[tactic(auto, using(crate::proofs::CallLemmas::take_tells))]
    fn take(&mut self) -> Result<Option<Batch>, AllocError> {
        self.sound();
        Core::take(self)
    }

    #[tactic(auto, using(crate::proofs::CallLemmas::publish_tells, crate::proofs::CallLemmas::comes_back))]
    fn publish(&mut self, receipt: Receipt) -> Result<(), (Receipt, PublishFault)> {
        self.sound();
        Core::publish(self, receipt)
    }

    fn fail(&mut self) {
        self.sound();
        Core::fail(self);
    }
}
