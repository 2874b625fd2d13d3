//! An access point, as what measures it sees it.
use crate::fault::BenchFault;

/// What an access point of one radio is asked for. No method has a clause: what goes by this trait is proved without
/// the long contracts of a world.
pub trait AccessPoint {
    /// Starts the interface, which is to be committed and handed out.
    fn start(&mut self) -> Result<(), BenchFault>;

    /// Accepts a frame, which is to be an entry.
    fn accept(&mut self, frame: &[u8]) -> Result<(), BenchFault>;

    /// Settles what was accepted, which is to be one batch.
    fn settle(&mut self) -> Result<(), BenchFault>;

    /// Hands out what is settled for the radio, and has it applied.
    fn hand(&mut self) -> Result<(), BenchFault>;
}
