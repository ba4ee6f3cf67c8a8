use reading::SiteFault;
use std::alloc::AllocError;
use std::io;

// Why a region was not read to the end.
#[derive(Drop)]
pub enum Stopped {
    // a text was refused
    Refused(SiteFault),
    // there was no memory, or a file that opened could not be read
    Failed(io::Error),
}

impl From<SiteFault> for Stopped {
    fn from(fault: SiteFault) -> Stopped {
        Stopped::Refused(fault)
    }
}

impl From<io::Error> for Stopped {
    fn from(error: io::Error) -> Stopped {
        Stopped::Failed(error)
    }
}

impl From<AllocError> for Stopped {
    fn from(_error: AllocError) -> Stopped {
        Stopped::Failed(io::Error::from(AllocError))
    }
}
