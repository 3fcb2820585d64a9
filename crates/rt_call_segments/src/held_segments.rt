use crate::consuming::Consuming;
use rt_call_words::Stop;
use rt_segment::Sealed;

/// What lines about segments leave to later ones.
pub struct HeldSegments {
    pub(crate) consuming: Option<Consuming>,
    pub(crate) sealed: Option<Sealed>,
}

// Written out: whoever drops segments calls this, and its proof needs nothing of the fields.
impl Drop for HeldSegments {
    fn drop(self) {
        let HeldSegments {
            consuming: _,
            sealed: _,
        } = self;
    }
}

impl HeldSegments {
    /// No segment was made or read yet.
    pub fn new() -> HeldSegments {
        HeldSegments {
            consuming: None,
            sealed: None,
        }
    }

    /// The consuming segment of the lines that need one.
    pub fn consuming(&self) -> Result<&Consuming, Stop> {
        match &self.consuming {
            Some(consuming) => Ok(consuming),
            None => Err(Stop::Refused),
        }
    }

    /// The sealed segment of the lines that need one.
    pub fn sealed(&self) -> Result<&Sealed, Stop> {
        match &self.sealed {
            Some(sealed) => Ok(sealed),
            None => Err(Stop::Refused),
        }
    }
}
