//! The description of a camera's registers, fetched from the camera by READMEM.
//!
//! `specs/Url.antt` has the grammar of the URL that tells where it lies, `specs/Memory.antt` what a read tells, and
//! `specs/Describing.antt` what was fetched, over links and clocks that tell.
#![tactic(auto)]

mod copying; // its bytes, as they come
mod describe_end; // how it ended
mod describing; // the whole, over a link and over ports
pub mod laws; // laws of the definitions, as contracts
mod locating; // the two URLs
mod location; // where it lies
mod reading; // one READMEM
mod url; // the URL, read

pub use describe_end::DescribeEnd;
pub use describing::{describe, fetch};
pub use location::Location;
pub use url::location_in;
