//! A survey: the bytes of a LAS file that were read to their end and found to be laid out as a
//! survey is, and beside them the header's fields and the places of its variable length records.
#![tactic(auto)]

mod loading;
mod survey;

pub use las_header::Header;
pub use las_vlr::{VlrList, VlrPlace};
pub use loading::{LoadFault, load};
pub use survey::Survey;
pub use view_base::{HeaderFault, SurveyFault};
