//! The spread of points: the sum of the amounts, and the number, of the boxes around each point.
#![tactic(auto)]

mod area_box;
mod axis;
mod edge;
mod fenwick;
mod layout;
mod point;
mod points;
mod spot;
mod sweep;
mod tables;
mod work;

pub use area_box::AreaBox;
pub use point::AreaPoint;
pub use points::AreaPoints;
pub use work::AreaWork;
