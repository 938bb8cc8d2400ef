// What a translation of a raster does, or why it can't be done.
#![tactic(auto)]

mod band;
mod bands;
mod fits;
mod laws;
mod options;
mod planned;
mod planning;
mod publishing;
mod publishing_laws;
mod window;

pub use band::OutBand;
pub use laws::{pixels_are_held, plans_are_kept, plans_can_be_written, windows_are_shown};
pub use options::{Driver, Numbers, OutSize, TranslateOptions, View, driver_for};
pub use planned::Plan;
pub use planning::plan;
pub use publishing::document;
pub use publishing_laws::documents_show_outputs;
