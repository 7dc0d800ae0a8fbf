// What a layer is: it stands on one system, and shows that system in its own way.
#![tactic(auto)]

mod layering;
mod settings;
mod shapes;

pub use layering::{Layer, Settable};
pub use settings::SettingFault;
pub use shapes::Shape;
