//! Why a page isn't opened.

use soy_types::DataFault;

/// No template may be rendered under the name, or the data give its parameters no values.
#[derive(Drop)]
pub enum PageFault {
    Entry,
    Data(DataFault),
}
