//! What files and a bundle are refused with.

use msg_bundle::BundleFault;
use soy_base::{Fault, Placing, Text};

/// A fault of a file, which is named by its number, or of the bundle.
#[derive(Drop)]
pub enum FrontFault {
    Soy(Fault),
    Bundle(BundleFault),
}

/// What goes with a fault: with a failed demand the two names or types that it is about, the second empty where there
/// is only one; with a value of two placings (12) both, in the order of the walk; with any other fault nothing.
#[derive(Drop)]
pub enum Detail {
    None,
    Names(Text, Text),
    Placings(Placing, Placing),
}

/// A fault, and what goes with it.
#[derive(Drop)]
pub struct Detailed<F> {
    pub fault: F,
    pub detail: Detail,
}

/// A fault of a file or of the bundle, and what goes with it.
pub type FrontRefusal = Detailed<FrontFault>;
