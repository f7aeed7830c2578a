// Lookups in tables of any number of axes.
pub(crate) mod corners;
pub mod linear;
pub mod linear_uniform;
pub(crate) mod locations;
pub mod nearest;
pub(crate) mod pick;
pub mod step;
