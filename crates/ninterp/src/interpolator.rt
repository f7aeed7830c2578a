// Lookups in tables, laid out as the Rust is.
pub mod n;
