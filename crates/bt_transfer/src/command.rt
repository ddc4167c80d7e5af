//! The commands, each as a function of its own.

pub(crate) mod fetch;
pub(crate) mod fetch_together;
pub(crate) mod seed;
