//! Whether a corporation has a route on its net.
//!
//! Stands on `rr_checker`. Its promise: `has_route` is true exactly where the corporation `HasRoute`.

pub mod laws;
mod links;
mod near;
mod routes;
mod ways;

pub use routes::has_route;
