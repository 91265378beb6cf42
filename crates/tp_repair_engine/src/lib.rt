//! The least and the greatest moments of a temporal network, kept from change to change:
//! incremental tightening (Dechter, Meiri and Pearl 1991), which is Dijkstra on reduced costs, the
//! kept moments being the potential.
//!
//! `store` keeps the edges, and for each point the two lists in which they stand there; `potential`
//! is a store with moments that meet its edges. `flow` lets amounts flow along them, from the point
//! with the most on; `queue` tells which point that is. `tighten` works out from it what one more
//! edge does to the least and the greatest moments, `rising` what floors that rise do to the least
//! ones, `loosen` where moments go back to when an edge that held them leaves; with this `solve`
//! works out anew what such an edge may have held. `star` has the edges with which a network
//! begins, `engine` the edges with their moments, `change` what takes edges out or changes them.
#![tactic(auto)]

pub mod change;
pub mod engine;
pub mod flow;
pub mod loosen;
pub mod potential;
pub mod queue;
pub mod rising;
pub mod solve;
pub mod star;
pub mod store;
pub mod tighten;
