//! Actions: their nodes, their information, and what an action may do. The meaning of an action
//! stands in `specs/`, as definitions alone; the code here makes graphs of nodes.
#![tactic(auto)]

mod bodies;
pub mod builder;
pub mod graph;
pub mod kinds;
mod linking;
mod places;
pub mod pushed;
pub mod under;
pub mod view;

pub use builder::GraphBuilder;
pub use graph::{Graph, GraphError, Node, YNode};
pub use kinds::{Kind, Sort, YKind};
pub use pushed::{NewAction, NewYielder};
pub use view::{Chain, Join, NodeView, One, PrimitiveView, Two, YielderView};
