//! The strongly connected components of a dependency graph: the nodes of each, its leader, its
//! depth, and whether it reaches an instance that no log commits.
#![tactic(auto)]

mod bottom_up;
mod collector;
mod component_map;
mod depths;
mod leaders;
mod merge_groups;
mod missing;
mod node_ranks;
mod order_list;
mod partition;
mod rank;
mod ready;
mod search;
mod visit;

pub use bottom_up::collect_bottom_up;
pub use collector::Collector;
pub use component_map::{ComponentMap, components};
pub use missing::find_missing;
pub use node_ranks::{NodeRank, NodeRanks};
pub use order_list::OrderList;
pub use partition::Partition;
pub use rank::Rank;
pub use ready::{ready_node, ready_nodes};
pub use search::find_components;
