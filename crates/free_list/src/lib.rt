//! Lists of free places, of which a call takes the first one or puts one in front.
//!
//! Such a list stands in the words of a world, and its lock guards it. A call here is made by a pass that holds the lock
//! to write; it needs no memory and never waits. What is taken off is the pass's to use, and what is put in front was.
//! There are two: the free indexes of bodies, and the pool of free batch nodes, which has a count beside it. The same
//! calls serve both.
//!
//! It stands on the typed steps. Calls that go by turns stand on its single steps. Those that create and destroy bodies
//! use that the first index of the list is the one that the scene gives to the next body; those that prepare batches,
//! that the count says how many nodes can be taken.
#![tactic(auto)]

mod index_list;
mod index_steps;
mod list;
mod node_pool;
mod pool_steps;
mod pop_push;

pub use index_steps::{load_head, load_link, put_in_front, store_link, take_off};
pub use list::{Empty, ListName};
pub use pool_steps::{
    load_count, load_pool_head, load_pool_link, put_node_in_front, store_count, store_pool_link,
    take_node_off,
};
pub use pop_push::{pop, push};
