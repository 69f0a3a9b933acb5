//! Commands, items, events and the game: the words in which mirrors speak of a match.
#![tactic(auto)]

mod block_tree;
mod command;
mod command_list;
mod event;
mod game;
pub mod laws;
pub mod limits;
mod name_tree;
mod order;
mod shifted;

pub use command::{Act, Command, Item, Key, MirrorId, Number, Tick, order_by_key};
pub use command_list::CommandList;
pub use event::{Arrived, Event, Note, Reply, Stepped, Ticked};
pub use game::Game;
pub use name_tree::NameTree;
pub use order::execute_in_order;
pub use shifted::Shifted;
