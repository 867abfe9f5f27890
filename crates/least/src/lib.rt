//! Minimal elements of a list by a relation such as inclusion, mostly without a comparison of every two items.
//!
//! In the field's words: from a list of sets, it keeps those that include no other one of the list, which form an antichain. This makes automata
//! smaller: it removes transitions and edges that another one subsumes, and pairs that a weaker pair may replace.
//!
//! What flows: a type with the trait `Elements` says which elements an item needs, which ones it asks for, and which ones it lacks. The trait `Below`
//! says when an item is below another, with two laws: then the other one needs each element that the item needs, and the item lacks none that the
//! other one asks for. A test with the trait `Counting` says which of the items below a given one are taken into account, for instance those that
//! differ from it. A `Lookup` of items answers whether one of them is below a given item and is taken into account. `not_above` asks it for each item of
//! a list, and keeps those for which there is none, in the given order. `least` does so for the items among themselves.
//!
//! Up to 24 items are compared one by one. More items are divided into blocks of 256. A block has `Columns`: for each element, the set of the indices
//! of the items that need it, and of those that lack it. A search starts with all indices. It removes the columns of needed elements that the given
//! item doesn't need, and the columns of lacked elements that it asks for. By the laws, no item that is removed is below the given one. The candidates
//! that are left are compared. Blocks are items of upper blocks, by what all items of a block need, so most blocks aren't searched at all. Items that
//! are looked up one after another are often above the same item, or the next one. So four items, from the one that was found last on, are compared
//! before blocks are searched.
//!
//! ```
//! {0, 1, 2}  {0, 1}  {2}  {0, 1, 3}      of these four sets
//! {0, 1}  {2}                            are the minimal ones
//!
//! 0: 0, 1, 3    1: 0, 1, 3    2: 0, 2    3: 3      their columns
//! for {0, 1}: all but 0, 2 and 3, so 1             the candidates, without the columns of 2 and 3
//! ```
#![tactic(auto)]

pub mod below;
mod block;
pub mod columns;
mod common;
pub mod counting;
pub mod elements;
mod index;
mod leaders;
pub mod lookup;
mod parts;

pub use below::Below;
pub use columns::Columns;
pub use counting::Counting;
pub use elements::Elements;
pub use leaders::{least, not_above};
pub use lookup::Lookup;
