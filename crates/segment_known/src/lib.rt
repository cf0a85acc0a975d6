// What one event makes of what is known of a PT6312 or PT6315 panel: exactly what all chips that fit agree on. The family stands beside what is known and not in it, since it is the part byte's, which
// each call reads anew, and since what is known would have to be taken apart and put together at every event.
#![tactic(auto)]

mod bytes;
mod commanded;
mod everyday;
mod latches;
mod moves;
mod perhaps;
mod reads;
mod stored;

pub use commanded::{address_set, data_set, display_set, in_test, stepping_set, to_mode};
pub use everyday::{
    Target, counted_on, falls, goes_to, lit, meets, nothing_left, perhaps_lit, perhaps_stepped,
    rises,
};
pub use moves::{moved, taken};
pub use perhaps::unmoved;
