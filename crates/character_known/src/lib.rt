// What one event makes of what is known of a PT6302 panel: exactly what all chips that fit agree on.
#![tactic(auto)]

mod anywhere;
mod astray;
mod bytes;
mod columns;
mod commanded;
mod everyday;
mod lost;
mod moves;
mod rows;
mod stored;

pub use anywhere::weakened;
pub use astray::{Astray, strays};
pub use commanded::{
    digits_set, draw_from, duty_set, ignoring_on, lights_set, mark_from, port_set, show_from,
    undefined_in,
};
pub use everyday::{Target, falls, goes_to, rises};
pub use lost::nothing_known;
pub use moves::{moved, taken};
pub use rows::Rows;
pub use stored::{drawn_by, marked_by, shown_by};
